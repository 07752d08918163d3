//! A circuit that counts to several numbers at once: each stage of its chain of latches tells of a count. Nothing is
//! proved of it: what is found in it is certified.

use crate::liveness::merged::Merged;
use crate::liveness::shown::Recurrence;
use gipmc_circuits::Netlist;
use gipmc_reduce::{Cone, Means, longer};
use gipsat_cnf::{Literal, SatSolver};
use std::alloc::{AllocError, Global};

// Numbers of variables are below this.
const VARIABLE_LIMIT: usize = 1 << 31;

// The circuit that counts to the number of its stages, and the literals that tell of smaller numbers too.
#[derive(Drop)]
pub(crate) struct Chain {
    // How many variables the circuit has that is counted in: the latches of the stages are those behind them.
    variables: usize,
    pub(crate) stages: usize,
    // The least number that is asked about.
    first: usize,
    // What the literals depend on that tell of each number from the first one on. They are its bad ones, in that order.
    part: Cone,
    // What is left of that, if variables are merged.
    merged: Option<Merged>,
}

impl Chain {
    // The circuit with so many stages, where the counts from the first one on are asked about. None where a literal is of
    // no variable of the circuit.
    pub(crate) fn new(
        alloc: Global,
        of: Recurrence<'_>,
        first: usize,
        stages: usize,
    ) -> Result<Option<Self>, AllocError> {
        let means = Means::Counting(stages);
        let Some((made, _)) = longer(alloc, of.netlist, of.fairness, of.justice, means)? else {
            return Ok(None);
        };
        let variables = of.netlist.variables;
        let mut bads = Vec::new(alloc);
        for k in first..stages.saturating_add(1) {
            if let Some(more) = literal_of(gate_of(variables, stages, k)) {
                bads.push(more)?;
            }
        }
        let part = Cone::new(alloc, &made, &bads)?;
        Ok(part.map(|part| Chain {
            variables,
            stages,
            first,
            part,
            merged: None,
        }))
    }

    // Merges variables, if that makes it much smaller.
    pub(crate) fn merge<S: SatSolver + Drop>(&mut self, alloc: Global) -> Result<(), AllocError> {
        self.merged = Merged::of::<S>(alloc, &self.part.netlist)?;
        Ok(())
    }

    // The circuit to search in.
    pub(crate) fn netlist(&self) -> &Netlist {
        match &self.merged {
            Some(merged) => &merged.part.netlist,
            None => &self.part.netlist,
        }
    }

    // Clauses of that, over the variables of the longer circuit.
    pub(crate) fn named(
        &self,
        alloc: Global,
        clauses: &[Vec<Literal>],
        names_gates: bool,
    ) -> Result<Vec<Vec<Literal>>, AllocError> {
        let Some(merged) = &self.merged else {
            return self.part.names.clauses_of(alloc, clauses);
        };
        let whole = &self.part.netlist;
        let clauses = merged.clauses_of(alloc, whole, clauses, names_gates)?;
        self.part.names.clauses_of(alloc, &clauses)
    }

    // The number that the bad literal at a place tells of.
    pub(crate) fn count(&self, place: usize) -> usize {
        self.first.saturating_add(place)
    }

    // Those of the clauses that speak of the circuit that counts to `k` alone, over its variables.
    pub(crate) fn shortened(
        &self,
        alloc: Global,
        clauses: &[Vec<Literal>],
        k: usize,
    ) -> Result<Vec<Vec<Literal>>, AllocError> {
        let mut shortened = Vec::new(alloc);
        for clause in clauses {
            if let Some(own) = self.shorter(alloc, clause, k)? {
                shortened.reserve(1)?;
                shortened.push_reserved(own);
            }
        }
        Ok(shortened)
    }

    // The same of a clause.
    fn shorter(
        &self,
        alloc: Global,
        clause: &[Literal],
        k: usize,
    ) -> Result<Option<Vec<Literal>>, AllocError> {
        let mut own = Vec::new(alloc);
        for l in clause {
            let Some(named) = self.shifted(l.variable() as usize, k) else {
                return Ok(None);
            };
            own.push(if l.is_positive() {
                named
            } else {
                named.negated()
            })?;
        }
        Ok(Some(own))
    }

    // The literal of the circuit that counts to `k` that is this variable of the chain. Its gates come behind its latches.
    fn shifted(&self, variable: usize, k: usize) -> Option<Literal> {
        if variable < self.variables.saturating_add(k) {
            return literal_of(variable);
        }
        let gate = variable.checked_sub(gate_of(self.variables, self.stages, 0))?;
        if gate > k.saturating_mul(2) {
            return None;
        }
        literal_of(gate_of(self.variables, k, 0).saturating_add(gate))
    }

    // The clauses, and further ones by which no stage behind `k` is passed.
    pub(crate) fn closed_behind(
        &self,
        alloc: Global,
        clauses: Vec<Vec<Literal>>,
        k: usize,
    ) -> Result<Vec<Vec<Literal>>, AllocError> {
        let mut clauses = clauses;
        for stage in k..self.stages {
            if let Some(passed) = literal_of(self.variables.saturating_add(stage)) {
                let mut clause = Vec::new(alloc);
                clause.push(passed.negated())?;
                clauses.reserve(1)?;
                clauses.push_reserved(clause);
            }
        }
        Ok(clauses)
    }
}

// The gate of a chain of so many stages, behind so many variables, that tells that `k` stages are passed, and that the
// next literal is true.
fn gate_of(variables: usize, stages: usize, k: usize) -> usize {
    let first = variables.saturating_add(stages);
    first.saturating_add(k.saturating_mul(2))
}

// The literal of a variable, if it may have that number.
fn literal_of(variable: usize) -> Option<Literal> {
    if variable < VARIABLE_LIMIT {
        Some(Literal::new(variable as u32, true))
    } else {
        None
    }
}
