//! Signal correspondence: latches and gates of equal value are merged, and it is proved that they are equal.
ghost use Rattle.std.specs.Prelude.{◌≡◌, map, IfOk, IfSome};
ghost use Rattle.gipmc_circuits.specs.Certificate.{IsInductive, IsInitiated};
ghost use Rattle.gipmc_reduce.specs.Correspondence.{HoldBoth, ImpliesMerges, IsSweptOf, merged};

mod classes;
mod clauses;
mod graph;
pub mod guess;
mod keeping;
mod merged;
pub mod merges;
mod runs;

use clauses::add_clauses;
use gipmc_circuits::{Netlist, Trace, invariant_doubt};
use gipsat_cnf::{Literal, SatSolver};
pub use guess::Bounds;
use guess::guess;
use keeping::Keeping;
use merged::merged_circuit;
pub use merges::Merges;
use std::alloc::{AllocError, Global};

/// A circuit in which variables of equal value are merged.
pub struct Correspondence {
    /// The smaller circuit. Its variables are those of the whole circuit, and its bad literals stand for the literals
    /// that were asked for.
    pub netlist: Netlist,
    /// What stands for each variable of the whole circuit.
    pub merges: Merges,
    /// Clauses that say so. They are an invariant of the whole circuit.
    pub invariant: Vec<Vec<Literal>>,
}

// One call in its owners' proofs, in place of one for each field.
impl Drop for Correspondence {
    fn drop(self) {
        let Correspondence {
            netlist,
            merges,
            invariant,
        } = self;
    }
}

impl Correspondence {
    /// Finds out which latches and gates are equal, each other's opposite or constant, and merges them. None if that
    /// was not found out within the bounds.
    ///
    /// # Errors
    /// `AllocError` where memory is refused, or where two moments would have more than 2^31 variables.
    pub fn new<S: SatSolver + Drop>(
        alloc: Global,
        whole: &Netlist,
        bads: &[Literal],
        bounds: Bounds,
    ) -> Result<Option<Self>, AllocError>
        ensures swept { IfOk result (λ made. IfSome made
            (λ s. IsSweptOf s.merges.literals.items s.invariant.items s.netlist.circuit whole.now.circuit)) }
        ensures bads { IfOk result (λ made. IfSome made
            (λ s. s.netlist.circuit.bads.items ≡ map (merged s.merges.literals.items) bads.now)) }
    {
        let Some(merges) = guess::<S>(alloc, whole, bounds)? else {
            return Ok(None);
        };
        Self::by::<S>(alloc, whole, bads, merges, bounds.certificate)
    }

    /// Merges as it is told. None if the solver does not show that what is merged is equal, where each question to it
    /// may learn `limit` clauses, or if a variable would depend on itself.
    ///
    /// # Errors
    /// `AllocError` where memory is refused, or where two moments would have more than 2^31 variables.
    pub fn by<S: SatSolver + Drop>(
        alloc: Global,
        whole: &Netlist,
        bads: &[Literal],
        merges: Merges,
        limit: usize,
    ) -> Result<Option<Self>, AllocError>
        ensures swept { IfOk result (λ made. IfSome made
            (λ s. IsSweptOf s.merges.literals.items s.invariant.items s.netlist.circuit whole.now.circuit)) }
        ensures bads { IfOk result (λ made. IfSome made
            (λ s. s.netlist.circuit.bads.items ≡ map (merged s.merges.literals.items) bads.now)) }
    {
        let invariant = merges.clauses(alloc)?;
        match invariant_doubt::<Keeping<S>>(alloc, whole, &invariant, limit)? {
            Some(_) => Ok(None),
            None => Self::with(alloc, whole, bads, merges, invariant),
        }
    }

    // The same by an invariant that says so. None if a variable would depend on itself.
    fn with(
        alloc: Global,
        whole: &Netlist,
        bads: &[Literal],
        merges: Merges,
        invariant: Vec<Vec<Literal>>,
    ) -> Result<Option<Self>, AllocError>
        requires implied { ImpliesMerges invariant.items merges.literals.items }
        requires initiated { IsInitiated whole.now.circuit invariant.items }
        requires inductive { IsInductive whole.now.circuit invariant.items }
        ensures swept { IfOk result (λ made. IfSome made
            (λ s. IsSweptOf s.merges.literals.items s.invariant.items s.netlist.circuit whole.now.circuit)) }
        ensures bads { IfOk result (λ made. IfSome made
            (λ s. s.netlist.circuit.bads.items ≡ map (merged s.merges.literals.items) bads.now)) }
    {
        let circuit = merged_circuit(alloc, &merges, &whole.circuit, bads)?;
        match Netlist::new(alloc, circuit)? {
            Some(netlist) => Ok(Some(Correspondence {
                netlist,
                merges,
                invariant,
            })),
            None => Ok(None),
        }
    }

    /// The clauses of the merges, and behind them these. Where these are an invariant of the smaller circuit, all
    /// of them are one of the whole circuit.
    ///
    /// # Errors
    /// `AllocError` where memory is refused.
    pub fn clauses_of(
        &self,
        alloc: Global,
        clauses: &[Vec<Literal>],
    ) -> Result<Vec<Vec<Literal>>, AllocError>
        ensures { IfOk result (λ all. HoldBoth all.items self.now.invariant.items clauses.now) }
    {
        let mut all = Vec::new(alloc);
        add_clauses(alloc, &mut all, &self.invariant)?;
        add_clauses(alloc, &mut all, clauses)?;
        Ok(all)
    }

    /// The trace of the whole circuit that goes on as one of the smaller circuit does. Nothing is proved of it: a
    /// replay tells whether it is one.
    ///
    /// # Errors
    /// `AllocError` where memory is refused.
    pub fn trace_of(
        &self,
        alloc: Global,
        whole: &Netlist,
        trace: &Trace,
    ) -> Result<Trace, AllocError> {
        let values = self.first_values(alloc, trace)?;
        let mut latches = Vec::with_capacity(alloc, whole.circuit.latches.len())?;
        for latch in &whole.circuit.latches {
            let own = Literal::new(latch.variable & 0x7FFF_FFFF, true);
            let l = self.merges.literal(own);
            let value = values.get(l.variable() as usize).copied().unwrap_or(false);
            latches.push(value == l.is_positive())?;
        }
        let mut inputs = Vec::with_capacity(alloc, trace.inputs.len())?;
        for row in &trace.inputs {
            let mut own = Vec::new(alloc);
            own.extend_from_slice(row)?;
            inputs.push(own)?;
        }
        Ok(Trace { latches, inputs })
    }

    // For each variable, what a latch of it begins with; false for others.
    fn first_values(&self, alloc: Global, trace: &Trace) -> Result<Vec<bool>, AllocError> {
        let mut values = Vec::new(alloc);
        values.resize(self.netlist.variables, false)?;
        for (place, latch) in self.netlist.circuit.latches.iter().enumerate() {
            let value = trace.latches.get(place).copied().unwrap_or(false);
            if let Some(held) = values.get_mut(latch.variable as usize) {
                *held = value;
            }
        }
        Ok(values)
    }
}
