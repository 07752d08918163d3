//! The names of a part's variables: their numbers in the whole circuit.
ghost use Rattle.std.specs.Prelude.{◌≡◌, map, IfOk, IfSome};
ghost use Rattle.gipmc_reduce.specs.Cone.{gate_named, latch_named, literal_named, name, rows, rows_named};

use crate::cone::influence::Influence;
use crate::cone::places::Places;
use gipmc_circuits::{And, Latch, Netlist};
use gipsat_cnf::Literal;
use std::alloc::{AllocError, Global};

/// The names of a part's variables, and their way back.
pub struct Names {
    /// For each variable of the part, that of the whole circuit.
    pub names: Vec<u32>,
    places: Places,
    // By the place of a variable of the whole circuit, that of the part; 0 if it has none.
    numbers: Vec<u32>,
}

// One call in its owners' proofs, in place of one for each field.
impl Drop for Names {
    fn drop(self) {
        let Names {
            names,
            places,
            numbers,
        } = self;
    }
}

impl Names {
    // Names for the cone of the constraints and of these literals: first 0, then inputs, latches and gates, in order.
    pub(crate) fn new(
        alloc: Global,
        netlist: &Netlist,
        literals: &[Literal],
    ) -> Result<Self, AllocError> {
        let places = Places::new(alloc, netlist)?;
        let cone = Influence::new(alloc, &netlist.circuit, &places, literals)?;
        let mut names = Vec::new(alloc);
        names.push(0)?;
        let mut numbers = Vec::new(alloc);
        numbers.resize(places.count(), 0)?;
        let mut made = Names {
            names,
            places,
            numbers,
        };
        made.give_all(netlist, &cone)?;
        Ok(made)
    }

    // Gives each variable of a cone a number.
    fn give_all(&mut self, netlist: &Netlist, cone: &Influence) -> Result<(), AllocError> {
        for input in &netlist.circuit.inputs {
            self.give(*input, cone)?;
        }
        for latch in &netlist.circuit.latches {
            self.give(latch.variable, cone)?;
        }
        for gate in &netlist.circuit.gates {
            self.give(gate.output, cone)?;
        }
        Ok(())
    }

    // Gives a variable the next number, if the cone has it.
    fn give(&mut self, variable: u32, cone: &Influence) -> Result<(), AllocError> {
        if !cone.has(&self.places, variable) {
            return Ok(());
        }
        let next = u32::try_from(self.names.len()).map_err(|_| AllocError)?;
        let Some(place) = self.places.place(variable) else {
            return Ok(());
        };
        if let Some(number) = self.numbers.get_mut(place) {
            *number = next;
        }
        self.names.push(variable)?;
        Ok(())
    }

    /// The variable of the whole circuit. Past the part it is 0.
    pub fn name(&self, variable: u32) -> u32
        ensures { result ≡ name self.now.names.items variable }
    {
        self.names.get(variable as usize).copied().unwrap_or(0)
    }

    /// The variable of the part that stands for this one, if there is one.
    pub fn number(&self, variable: u32) -> Option<u32>
        ensures { IfSome result (λ own. name self.now.names.items own ≡ variable) }
    {
        let number = self.number_at(variable)?;
        if self.name(number) == variable {
            Some(number)
        } else {
            None
        }
    }

    // The number at the place of a variable.
    fn number_at(&self, variable: u32) -> Option<u32> {
        let place = self.places.place(variable)?;
        self.numbers.get(place).copied()
    }

    /// The literal of the part that stands for this one, if the part has it.
    pub fn literal(&self, l: Literal) -> Option<Literal>
        ensures { IfSome result (λ own. literal_named self.now.names.items own ≡ l) }
    {
        let number = self.number(l.variable())?;
        if number >= 1 << 31 {
            return None;
        }
        Some(Literal::new(number, l.is_positive()))
    }

    // The gate of the part that stands for this one, if the part has it.
    pub(crate) fn gate(&self, gate: And) -> Option<And>
        ensures { IfSome result (λ own. gate_named self.now.names.items own ≡ gate) }
    {
        Some(And {
            output: self.number(gate.output)?,
            left: self.literal(gate.left)?,
            right: self.literal(gate.right)?,
        })
    }

    // The latch of the part that stands for this one, if the part has it.
    pub(crate) fn latch(&self, latch: Latch) -> Option<Latch>
        ensures { IfSome result (λ own. latch_named self.now.names.items own ≡ latch) }
    {
        Some(Latch {
            variable: self.number(latch.variable)?,
            next: self.literal(latch.next)?,
            reset: latch.reset,
        })
    }

    /// The literals of the part that stand for these. None if the part has not all of them.
    ///
    /// # Errors
    /// `AllocError` where memory is refused.
    pub fn literals(
        &self,
        alloc: Global,
        literals: &[Literal],
    ) -> Result<Option<Vec<Literal>>, AllocError>
        ensures { IfOk result (λ made. IfSome made
            (λ own. map (literal_named self.now.names.items) own.items ≡ literals.now)) }
    {
        let mut all = Vec::with_capacity(alloc, literals.len())?;
        for l in literals {
            let Some(own) = self.literal(*l) else {
                return Ok(None);
            };
            all.push(own)?;
        }
        Ok(Some(all))
    }

    /// The clauses of the part that stand for these. None if the part has not all of their literals.
    ///
    /// # Errors
    /// `AllocError` where memory is refused.
    pub fn clauses(
        &self,
        alloc: Global,
        clauses: &[Vec<Literal>],
    ) -> Result<Option<Vec<Vec<Literal>>>, AllocError>
        ensures { IfOk result (λ made. IfSome made
            (λ own. rows clauses.now ≡ rows_named self.now.names.items own.items)) }
    {
        let mut all = Vec::with_capacity(alloc, clauses.len())?;
        for clause in clauses {
            let Some(own) = self.literals(alloc, clause)? else {
                return Ok(None);
            };
            all.push(own)?;
        }
        Ok(Some(all))
    }

    // The literal that one of the part stands for.
    fn literal_of(&self, l: Literal) -> Result<Literal, AllocError>
        ensures { IfOk result (λ named. named ≡ literal_named self.now.names.items l) }
    {
        let variable = self.name(l.variable());
        if variable >= 1 << 31 {
            return Err(AllocError);
        }
        Ok(Literal::new(variable, l.is_positive()))
    }

    // The literals that those of the part stand for.
    fn literals_of(&self, alloc: Global, literals: &[Literal]) -> Result<Vec<Literal>, AllocError>
        ensures { IfOk result
            (λ named. named.items ≡ map (literal_named self.now.names.items) literals.now) }
    {
        let mut all = Vec::with_capacity(alloc, literals.len())?;
        for l in literals {
            all.push(self.literal_of(*l)?)?;
        }
        Ok(all)
    }

    /// The clauses that those of the part stand for.
    ///
    /// # Errors
    /// `AllocError` where memory is refused.
    pub fn clauses_of(
        &self,
        alloc: Global,
        clauses: &[Vec<Literal>],
    ) -> Result<Vec<Vec<Literal>>, AllocError>
        ensures { IfOk result
            (λ named. rows named.items ≡ rows_named self.now.names.items clauses.now) }
    {
        let mut all = Vec::with_capacity(alloc, clauses.len())?;
        for clause in clauses {
            let named = self.literals_of(alloc, clause)?;
            all.push(named)?;
        }
        Ok(all)
    }
}
