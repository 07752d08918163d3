//! Circuits that are well-formed, with the number of their variables.
ghost use Rattle.std.specs.Prelude.{◌≡◌, ℕ, ◌≤◌, false, IfOk, IsTrue, MatchOption};
ghost use Rattle.gipmc_circuits.specs.Encoding.{is_below};
ghost use Rattle.gipmc_circuits.specs.WellFormed.{is_well_formed};

use crate::circuit::Circuit;
use crate::encoding::variables;
use crate::well_formed::is_well_formed;
use std::alloc::{AllocError, Global};

/// A circuit that is well-formed, and the number of its variables.
#[derive(Drop)]
pub struct Netlist {
    /// The circuit.
    pub circuit: Circuit,
    /// One more than its greatest variable, at least 1.
    pub variables: usize,
    pub ghost formed: { IsTrue (is_well_formed circuit) },
    pub ghost enough: { IsTrue (is_below variables circuit) },
    pub ghost least: { (n : ℕ) → IsTrue (is_below n circuit) → variables ≤ n },
}

impl Netlist {
    /// The netlist of a circuit. None if the circuit is not well-formed.
    ///
    /// # Errors
    /// `AllocError` where memory is refused.
    pub fn new(alloc: Global, circuit: Circuit) -> Result<Option<Self>, AllocError>
        ensures { IfOk result
            (λ made. MatchOption made (is_well_formed circuit ≡ false) (λ n. n.circuit ≡ circuit)) }
    {
        if !is_well_formed(alloc, &circuit)? {
            return Ok(None);
        }
        let variables = variables(&circuit);
        Ok(Some(Netlist { circuit, variables }))
    }
}
