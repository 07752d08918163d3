//! What a text asks a model checker: a circuit with its properties, and which of these are asked about.
ghost use Rattle.std.specs.Prelude.{◌≡◌};
ghost use Rattle.gipmc_aiger.specs.Circuits.{is_live_alone};
ghost use Rattle.gipmc_aiger.specs.LiveCircuits.{live_rows};

use crate::liveness::Liveness;
use gipmc_circuits::{Circuit, Netlist};

/// A circuit with its bad literals, its justice properties and its fairness constraints.
pub struct Problem {
    /// The circuit, which has the bad literals.
    pub netlist: Netlist,
    /// The justice properties and the fairness constraints.
    pub liveness: Liveness,
}

// One call in its owners' proofs, in place of one for each field.
impl Drop for Problem {
    fn drop(self) {
        let Problem { netlist, liveness } = self;
    }
}

impl Problem {
    /// Whether there are justice properties, and no bad literals.
    pub fn is_live_alone(&self) -> bool
        ensures { result ≡ is_live_alone (live_rows self.now.netlist.circuit self.now.liveness) }
    {
        is_live_alone(&self.netlist.circuit, &self.liveness)
    }
}

// Whether there are justice properties, and no bad literals.
pub(crate) fn is_live_alone(circuit: &Circuit, liveness: &Liveness) -> bool
    ensures { result ≡ is_live_alone (live_rows circuit.now liveness.now) }
{
    !liveness.justice.is_empty() && circuit.bads.is_empty()
}

/// A property of a problem, by its place among those of its kind.
#[derive(Clone, Copy, Debug, PartialEq, Eq)]
pub enum Property {
    /// A bad literal.
    Bad(usize),
    /// A justice property.
    Justice(usize),
}

/// Which properties of a problem are asked about.
#[derive(Clone, Copy, Debug, PartialEq, Eq)]
pub enum Subject {
    /// Each, with an answer of its own.
    All,
    /// All bad literals, with one answer for whether any fails.
    Any,
    /// This one.
    One(Property),
}
