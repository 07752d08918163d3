//! Circuits in the form that AIGER has: inputs, latches and and-gates, each with its variable.
ghost use Rattle.std.specs.Prelude.{◌≡◌, []};

use gipsat_cnf::Literal;
use std::alloc::Global;

/// An and-gate: its output is true exactly if both operands are.
#[derive(Clone, Copy, Debug, PartialEq, Eq)]
pub struct And {
    /// The variable of its output.
    pub output: u32,
    /// The first operand.
    pub left: Literal,
    /// The second operand.
    pub right: Literal,
}

/// A latch: one bit of a circuit's state.
#[derive(Clone, Copy, Debug, PartialEq, Eq)]
pub struct Latch {
    /// Its variable.
    pub variable: u32,
    /// What it holds at the next moment.
    pub next: Literal,
    /// What it holds at the first moment. None if it may hold either value then.
    pub reset: Option<bool>,
}

/// A circuit. Variable 0 is false; each other variable is that of an input, of a latch or of a gate.
#[derive(Debug)]
pub struct Circuit {
    /// The variables of the inputs, which may have any value at each moment.
    pub inputs: Vec<u32>,
    /// The latches.
    pub latches: Vec<Latch>,
    /// The gates, each behind those that its operands are outputs of.
    pub gates: Vec<And>,
    /// The bad literals: each is to be false at every moment.
    pub bads: Vec<Literal>,
    /// The constraints: a moment at which one is false does not count.
    pub constraints: Vec<Literal>,
}

// One call in its owners' proofs, in place of one for each field.
impl Drop for Circuit {
    fn drop(self) {
        let Circuit {
            inputs,
            latches,
            gates,
            bads,
            constraints,
        } = self;
    }
}

impl Circuit {
    /// The circuit with nothing in it. It takes no memory yet.
    pub fn new(alloc: Global) -> Self
        ensures inputs { result.inputs.items ≡ [] }
        ensures latches { result.latches.items ≡ [] }
        ensures gates { result.gates.items ≡ [] }
        ensures bads { result.bads.items ≡ [] }
        ensures constraints { result.constraints.items ≡ [] }
    {
        Circuit {
            inputs: Vec::new(alloc),
            latches: Vec::new(alloc),
            gates: Vec::new(alloc),
            bads: Vec::new(alloc),
            constraints: Vec::new(alloc),
        }
    }
}
