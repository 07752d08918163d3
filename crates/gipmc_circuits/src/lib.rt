//! Circuits of gates and latches, and proved answers to the question whether they are safe.
#![tactic(auto)]

pub mod certificate;
pub mod circuit;
mod claims;
mod cone;
pub mod diagnosis;
pub mod encoding;
pub mod netlist;
mod parts;
mod simulation;
pub mod trace;
pub mod well_formed;
pub mod witness_circuit;
pub mod witnessed;

pub use certificate::{Verdict, certify, exclusions, invariant_doubt};
pub use circuit::{And, Circuit, Latch};
pub use diagnosis::{TraceDoubt, trace_doubt};
pub use netlist::Netlist;
pub use trace::{Trace, replay};
pub use well_formed::is_well_formed;
pub use witness_circuit::{Link, Register, WitnessCircuit};
pub use witnessed::certify_by;
