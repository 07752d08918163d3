//! Circuits, their witnesses and their invariants as texts: AIGER in both forms, HWMCC's witnesses, and clauses in the
//! DIMACS form.
#![tactic(auto)]

pub mod circuits;
pub mod claims;
pub mod error;
pub mod header;
pub mod headers;
pub mod invariant;
pub mod live_writer;
pub mod liveness;
mod numbers;
mod order;
mod place;
pub mod problem;
mod rows;
mod sharing;
mod tails;
pub mod witness;
pub mod witness_circuits;
pub mod writer;

pub use circuits::{read_circuit, read_problem};
pub use claims::{Claim, read_claims, read_lassos};
pub use error::{AigerError, Place, Reason};
pub use header::Header;
pub use headers::read_header;
pub use invariant::{read_invariant, read_invariant_for, write_invariant};
pub use live_writer::{write_live_aag, write_live_aig};
pub use liveness::Liveness;
pub use problem::{Problem, Property, Subject};
pub use witness::{Witness, read_witness, write_lasso, write_witness};
pub use witness_circuits::read_witness_circuit;
pub use writer::{WriteError, is_writable, write_aag, write_aig};
