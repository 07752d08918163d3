//! A writer of proofs that nothing satisfies a formula, which listens to a solver.
mod decimal;
mod lrat;
mod names;
pub mod part;
mod steps;
pub mod writer;

pub use part::PartWriter;
pub use writer::{Fault, Form, Format, ProofSteps, ProofWriter};
