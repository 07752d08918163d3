//! Formulas as texts in the DIMACS form: a reader of formulas, and a writer of clauses.
#![tactic(auto)]

pub mod error;
mod instance;
mod lines;
mod parser;
pub mod reader;
pub mod rule;
mod stage;
mod words;
pub mod writer;

pub use error::{Compression, DimacsError, Reason};
pub use instance::Instance;
pub use reader::{read_instance, read_instance_by, read_into};
pub use rule::HeaderRule;
pub use writer::write_clause;
