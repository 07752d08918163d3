//! The part of the program `gipsat` that needs no solver: its command line and help, its files and errors, and the checks
//! of proofs.
#![tactic(auto)]

mod about;
mod checks;
mod convert;
mod errors;
mod files;
mod options;
pub mod proof_file;

pub use about::ABOUT;
pub use checks::{check_files, check_in, convert_in, convert_proof};
pub use convert::Written;
pub use errors::{Failure, UsageError};
pub use files::{Output, Source, Stream};
pub use options::{Options, Task};
