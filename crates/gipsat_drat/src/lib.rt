//! A checker of proofs that nothing satisfies a formula: clauses, each of which has to be RUP or RAT, found by
//! propagation or shown by hints.
#![tactic(auto)]

mod binary;
pub mod checker;
mod codes;
mod derivations;
pub mod error;
mod form;
mod hint_list;
mod hints;
mod index;
pub mod join;
mod joined;
mod log;
mod lrat;
mod lrat_parser;
mod lrat_step;
pub mod lrat_writer;
mod met;
mod names;
mod numbering;
mod parser;
mod propagation;
mod rat;
mod rup;
mod step;
pub mod task;
mod text;
mod trail;
mod watches;
mod words;

pub use checker::Checker;
pub use error::{DratError, Flaw, Notes, OtherForm, Outcome, Place, Refusal};
pub use join::{Joiner, PartError};
pub use lrat_writer::LratFormat;
pub use task::{check_text, check_text_noting, lrat_from_drat};
