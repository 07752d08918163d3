//! What is found out about a problem, as texts of answers, and what witnesses and certificates of other programs show
//! of it. The type parameter `S` is what solves.
#![tactic(auto)]

pub mod answered;
pub mod answers;
mod any;
pub mod certificates;
pub mod error;
pub mod induction;
pub mod join;
pub mod justice;
pub mod kind;
mod known;
mod latches;
mod left;
pub mod outcome;
pub mod output;
mod parted;
mod query;
mod strengthened;
pub mod verdict;
pub mod witnesses;

pub use answered::{Answered, together};
pub use answers::{Said, answer};
pub use certificates::{
    Certificate, Doubt, DoubtReason, Grounds, certificate_of, certifies, doubt_of,
};
pub use error::TaskError;
pub use induction::InductionDoubt;
pub use join::{CertificateParts, JoinedCertificate};
pub use kind::{PropertyKind, PropertyName};
pub use outcome::Outcome;
pub use output::{AnswerOrder, Certifying, Lost, Output, Traces, Wanted};
pub use verdict::{Evidence, Verdict};
pub use witnesses::{WitnessDoubt, WitnessReason, replay_all, replays, witness_doubt};
