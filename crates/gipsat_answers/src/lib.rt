//! What is found out about a formula: answers and their texts, and the whole task, from the bytes of a text in the
//! DIMACS form to those of its answer.
#![tactic(auto)]

pub mod answers;
mod asked;
pub mod assumed;
pub mod cover;
pub mod cubes;
pub mod error;
mod lookahead;
pub mod models;
mod names;
mod naming;
pub mod parts;
pub mod proof;
pub mod questions;
pub mod task;

pub use answers::{Solved, Verdict};
pub use assumed::{are_named, assume, first_variables, read_literals};
pub use cover::{cover_steps, with_negations};
pub use cubes::cubes_text;
pub use error::{QuestionFlaw, QuestionsError};
pub use models::{Enumerated, Models, write_models};
pub use parts::read_cubes;
pub use questions::{Replies, answer_questions};
pub use task::{Task, solve_instance, solve_text};
