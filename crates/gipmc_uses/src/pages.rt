//! The examples of the pages of circuits, of what reduces them, of the engines and of their answers.

pub mod arbiters;
pub mod client;
pub mod cone;
pub mod justice;
pub mod least;
pub mod merged;
pub mod said;
pub mod slices;
pub mod traces;
pub mod verdict;
