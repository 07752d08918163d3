//! The examples of the pages of formulas, of the kernel and of the search.

pub mod encoded;
pub mod searched;
