//! Justice properties: what is found out about them, and what certificates of other programs show of them.
pub mod answers;
pub(crate) mod certificates;

pub use answers::answer;
