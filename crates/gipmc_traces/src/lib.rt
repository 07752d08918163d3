//! Traces with names: the symbols of a circuit's text, tables of what changes, and waves for a viewer.
#![tactic(auto)]

mod names;
mod rows;
mod signals;
mod table;
mod waves;

pub use names::Names;
pub use rows::latch_rows;
pub use signals::Scene;
pub use table::{known_text, table_text};
pub use waves::vcd_text;
