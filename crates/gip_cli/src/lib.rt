//! What the programs share: what the words of a command line ask for by a table of options, help that is laid out from
//! the same table, how a program begins and ends, files that appear when they are whole, the causes of errors of the
//! system as they are told, and what lines on progress need: a clock, when they are due, and how much memory was used.
#![tactic(auto)]

pub mod about;
pub mod asked;
pub mod cause;
pub mod clock;
pub mod comments;
pub mod endings;
pub mod files;
pub mod items;
pub mod memory;
pub mod new_file;
pub mod options;
pub mod printable;
pub mod streams;

pub use about::About;
pub use asked::{Asked, input};
pub use cause::Cause;
pub use clock::{Clock, Seconds, every_interval};
pub use comments::Comments;
pub use endings::{begin, explain, refuse, tell};
pub use files::{NO_NAME, open_file};
pub use items::{Fault, Given, Info, Item, Items};
pub use memory::Peak;
pub use new_file::{Existing, FinishError, NewFile};
pub use options::{Kind, Opt};
pub use printable::Printable;
pub use streams::hold_standard_streams;
