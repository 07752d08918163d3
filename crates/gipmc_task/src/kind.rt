//! The kinds of properties, and the names of properties.
ghost use Rattle.std.specs.Prelude.{◌≡◌, OnOk};
ghost use Rattle.gipmc_task.specs.Kinds.{IsAmong, count_of};

use crate::error::TaskError;
use gipmc_aiger::{Problem, Property};
use std::fmt::{self, Display};

/// A kind of properties.
#[derive(Clone, Copy, Debug, PartialEq, Eq)]
pub enum PropertyKind {
    /// Bad literals.
    Bad,
    /// Justice properties.
    Justice,
}

impl PropertyKind {
    /// How many properties of this kind a problem has.
    pub(crate) fn count(self, problem: &Problem) -> usize
        ensures { result ≡ count_of problem.now self }
    {
        match self {
            PropertyKind::Bad => problem.netlist.circuit.bads.len(),
            PropertyKind::Justice => problem.liveness.justice.len(),
        }
    }

    /// Tests that a problem has the property of this kind that is asked for, or one at all.
    pub(crate) fn has(self, problem: &Problem, asked: Option<usize>) -> Result<(), TaskError>
        ensures { OnOk result (IsAmong (count_of problem.now self) asked) }
    {
        let count = self.count(problem);
        match asked {
            None if count > 0 => Ok(()),
            Some(place) if place < count => Ok(()),
            _ => Err(TaskError::lacking(self, asked, count)),
        }
    }

    /// The property of this kind at a place.
    pub(crate) fn at(self, place: usize) -> Property {
        match self {
            PropertyKind::Bad => Property::Bad(place),
            PropertyKind::Justice => Property::Justice(place),
        }
    }
}

/// What one property of this kind is.
impl Display for PropertyKind {
    fn fmt<W: fmt::Write>(&self, f: &mut fmt::Formatter<W>) -> fmt::Result {
        f.write_str(match self {
            PropertyKind::Bad => "bad literal",
            PropertyKind::Justice => "justice property",
        })
    }
}

/// The name of a property in texts: `b` or `j`, and its place.
#[derive(Clone, Copy, Debug)]
pub struct PropertyName(pub Property);

impl Display for PropertyName {
    fn fmt<W: fmt::Write>(&self, f: &mut fmt::Formatter<W>) -> fmt::Result {
        match self.0 {
            Property::Bad(place) => write!(f, "b{place}"),
            Property::Justice(place) => write!(f, "j{place}"),
        }
    }
}
