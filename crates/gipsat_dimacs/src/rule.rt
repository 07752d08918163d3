//! What the counts of a header mean.
ghost use Rattle.std.specs.Prelude.{◌≡◌};
ghost use Rattle.gipsat_dimacs.specs.Texts.{variable_limit};

use crate::words::GREATEST_NUMBER;

/// What the counts of variables and clauses in a header mean to a reader.
#[derive(Clone, Copy, Debug, PartialEq, Eq, Hash)]
pub enum HeaderRule {
    /// They hold: no clause names a variable past the first, and there are as many clauses as the second says.
    Strict,
    /// They are hints: there may be more variables, and more or fewer clauses. There may also be no header.
    Relaxed,
}

impl HeaderRule {
    // The greatest variable that a clause may name, where the header names so many.
    pub(crate) fn variable_limit(self, variables: u32) -> u32
        ensures { result ≡ variable_limit self variables }
    {
        match self {
            HeaderRule::Strict => variables,
            HeaderRule::Relaxed => GREATEST_NUMBER,
        }
    }
}
