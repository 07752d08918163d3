//! Justice properties and fairness constraints.
ghost use Rattle.std.specs.Prelude.{map};
ghost use Rattle.gipmc_aiger.specs.Reading.{Gives};
ghost use Rattle.gipmc_aiger.specs.Circuits.{behind_liveness, justice_literals_at, liveness_at};
ghost use Rattle.gipmc_aiger.specs.LiveCircuits.{justice_view};

use crate::error::Stop;
use crate::header::{Header, Justice};
use crate::rows::rows;
use gipsat_cnf::Literal;
use std::alloc::Global;

/// The justice properties and the fairness constraints of a circuit. A run breaks a property if each of its literals
/// and each of the constraints is true again and again.
pub struct Liveness {
    /// The literals of each justice property.
    pub justice: Vec<Vec<Literal>>,
    /// The fairness constraints.
    pub fairness: Vec<Literal>,
}

// One call in its owners' proofs, in place of one for each field.
impl Drop for Liveness {
    fn drop(self) {
        let Liveness { justice, fairness } = self;
    }
}

// The justice properties and the fairness constraints, and the bytes behind them.
#[tactic(auto, unfolding(crate::specs::Circuits::liveness_at))]
pub(crate) fn properties<'a>(
    alloc: Global,
    header: &Header,
    bytes: &'a [u8],
) -> Result<(Liveness, &'a [u8]), Stop>
    ensures { Gives (λ x. (justice_view x.0, x.0.fairness.items, x.1.now)) result
        (liveness_at header.now bytes.now) }
{
    let (counts, rest) = rows::<Justice>(alloc, header, header.justice, bytes)?;
    let (justice, rest) = justice_literals(alloc, header, &counts, rest)?;
    let (fairness, rest) = rows(alloc, header, header.fairness, rest)?;
    Ok((Liveness { justice, fairness }, rest))
}

// The literals of justice properties, and the bytes behind them.
fn justice_literals<'a>(
    alloc: Global,
    header: &Header,
    properties: &[Justice],
    bytes: &'a [u8],
) -> Result<(Vec<Vec<Literal>>, &'a [u8]), Stop>
    ensures { Gives (λ x. (map (λ property. property.items) x.0.items, x.1.now)) result
        (justice_literals_at header.now properties.now bytes.now) }
{
    let mut justice = Vec::new(alloc);
    let mut rest = bytes;
    for property in properties {
        let (literals, after) = rows(alloc, header, property.literals, rest)?;
        justice.push(literals)?;
        rest = after;
    }
    Ok((justice, rest))
}

// What stands behind the justice properties and the fairness constraints.
pub(crate) fn behind_liveness<'a>(
    alloc: Global,
    header: &Header,
    bytes: &'a [u8],
) -> Result<&'a [u8], Stop>
    ensures { Gives (λ rest. rest.now) result (behind_liveness header.now bytes.now) }
{
    let (_, rest) = properties(alloc, header, bytes)?;
    Ok(rest)
}
