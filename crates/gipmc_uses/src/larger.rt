//! The larger of two numbers, as a circuit.
ghost use Rattle.std.specs.Prelude.{◌≡◌, max, IfOk, IsTrue};
ghost use Rattle.gipsat_cnf.specs.Formulas.{Assignment};
ghost use Rattle.gipmc_circuits.specs.Circuit.{is_valuation};
ghost use Rattle.gipmc_builder.specs.Build.{Keeps, number_of};

use gipmc_builder::Builder;
use gipsat_cnf::Literal;
use std::alloc::AllocError;

/// The larger of two numbers, with as many digits as the longer one has.
///
/// Shows a part of a circuit that is made of others, with no proof by hand.
///
/// # Errors
/// `AllocError` where memory is refused, or where a variable would be 2^31 or more.
pub fn larger(
    build: &mut Builder,
    left: &[Literal],
    right: &[Literal],
) -> Result<Vec<Literal>, AllocError>
    ensures keeps { Keeps build.old.circuit build.new.circuit }
    ensures gives { IfOk result (λ larger. (a : Assignment) → IsTrue (is_valuation build.new.circuit a)
        → number_of a larger.items ≡ max (number_of a left.now) (number_of a right.now)) }
{
    let is_less = build.less(left, right)?;
    build.choose(is_less, right, left)
}
