//! The examples of formulas and of the kernel.
ghost use Rattle.std.specs.Prelude.{◌∷◌, [], OnOk};
ghost use Rattle.gipsat_cnf.specs.Encodings.{Adds, ExactlyOneTrue};

use gipsat_cnf::enumerate::find_model;
use gipsat_cnf::{ClauseSink, Cnf, Literal};
use gipsat_kernel::Kernel;
use std::alloc::{AllocError, Global};

/// Adds two clauses: exactly one of the literals is true. A list of clauses takes them, or anything else that does.
pub fn add_either<S: ClauseSink>(sink: &mut S, l: Literal, m: Literal) -> Result<(), AllocError>
    ensures { OnOk result (Adds (ExactlyOneTrue (l ∷ m ∷ [])) (S.formula sink.old) (S.formula sink.new)) }
{
    sink.add_clause(&[l, m])?;
    sink.add_clause(&[l.negated(), m.negated()])
}

/// Values of a and b of which exactly one is true, and which make a literal true. None if there are none.
pub fn either_with(alloc: Global, assumed: Literal) -> Result<Option<Vec<bool>>, AllocError> {
    let mut formula = Cnf::new(alloc);
    add_either(&mut formula, Literal::new(0, true), Literal::new(1, true))?;
    find_model(alloc, &formula, &[assumed])
}

/// Derives b from `a or b` and `not a or b`: resolves the second clause with the first one on a. Whether it could.
pub fn derive_b(kernel: &mut Kernel) -> Result<bool, AllocError> {
    let (a, b) = (Literal::new(0, true), Literal::new(1, true));
    let first = kernel.add_clause(&[a, b])?;
    let second = kernel.add_clause(&[a.negated(), b])?;
    kernel.begin(second)?;
    kernel.resolve(a, first)?;
    match kernel.conclude()? {
        Some(id) => Ok(kernel.proves(id, &[b])),
        None => Ok(false),
    }
}
