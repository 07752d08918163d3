//! A text from a reader to a formula.
ghost use Rattle.std.specs.Prelude.{◌≡◌, [], ℕ, vec_len, IfOk, OnOk, IsErrOf};
ghost use Rattle.std.specs.Io.KnownBytes.{IsAtEnd};
ghost use Rattle.gipsat_dimacs.specs.Inputs.{Writes, WritesNone, IsRefusedAt};
ghost use Rattle.gipsat_dimacs.specs.declared.rule.HeaderRule.TheVariants.{Strict};

use crate::error::{DimacsError, Reason};
use crate::instance::Instance;
use crate::lines::LineParser;
use crate::rule::HeaderRule;
use gipsat_cnf::{ClauseSink, Cnf};
use std::alloc::{AllocError, Global};
use std::io::Read;

// How many bytes are asked for at a time.
const BUFFER_SIZE: usize = 65_536;

/// Reads a text to its end: the formula that it writes. The counts of its header hold.
///
/// # Errors
/// As [`read_into`].
pub fn read_instance<R: Read>(alloc: Global, reader: &mut R) -> Result<Instance<Cnf>, DimacsError>
    ensures end { OnOk result (IsAtEnd (R.remaining reader.new)) }
    ensures ok { IfOk result (λ f. Writes Strict (R.remaining reader.old)
        (record { variables = f.variables; clauses = f.clauses })) }
    ensures line { (line : ℕ) (reason : Reason) → IsErrOf result (DimacsError.Line line reason) →
        WritesNone Strict (R.remaining reader.old) }
    ensures in_line { (line : ℕ) (reason : Reason) → IsErrOf result (DimacsError.Line line reason) →
        IsRefusedAt Strict (R.remaining reader.old) line }
{
    read_instance_by(alloc, reader, HeaderRule::Strict)
}

/// Reads a text to its end: the formula that it writes by a rule for its header.
///
/// # Errors
/// As [`read_into`].
pub fn read_instance_by<R: Read>(
    alloc: Global,
    reader: &mut R,
    rule: HeaderRule,
) -> Result<Instance<Cnf>, DimacsError>
    ensures end { OnOk result (IsAtEnd (R.remaining reader.new)) }
    ensures ok { IfOk result (λ f. Writes rule (R.remaining reader.old)
        (record { variables = f.variables; clauses = f.clauses })) }
    ensures line { (line : ℕ) (reason : Reason) → IsErrOf result (DimacsError.Line line reason) →
        WritesNone rule (R.remaining reader.old) }
    ensures in_line { (line : ℕ) (reason : Reason) → IsErrOf result (DimacsError.Line line reason) →
        IsRefusedAt rule (R.remaining reader.old) line }
{
    read_into(alloc, reader, rule, Cnf::new(alloc))
}

/// Reads a text to its end, and gives each clause, when it ends, to what has none so far, as a list or a solver.
///
/// # Errors
/// - [`DimacsError::Input`] where a read fails.
/// - [`DimacsError::Line`] with the number of the line at which the text has another form, and why.
/// - [`DimacsError::Memory`] where memory is refused, or a clause is.
///
/// How much was read then is open. What was given clauses is dropped.
pub fn read_into<R: Read, S: ClauseSink + Drop>(
    alloc: Global,
    reader: &mut R,
    rule: HeaderRule,
    sink: S,
) -> Result<Instance<S>, DimacsError>
    requires empty { S.formula sink ≡ [] }
    ensures end { OnOk result (IsAtEnd (R.remaining reader.new)) }
    ensures ok { IfOk result (λ f. Writes rule (R.remaining reader.old)
        (record { variables = f.variables; clauses = S.formula f.clauses })) }
    ensures line { (line : ℕ) (reason : Reason) → IsErrOf result (DimacsError.Line line reason) →
        WritesNone rule (R.remaining reader.old) }
    ensures in_line { (line : ℕ) (reason : Reason) → IsErrOf result (DimacsError.Line line reason) →
        IsRefusedAt rule (R.remaining reader.old) line }
{
    let mut buf = zeros(alloc, BUFFER_SIZE)?;
    let mut parser = LineParser::new(alloc, rule, sink);
    for _ in 0..u64::MAX {
        let Ok(n) = reader.read(&mut buf) else {
            return Err(DimacsError::Input);
        };
        if n == 0 {
            return parser.finish();
        }
        parser.feed(&buf[..n])?;
    }
    Err(DimacsError::Input)
}

// So many zeros.
fn zeros(alloc: Global, len: usize) -> Result<Vec<u8>, AllocError>
    ensures { IfOk result (λ zeros. vec_len zeros ≡ len) }
{
    vec![in alloc; 0u8; len]
}
