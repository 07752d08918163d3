//! Certificates that are a number: a bad literal is shown to be k-inductive.
ghost use Rattle.std.specs.Prelude.{◌≡◌, ◌∷◌, [], IfNone, IfOk, IfSome, ◌⊎◌};
ghost use Rattle.gipmc_circuits.specs.declared.certificate.Verdict.TheVariants.{Certified};
ghost use Rattle.gipmc_reduce.specs.Cone.{IsPartOf};
ghost use Rattle.gipmc_task.specs.Certificates.{BeginsWithK, k_in, k_of};
ghost use Rattle.gipmc_engines.specs.Verdicts.{IsSafeByInduction};

use gipmc_circuits::Netlist;
use gipmc_circuits::certificate::Verdict as ClauseVerdict;
use gipmc_reduce::Cone;
use gipmc_unroll::{Verdict, certify_by_induction};
use gipsat_cnf::{Literal, SatSolver};
use giputils_text::{number, split_line, split_once};
use std::alloc::{AllocError, Global};
use std::fmt::{self, Display};

/// Why a bad literal is not known to be k-inductive.
#[derive(Clone, Copy, Debug, PartialEq, Eq)]
pub struct InductionDoubt {
    /// The number k.
    pub k: usize,
    /// What was found out about it.
    pub verdict: Verdict,
}

/// A part of a line that says why.
impl Display for InductionDoubt {
    fn fmt<W: fmt::Write>(&self, f: &mut fmt::Formatter<W>) -> fmt::Result {
        let k = self.k;
        match self.verdict {
            Verdict::NotBase(n) => {
                let s = plural(n);
                write!(
                    f,
                    "not {k}-inductive: a trace of {n} transition{s} ends where it is true"
                )
            }
            Verdict::NotInductive => {
                let s = plural(k);
                write!(
                    f,
                    "not {k}-inductive: a path of {k} transition{s} ends where it is true for the first time"
                )
            }
            Verdict::Certified => write!(f, "{k}-inductive"),
            Verdict::Unknown => write!(f, "whether it is {k}-inductive was left open at the limit"),
        }
    }
}

// The end of a word for so many things.
fn plural(count: usize) -> &'static str {
    if count == 1 { "" } else { "s" }
}

// Why a bad literal is not known to be safe: it is not certified by clauses, on which this is the verdict, and it is not
// known to be k-inductive. None if it is one of both.
pub(crate) fn unless_certified<S: SatSolver + Drop>(
    alloc: Global,
    whole: &Netlist,
    bad: Literal,
    verdict: ClauseVerdict,
    k: usize,
    limit: usize,
) -> Result<Option<InductionDoubt>, AllocError>
    ensures { IfOk result (λ doubt. IfNone doubt
        ((verdict ≡ Certified) ⊎ IsSafeByInduction whole.now.circuit k bad)) }
{
    match verdict {
        ClauseVerdict::Certified => Ok(None),
        _ => induction_doubt::<S>(alloc, whole, bad, k, limit),
    }
}

// Why a bad literal is not known to be k-inductive. None if it is. The questions are about the part of the circuit that
// it depends on, or about the circuit itself where the literal is of no variable of it.
fn induction_doubt<S: SatSolver + Drop>(
    alloc: Global,
    whole: &Netlist,
    bad: Literal,
    k: usize,
    limit: usize,
) -> Result<Option<InductionDoubt>, AllocError>
    ensures { IfOk result (λ doubt. IfNone doubt (IsSafeByInduction whole.now.circuit k bad)) }
{
    match Cone::new(alloc, whole, &[bad])? {
        Some(part) => doubt_by_part::<S>(alloc, whole, &part, bad, k, limit),
        None => doubt_on::<S>(alloc, whole, bad, k, limit),
    }
}

// The same, by a part of the circuit.
fn doubt_by_part<S: SatSolver + Drop>(
    alloc: Global,
    whole: &Netlist,
    part: &Cone,
    bad: Literal,
    k: usize,
    limit: usize,
) -> Result<Option<InductionDoubt>, AllocError>
    requires { IsPartOf part.now.names.names.items part.now.netlist.circuit whole.now.circuit }
    ensures { IfOk result (λ doubt. IfNone doubt (IsSafeByInduction whole.now.circuit k bad)) }
{
    let Some(own) = part.names.literal(bad) else {
        return doubt_on::<S>(alloc, whole, bad, k, limit);
    };
    doubt_on::<S>(alloc, &part.netlist, own, k, limit)
}

// The same, of a circuit itself.
fn doubt_on<S: SatSolver + Drop>(
    alloc: Global,
    netlist: &Netlist,
    bad: Literal,
    k: usize,
    limit: usize,
) -> Result<Option<InductionDoubt>, AllocError>
    ensures { IfOk result (λ doubt. IfNone doubt (IsSafeByInduction netlist.now.circuit k bad)) }
{
    match certify_by_induction::<S>(alloc, netlist, bad, k, limit)? {
        Verdict::Certified => Ok(None),
        verdict => Ok(Some(InductionDoubt { k, verdict })),
    }
}

// The k of a text whose first line is `k N`, and what comes behind this line.
pub(crate) fn behind_k(text: &[u8]) -> Option<(u32, &[u8])>
    ensures { IfSome result (λ split. BeginsWithK text.now split.0 split.1.now) }
{
    let (line, rest) = split_line(text)?;
    let k = k_in(line)?;
    Some((k, rest))
}

// The k that a line `k N` names.
fn k_in(line: &[u8]) -> Option<u32>
    ensures { result ≡ k_in line.now }
{
    let (word, rest) = split_once(line, b' ');
    let (digits, more) = split_once(rest?, b' ');
    match more {
        None => k_with(word, digits),
        Some(_) => None,
    }
}

// The k of a line with these words.
fn k_with(word: &[u8], digits: &[u8]) -> Option<u32>
    ensures { result ≡ k_of (word.now ∷ digits.now ∷ []) }
{
    if word != b"k".as_slice() {
        return None;
    }
    number(digits, GREATEST_K)
}

// The greatest k of a text.
const GREATEST_K: u32 = 2_147_483_647;
