//! Certificates of a circuit, joined to one of all bad literals.
ghost use Rattle.std.specs.Prelude.{IfOk};
ghost use Rattle.gipmc_task.specs.Joins.{IsJoined};

use crate::certificates::{Doubt, DoubtReason, doubt_of, is_clauses_alone};
use crate::error::TaskError;
use gipmc_aiger::{Problem, Subject, read_invariant, write_invariant};
use gipmc_circuits::certificate::Verdict;
use gipsat_cnf::{Literal, SatSolver};
use std::alloc::Global;

/// The clauses of some certificates of a circuit.
#[derive(Drop)]
pub struct CertificateParts {
    // The clauses of all, over the places of latches.
    clauses: Vec<Vec<Literal>>,
    // How many clauses each part and those before it have.
    ends: Vec<usize>,
}

/// What comes of some certificates of a circuit.
#[derive(Drop)]
pub enum JoinedCertificate {
    /// The text of one that all bad literals hold.
    Certificate(Vec<u8>),
    /// It is not known that their clauses show that. If one of these is doubted, it is the one of this part, counted from 0,
    /// at the place that the doubt names.
    Doubted(Option<usize>, Doubt),
}

impl CertificateParts {
    /// Before the first part.
    pub fn new(alloc: Global) -> Self {
        CertificateParts {
            clauses: Vec::new(alloc),
            ends: Vec::new(alloc),
        }
    }

    /// Adds the clauses of the certificate that a text writes for the circuit of a problem.
    ///
    /// # Errors
    /// - [`TaskError::NotClauses`] where the text begins with a k, or as a circuit does.
    /// - [`TaskError::Certificate`] where it has another form than clauses over the latches of the circuit.
    /// - [`TaskError::Memory`] where memory is refused.
    ///
    /// The parts are then those that were added before; where memory is refused, clauses of this one may be among theirs.
    pub fn add(&mut self, alloc: Global, problem: &Problem, text: &[u8]) -> Result<(), TaskError> {
        if !is_clauses_alone(text) {
            return Err(TaskError::NotClauses);
        }
        match read_invariant(alloc, problem.netlist.circuit.latches.len(), text) {
            Ok(mut clauses) => {
                self.ends.reserve(1)?;
                self.clauses.append(&mut clauses)?;
                self.ends.push_reserved(self.clauses.len());
                Ok(())
            }
            Err(error) => Err(TaskError::of_certificate(error)),
        }
    }

    /// The certificate of all parts, where their clauses show that all bad literals of a problem hold. Each question to the
    /// solver may learn `limit` clauses.
    ///
    /// # Errors
    /// Those of [`doubt_of`].
    pub fn join<S: SatSolver + Drop>(
        &self,
        alloc: Global,
        problem: &Problem,
        limit: usize,
    ) -> Result<JoinedCertificate, TaskError>
        ensures { IfOk result (IsJoined problem.now) }
    {
        let latches = problem.netlist.circuit.latches.len();
        let text = write_invariant(alloc, latches, &self.clauses)?;
        if let Some(doubt) = doubt_of::<S>(alloc, problem, &text, Subject::All, limit)? {
            let (part, doubt) = self.doubted(doubt);
            return Ok(JoinedCertificate::Doubted(part, doubt));
        }
        Ok(JoinedCertificate::Certificate(text))
    }

    // The part that a doubt on the clauses of all parts is about, if it is about one, and the doubt with the clause's place
    // there.
    fn doubted(&self, doubt: Doubt) -> (Option<usize>, Doubt) {
        let DoubtReason::Clauses(verdict) = doubt.reason else {
            return (None, doubt);
        };
        let Some((part, verdict)) = self.blamed(verdict) else {
            return (None, doubt);
        };
        let reason = DoubtReason::Clauses(verdict);
        (Some(part), Doubt { reason, ..doubt })
    }

    // The part that a verdict on all clauses is about, and the verdict with the clause's place there. None where it is about no
    // clause.
    fn blamed(&self, verdict: Verdict) -> Option<(usize, Verdict)> {
        match verdict {
            Verdict::NotInitial(place) => {
                let (part, place) = self.part_at(place)?;
                Some((part, Verdict::NotInitial(place)))
            }
            Verdict::NotInductive(place) => {
                let (part, place) = self.part_at(place)?;
                Some((part, Verdict::NotInductive(place)))
            }
            Verdict::Certified | Verdict::NotSafe | Verdict::Unknown => None,
        }
    }

    // The part of the clause at a place among all, and its place there.
    fn part_at(&self, place: usize) -> Option<(usize, usize)> {
        let mut begin: usize = 0;
        for (part, &end) in self.ends.iter().enumerate() {
            if place < end {
                return Some((part, place.saturating_sub(begin)));
            }
            begin = end;
        }
        None
    }
}
