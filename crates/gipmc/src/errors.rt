//! Why nothing is answered, as it is told.
use gip_cli::{Cause, FinishError};
use gipmc_aiger::{AigerError, Place, Reason};
use gipmc_task::{PropertyKind, TaskError};
use std::alloc::AllocError;
use std::fmt::{self, Display};
use std::io;

/// Why there is no answer. A name is that of a file; that of standard input or output is `None`.
#[derive(Clone, Copy)]
pub enum Failure<'a> {
    /// The file of this name could not be opened.
    Open(&'a str, io::Error),
    /// A read of this input failed.
    Read(Option<&'a str>, io::Error),
    /// What this input has is compressed, and this program decompresses it.
    Compressed(Option<&'a str>, &'static str),
    /// A write to standard output failed.
    Write(io::Error),
    /// The file of this name could not be made, or is there already.
    Create(&'a str, io::Error),
    /// A write to the file of this name failed.
    WriteFile(&'a str, io::Error),
    /// The witness of the property of this letter and place was not written to the file whose name begins so.
    Witness(&'a str, char, usize, io::Error),
    /// Two files that are wanted would have this name.
    OneName(&'a str),
    /// A file was written, and did not get its name.
    Finish(FinishError<'a>),
    /// No certificate was written to this file.
    NoCertificate(Option<&'a str>, TaskError),
    /// The task on the text in this input was not done.
    Task(Option<&'a str>, TaskError),
    /// The task on the text in this input was not done, for what it has in this line, counted from 1.
    TaskAt(Option<&'a str>, usize, TaskError),
    /// No certificate is written to this file, since that of a justice property is no circuit.
    NoCircuit(&'a str),
    /// No certificate is written to this file, since a k, which induction finds, has no circuit.
    NoCircuitOfK(&'a str),
    /// No certificate was written to this file, since it would be one of several properties.
    SeveralProperties(Option<&'a str>),
    /// This file is a certificate that is not clauses alone.
    NotClauses(&'a str),
    /// Memory was refused.
    Memory,
}

impl<'a> Failure<'a> {
    /// That of a task on the circuit in one input, and on an answer in another.
    pub fn of_task(circuit: Option<&'a str>, beside: Option<&'a str>, error: TaskError) -> Self {
        match error {
            TaskError::Circuit(_) | TaskError::NoProperty(_, _, _) | TaskError::NoProperties(_) => {
                Failure::Task(circuit, error)
            }
            _ => Failure::Task(beside, error),
        }
    }
}

impl Display for Failure<'_> {
    fn fmt<W: fmt::Write>(&self, f: &mut fmt::Formatter<W>) -> fmt::Result {
        match *self {
            Failure::Open(name, error) => write!(f, "{name}: {}", Cause(Some(error))),
            Failure::Read(name, error) => write!(
                f,
                "{}: cannot be read: {}",
                name.unwrap_or("<stdin>"),
                Cause(Some(error))
            ),
            Failure::Compressed(name, tool) => {
                let name = name.unwrap_or("<stdin>");
                write!(f, "{name}:1: {tool} data (try: {tool} -dc FILE)")
            }
            Failure::Write(error) => write!(
                f,
                "<stdout>: cannot be written: {}",
                Cause(Some(error))
            ),
            Failure::Create(name, error) => {
                write!(f, "{name}: cannot be made: {}", Cause(Some(error)))
            }
            Failure::WriteFile(name, error) => {
                write!(f, "{name}: cannot be written: {}", Cause(Some(error)))
            }
            Failure::Witness(prefix, letter, place, error) => write!(
                f,
                "{prefix}{letter}{place}.aiw: cannot be written: {}",
                Cause(Some(error))
            ),
            Failure::OneName(name) => write!(f, "{name}: two files would have this name"),
            Failure::Finish(error) => Display::fmt(&error, f),
            Failure::NoCertificate(name, TaskError::Memory) => write!(
                f,
                "{}: cannot be written: memory refused",
                name.unwrap_or("<stdout>")
            ),
            Failure::NoCertificate(name, TaskError::NoProperties(kind)) => write!(
                f,
                "{}: not written, since the circuit has no {kind}",
                name.unwrap_or("<stdout>")
            ),
            Failure::NoCertificate(name, _) => write!(
                f,
                "{}: not written, since what was found does not certify the circuit",
                name.unwrap_or("<stdout>")
            ),
            Failure::Task(_, TaskError::Memory) => f.write_str("memory: refused"),
            Failure::Task(name, TaskError::NoWitnessOf(kind, place)) => write!(
                f,
                "{}: no witness of {kind} {place}, which '{}' asks for",
                name.unwrap_or("<stdin>"),
                option_of(kind)
            ),
            Failure::Task(name, error) => {
                let name = name.unwrap_or("<stdin>");
                match refusal(error) {
                    Some((line, reason)) => write!(f, "{name}:{line}: {reason}"),
                    None => write!(f, "{name}: {error}"),
                }
            }
            Failure::TaskAt(name, line, error) => {
                write!(f, "{}:{line}: {error}", name.unwrap_or("<stdin>"))
            }
            Failure::NoCircuit(name) => write!(
                f,
                "{name}: not written, since the certificate of a justice property is clauses, without '--aiger'"
            ),
            Failure::NoCircuitOfK(name) => write!(
                f,
                "{name}: not written, since '--engine induction' finds a k, and a k has no circuit"
            ),
            Failure::SeveralProperties(name) => write!(
                f,
                "{}: not written, since '--justice' asks for the property that it is to be of",
                name.unwrap_or("<stdout>")
            ),
            Failure::NotClauses(name) => write!(
                f,
                "{name}: no part, since it has a k or is a circuit ('--engine ic3' finds clauses alone)"
            ),
            Failure::Memory => f.write_str("memory: refused"),
        }
    }
}

// The option that asks for one property of a kind.
fn option_of(kind: PropertyKind) -> &'static str {
    match kind {
        PropertyKind::Bad => "--bad",
        PropertyKind::Justice => "--justice",
    }
}

// The line where a text is refused, and why, if that is the error.
fn refusal(error: TaskError) -> Option<(usize, Reason)> {
    match error {
        TaskError::Circuit(error) => line_of(error),
        TaskError::Witness(error) => line_of(error),
        TaskError::Certificate(error) => line_of(error),
        _ => None,
    }
}

fn line_of(error: AigerError) -> Option<(usize, Reason)> {
    match error {
        AigerError::Refused(Place::Line(line), reason) => Some((line, reason)),
        _ => None,
    }
}

impl From<AllocError> for Failure<'_> {
    fn from(_refused: AllocError) -> Self {
        Failure::Memory
    }
}
