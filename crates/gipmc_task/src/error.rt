//! Why a task is not done.
use crate::kind::PropertyKind;
use gipmc_aiger::AigerError;
use std::alloc::AllocError;
use thiserror::Error;

/// Why a task is not done. What is displayed is the cause; the variant says which of the texts it is about.
#[derive(Clone, Copy, Debug, PartialEq, Eq, Drop, Error)]
pub enum TaskError {
    /// The circuit's text has another form, or its rows are no circuit.
    #[error("{0}")]
    Circuit(AigerError),
    /// The witness' text has another form.
    #[error("{0}")]
    Witness(AigerError),
    /// The certificate's text has another form, or its rows are no circuit.
    #[error("{0}")]
    Certificate(AigerError),
    /// The certificate is a circuit that cannot go along with the other one: a reset depends on itself, or a name is that
    /// of no literal, or of what another name is of.
    #[error("a reset that depends on itself, or a name `= n` that does not fit")]
    NoSimulation,
    /// The circuit has no property of this kind at this place; it has so many.
    #[error("no {0} {1}, of {2}")]
    NoProperty(PropertyKind, usize, usize),
    /// The circuit has no property of this kind at all.
    #[error("no {0}")]
    NoProperties(PropertyKind),
    /// A witness names the property of this kind at this place; the circuit has so many.
    #[error("it names {0} {1}, and the circuit has {2}")]
    OtherProperty(PropertyKind, usize, usize),
    /// The text has no witness of the property of this kind at this place, which is asked for.
    #[error("no witness of {0} {1}")]
    NoWitnessOf(PropertyKind, usize),
    /// The text has no witness of what is asked for.
    #[error("no witness")]
    NoWitness,
    /// The certificate has a k or is a circuit, where clauses alone are asked for.
    #[error("a certificate that has a k or is a circuit")]
    NotClauses,
    /// The clauses that were found do not certify the circuit.
    #[error("what was found does not certify the circuit")]
    Uncertified,
    /// Memory was refused.
    #[error("memory: refused")]
    Memory,
}

impl TaskError {
    // Why there is no property of this kind at the place that is asked for, or none at all, of so many.
    pub(crate) fn lacking(kind: PropertyKind, asked: Option<usize>, count: usize) -> Self {
        match asked {
            Some(place) if count > 0 => TaskError::NoProperty(kind, place, count),
            _ => TaskError::NoProperties(kind),
        }
    }

    /// Why no circuit was read.
    pub fn of_circuit(error: AigerError) -> Self {
        match error {
            AigerError::Memory => TaskError::Memory,
            _ => TaskError::Circuit(error),
        }
    }

    /// Why no witness was read.
    pub fn of_witness(error: AigerError) -> Self {
        match error {
            AigerError::Memory => TaskError::Memory,
            _ => TaskError::Witness(error),
        }
    }

    /// Why no certificate was read.
    pub fn of_certificate(error: AigerError) -> Self {
        match error {
            AigerError::Memory => TaskError::Memory,
            _ => TaskError::Certificate(error),
        }
    }
}

impl From<AllocError> for TaskError {
    fn from(_refused: AllocError) -> TaskError {
        TaskError::Memory
    }
}
