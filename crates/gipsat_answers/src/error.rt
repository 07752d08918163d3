//! Why a text with questions is not answered to its end.
use gipsat_dimacs::DimacsError;
use std::alloc::AllocError;
use std::error::Error;
use std::fmt;

/// What a question lacks of its form.
#[derive(Clone, Copy, Debug, PartialEq, Eq, Hash)]
pub enum QuestionFlaw {
    /// The 0 at its end.
    NoEnd,
    /// The end of its line behind the 0.
    NoLineEnd,
}

impl QuestionFlaw {
    /// What is told of it.
    pub fn text(self) -> &'static str {
        match self {
            QuestionFlaw::NoEnd => "a question without its 0",
            QuestionFlaw::NoLineEnd => "a word behind the 0 of a question",
        }
    }
}

/// Why a text with questions is not answered to its end.
#[derive(Clone, Copy, Debug, PartialEq, Eq, Hash)]
pub enum QuestionsError {
    /// As with a formula alone.
    Dimacs(DimacsError),
    /// At the line with this number, counted from 1, a question has another form: where it begins, if it has no end.
    Question(usize, QuestionFlaw),
}

impl fmt::Display for QuestionsError {
    fn fmt<W: fmt::Write>(&self, f: &mut fmt::Formatter<W>) -> fmt::Result {
        match self {
            QuestionsError::Dimacs(error) => fmt::Display::fmt(error, f),
            QuestionsError::Question(line, flaw) => write!(f, "line {line}: {}", flaw.text()),
        }
    }
}

impl Error for QuestionsError {}

impl From<DimacsError> for QuestionsError {
    fn from(error: DimacsError) -> QuestionsError {
        QuestionsError::Dimacs(error)
    }
}

impl From<AllocError> for QuestionsError {
    fn from(_refused: AllocError) -> QuestionsError {
        QuestionsError::Dimacs(DimacsError::Memory)
    }
}
