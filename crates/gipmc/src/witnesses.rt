//! Files of witnesses, each of which is there when its answer was told.
use crate::errors::Failure;
use gip_cli::{Existing, FinishError, NewFile};
use std::io::{self, ErrorKind, Write};

/// The files of the witnesses of a run, whose names begin alike, and why one was not written.
#[derive(Clone, Copy)]
pub struct Witnesses<'a> {
    // What their names begin with, if they are wanted.
    prefix: Option<&'a str>,
    // Why the first one was not written that was not.
    failure: Option<Failure<'a>>,
}

impl<'a> Witnesses<'a> {
    /// Before the first one. The names begin so, if files are wanted.
    pub fn new(prefix: Option<&'a str>) -> Self {
        Witnesses {
            prefix,
            failure: None,
        }
    }

    /// Writes the witness of the property of this letter and place to a file of its own, if that is wanted.
    pub fn keep(&mut self, rt: &HostRuntime, letter: char, place: usize, text: &[u8]) {
        let Some(prefix) = self.prefix else {
            return;
        };
        if let Err(failure) = write_witness(rt, prefix, letter, place, text) {
            self.failure = Some(self.failure.unwrap_or(failure));
        }
    }

    /// Whether all were written that are wanted.
    ///
    /// # Errors
    /// Why the first one was not that was not.
    pub fn kept(&self) -> Result<(), Failure<'a>> {
        match self.failure {
            None => Ok(()),
            Some(failure) => Err(failure),
        }
    }
}

// Writes a witness to its file.
fn write_witness<'a>(
    rt: &HostRuntime,
    prefix: &'a str,
    letter: char,
    place: usize,
    text: &[u8],
) -> Result<(), Failure<'a>> {
    let name = format!(in rt.alloc(); "{prefix}{letter}{place}.aiw")?;
    match new_text(rt, name.as_str(), text) {
        Ok(()) => Ok(()),
        Err(error) => Err(Failure::Witness(prefix, letter, place, error)),
    }
}

// Writes a text to a file of this name, which is not there yet.
fn new_text(rt: &HostRuntime, name: &str, text: &[u8]) -> io::Result<()> {
    let mut file = NewFile::begin(rt, name, Existing::Refuse)?;
    file.write_all(text)?;
    match file.finish() {
        Ok(()) => Ok(()),
        Err(FinishError::Unmade(_, error)) => Err(error),
        Err(FinishError::Refused(_, _, error)) => Err(error),
        Err(FinishError::Taken(_, _)) => Err(io::Error::from(ErrorKind::AlreadyExists)),
    }
}
