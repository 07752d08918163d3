//! The file that a proof is written to. A formula is not written over, but where that is forced.
ghost use Rattle.std.specs.Prelude.{◌≡◌, false, IsErr, IsTrue};
ghost use Rattle.std.specs.Io.KnownBytes.{IsAtEnd};
ghost use Rattle.gipsat_command.specs.Options.{reads, request_of};

use crate::options::Options;
use gip_cli::{Cause, Existing, FinishError, NewFile};
use gipsat_dimacs::HeaderRule;
use std::fmt::{self, Display};
use std::fs::{self, File};
use std::io::{self, Read};

// How many bytes of a file are looked at. Where they are all comments it counts as a formula.
const FRONT: u64 = 65_536;

/// Why a proof was not written. Each case has the name of its file.
#[derive(Clone, Copy)]
pub enum ProofError<'a> {
    /// The file begins as a formula does, or is the one that was read.
    IsFormula(&'a str),
    /// The file is the proof that is read.
    IsProof(&'a str),
    /// The file is not empty, and may be the formula: no file of one was named, or it may have no header.
    Exists(&'a str),
    /// The file could not be opened.
    Open(&'a str, io::Error),
    /// The file could not be written.
    Write(&'a str, io::Error),
    /// The file was written, and did not get its name.
    Finish(FinishError<'a>),
}

impl Display for ProofError<'_> {
    fn fmt<W: fmt::Write>(&self, f: &mut fmt::Formatter<W>) -> fmt::Result {
        match *self {
            ProofError::IsFormula(path) => {
                write!(
                    f,
                    "{path}: begins as a formula does (--force writes over it)"
                )
            }
            ProofError::IsProof(path) => {
                write!(
                    f,
                    "{path}: is the proof that is read (--force writes over it)"
                )
            }
            ProofError::Exists(path) => {
                write!(
                    f,
                    "{path}: is there, and may be a formula (--force writes over it)"
                )
            }
            ProofError::Open(path, error) => write!(f, "{path}: {}", Cause(Some(error))),
            ProofError::Write(path, error) => {
                write!(f, "{path}: cannot be written: {}", Cause(Some(error)))
            }
            ProofError::Finish(error) => Display::fmt(&error, f),
        }
    }
}

/// Begins the file of a proof, once the formula was read to its end from this reader. It appears when it is whole.
///
/// Where it is not forced, a file that begins as a formula does is left as it is, and so is any that is not empty where
/// no file of a formula was named, or where a formula may have no header.
///
/// # Errors
/// A [`ProofError`]. The file is as it was then.
pub fn create<'a, R: Read>(
    rt: &HostRuntime,
    options: &Options<'a>,
    path: &'a str,
    _reader: &R,
) -> Result<NewFile<'a>, ProofError<'a>>
    requires read_to_end { IsAtEnd (R.remaining _reader.now) }
    ensures other_file { IsTrue (reads (request_of options.now) path.now) → options.now.force ≡ false → IsErr result }
{
    if !options.force {
        guard(rt, options, path)?;
    }
    begin(rt, path)
}

/// Begins the file of a proof that comes of another one, which is in this file. It appears when it is whole.
///
/// Where it is not forced, a file is left as it is that is one of those that are read, or that begins as a formula does.
///
/// # Errors
/// A [`ProofError`]. The file is as it was then.
pub fn create_beside<'a>(
    rt: &HostRuntime,
    options: &Options<'a>,
    path: &'a str,
    proof: Option<&str>,
) -> Result<NewFile<'a>, ProofError<'a>>
    ensures other_file { IsTrue (reads (request_of options.now) path.now) → options.now.force ≡ false → IsErr result }
{
    if !options.force {
        if proof == Some(path) {
            return Err(ProofError::IsProof(path));
        }
        guard(rt, options, path)?;
    }
    begin(rt, path)
}

// Begins a file, in the place of one that is there.
fn begin<'a>(rt: &HostRuntime, path: &'a str) -> Result<NewFile<'a>, ProofError<'a>> {
    match NewFile::begin(rt, path, Existing::Replace) {
        Ok(file) => Ok(file),
        Err(error) => Err(ProofError::Open(path, error)),
    }
}

// Refuses a file that is not to be written over.
fn guard<'a>(rt: &HostRuntime, options: &Options, path: &'a str) -> Result<(), ProofError<'a>>
    ensures other_file { IsTrue (reads (request_of options.now) path.now) → IsErr result }
{
    if is_read(options, path) {
        return Err(ProofError::IsFormula(path));
    }
    // Where there is none, or a device or a pipe, there is nothing to lose.
    let Ok(metadata) = fs::metadata(rt, path) else {
        return Ok(());
    };
    if !metadata.is_file() || metadata.len() == 0 {
        return Ok(());
    }
    match has_formula(rt, path) {
        Ok(false) if may_be_formula(options) => Err(ProofError::Exists(path)),
        Ok(false) => Ok(()),
        Ok(true) => Err(ProofError::IsFormula(path)),
        Err(error) => Err(ProofError::Open(path, error)),
    }
}

// Whether a file may be the one that was read although it does not begin as a formula does: where that one was not
// named, or needs no header.
fn may_be_formula(options: &Options) -> bool {
    options.file.is_none() || matches!(options.rule, HeaderRule::Relaxed)
}

// Whether the file of this name is the one that is read.
fn is_read(options: &Options, path: &str) -> bool
    ensures { result ≡ reads (request_of options.now) path.now }
{
    match options.file {
        Some(name) => name == path,
        None => false,
    }
}

// Whether the file of this name begins as a formula does.
fn has_formula(rt: &HostRuntime, path: &str) -> io::Result<bool> {
    let mut front = Vec::new(rt.alloc());
    File::open(rt, path)?.take(FRONT).read_to_end(&mut front)?;
    Ok(begins_as_formula(&front).unwrap_or(front.len() as u64 >= FRONT))
}

// Whether a text begins as a formula does: with `p cnf` behind blanks and comments. None if it ends before that is told.
fn begins_as_formula(mut text: &[u8]) -> Option<bool> {
    // Each turn takes a byte away at least.
    for _ in 0..text.len() {
        text = behind_blanks(text);
        match text {
            [] => return None,
            [b'c', ..] => text = behind_line(text),
            [b'p', rest @ ..] => return begins_as_format(behind_blanks(rest)),
            _ => return Some(false),
        }
    }
    None
}

// Whether a text begins with `cnf`. None if it ends before that is told.
fn begins_as_format(text: &[u8]) -> Option<bool> {
    match text {
        [b'c', b'n', b'f', ..] => Some(true),
        [] | [b'c'] | [b'c', b'n'] => None,
        _ => Some(false),
    }
}

// What stands behind the first blanks of a text.
fn behind_blanks(text: &[u8]) -> &[u8] {
    match text
        .iter()
        .position(|byte| !byte.is_ascii_whitespace() && *byte != b'\x0B')
    {
        Some(start) => &text[start..],
        None => &[],
    }
}

// What stands behind the first line of a text.
fn behind_line(text: &[u8]) -> &[u8] {
    match text.iter().position(|byte| *byte == b'\n') {
        Some(end) => &text[end + 1..],
        None => &[],
    }
}
