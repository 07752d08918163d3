//! How a program begins and ends.
ghost use Rattle.std.specs.Prelude.{◌≡◌, vec_len, IfErr, IfOk};
ghost use Rattle.std.specs.Process.{exit_status};
ghost use Rattle.gip_cli.specs.Statuses.{IsEndedStatus, ended_status, refused_status, usage_status};

use crate::about::About;
use crate::cause::Cause;
use crate::items::Info;
use crate::printable::Printable;
use crate::streams::hold_standard_streams;
use std::alloc::AllocError;
use std::env::{self, Env, FillError};
use std::fmt::{self, Display};
use std::io::{self, ErrorKind, Write};
use std::process::ExitCode;
use std::str;

// The exit status where nothing is answered, or an answer is not verified.
const REFUSED: u8 = 1;

// The exit status where the arguments have no meaning.
const USAGE: u8 = 2;

/// The arguments behind the program's name, once each standard stream is open.
///
/// # Errors
/// Where an argument is no text, memory is refused, or a stream can't be opened. Standard error tells it; the program
/// ends with this status.
pub fn begin(rt: &HostRuntime) -> Result<Vec<String>, ExitCode>
    ensures { IfErr result (λ status. exit_status status ≡ refused_status) }
{
    if let Err(error) = hold_standard_streams(rt) {
        return Err(refuse(rt, &format_args!("/dev/null: {}", Cause(Some(error)))));
    }
    match words_of(rt) {
        Ok(words) => Ok(words),
        Err(error) => Err(refuse_words(rt, error)),
    }
}

fn words_of(rt: &HostRuntime) -> io::Result<Vec<String>> {
    Ok(env::args(rt)?.skip(1).collect(rt.alloc())?)
}

// Writes that there are no arguments to standard error: one of them is no text, which is told, or memory is refused.
fn refuse_words(rt: &HostRuntime, error: io::Error) -> ExitCode
    ensures { exit_status result ≡ refused_status }
{
    let cause = Cause(Some(error));
    if error.kind() != ErrorKind::InvalidData {
        return refuse(rt, &format_args!("arguments: {cause}"));
    }
    match not_text(rt) {
        Some((place, word)) => refuse(
            rt,
            &format_args!("arguments: {cause}: word {place}, '{}'", Ascii(&word)),
        ),
        None => refuse(rt, &format_args!("arguments: {cause}: a long word")),
    }
}

// The most bytes of a word that are looked at: those that Linux takes.
const WORD_BYTES: usize = 131_072;

// The first argument that is no text, and its place. The program's name has the place 0.
fn not_text(rt: &HostRuntime) -> Option<(usize, Vec<u8>)> {
    let Ok(mut word) = zeros(rt, WORD_BYTES) else {
        return None;
    };
    for place in 0..usize::MAX {
        match rt.arg(place, &mut word) {
            Ok(len) => {
                if str::from_utf8(&word[..len]).is_err() {
                    word.truncate(len);
                    return Some((place, word));
                }
            }
            Err(FillError::TooLong) => {}
            Err(FillError::NotPresent) => return None,
        }
    }
    None
}

// So many zeros.
fn zeros(rt: &HostRuntime, len: usize) -> Result<Vec<u8>, AllocError>
    ensures { IfOk result (λ zeros. vec_len zeros ≡ len) }
{
    vec![in rt.alloc(); 0u8; len]
}

// Bytes, of which those are shown that are ASCII. Each other one is an underscore.
#[derive(Clone, Copy)]
struct Ascii<'a>(&'a [u8]);

impl Display for Ascii<'_> {
    fn fmt<W: fmt::Write>(&self, f: &mut fmt::Formatter<W>) -> fmt::Result {
        for byte in self.0 {
            f.write_char(if byte.is_ascii() {
                char::from(*byte)
            } else {
                '_'
            })?;
        }
        Ok(())
    }
}

/// Writes why nothing is answered to standard error.
pub fn refuse<E: Display>(rt: &HostRuntime, error: &E) -> ExitCode
    ensures { exit_status result ≡ refused_status }
{
    let _ = eprintln!(rt; "{}", Printable(error));
    ExitCode::from(REFUSED)
}

/// Writes why the arguments have no meaning to standard error.
pub fn explain<E: Display>(rt: &HostRuntime, program: &str, error: &E) -> ExitCode
    ensures { exit_status result ≡ usage_status }
{
    let _ = eprintln!(rt; "{program}: {} (try --help)", Printable(error));
    ExitCode::from(USAGE)
}

/// Writes what a program tells of itself to standard output.
pub fn tell(rt: &HostRuntime, about: &About, info: Info) -> ExitCode
    ensures { IsEndedStatus (exit_status result) }
{
    end(rt, write(rt, about, info))
}

// The status where all was written. Writes why it was not.
fn end(rt: &HostRuntime, ended: io::Result<()>) -> ExitCode
    ensures { exit_status result ≡ ended_status ended }
{
    match ended {
        Ok(()) => ExitCode::SUCCESS,
        Err(error) => refuse(
            rt,
            &format_args!("<stdout>: cannot be written: {}", Cause(Some(error))),
        ),
    }
}

fn write(rt: &HostRuntime, about: &About, info: Info) -> io::Result<()> {
    let mut text = String::new(rt.alloc());
    if about.tell(&mut text, info).is_err() {
        return Err(io::Error::from(ErrorKind::OutOfMemory));
    }
    rt.stdout().write_all(text.as_bytes())
}
