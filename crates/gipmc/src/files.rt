//! Files that are read whole, and texts that are written.
ghost use Rattle.std.specs.Prelude.{◌≡◌, ℕ, IfOk, List, None, Option};
ghost use Rattle.std.specs.Option.{option_map};
ghost use Rattle.gipmc.specs.Texts.{IsTextOf, ends_in_return, first_returns, have_returns, text_read};
ghost use Rattle.gipmc.specs.Texts.{with_feeds, without_return};
ghost use Rattle.giputils_text.specs.Lines.{text_lines};

use crate::errors::Failure;
use gip_cli::{Existing, NewFile, open_file};
use gipmc_command::Options;
use giputils_text::{number, split_line};
use std::alloc::AllocError;
use std::fs::File;
use std::io::{ErrorKind, Read, Write};

/// Where the texts are that a run reads.
pub trait Texts {
    // The bytes of each file by its name, where they are known. Standard input has no name.
    ghost bytes: { Self → Option (List ℕ) → Option (List ℕ) };

    /// The text of the file of this name, or of standard input. Where its first line ends in a carriage return and a
    /// line feed, each line has the line feed alone.
    ///
    /// # Errors
    /// [`Failure::Open`] where the file can't be opened, or is a directory, [`Failure::Read`] where a read fails, and
    /// [`Failure::Compressed`] where the bytes are compressed.
    fn text_of<'a>(&self, rt: &HostRuntime, name: Option<&'a str>) -> Result<Vec<u8>, Failure<'a>>
        ensures { IfOk result (λ text. IsTextOf (bytes self.now (option_map (λ n. n.now) name.entry)) text.items) };
}

/// The files of the machine, and its standard input. No contract knows what they have.
#[derive(Clone, Copy)]
pub struct Files;

impl Texts for Files {
    ghost bytes = { λ _ _. None };

    fn text_of<'a>(&self, rt: &HostRuntime, name: Option<&'a str>) -> Result<Vec<u8>, Failure<'a>> {
        let Some(file) = name else {
            return read_text(rt, name, &mut rt.stdin());
        };
        let mut file = open(rt, file)?;
        read_text(rt, name, &mut file)
    }
}

// The text that a reader has, which is the file of this name or standard input.
fn read_text<'a, R: Read>(
    rt: &HostRuntime,
    name: Option<&'a str>,
    reader: &mut R,
) -> Result<Vec<u8>, Failure<'a>>
    ensures { IfOk result (λ text. IsTextOf (R.remaining reader.old) text.items) }
{
    let mut bytes = Vec::new(rt.alloc());
    match reader.read_to_end(&mut bytes) {
        Ok(_) => match tool_of(&bytes) {
            Some(tool) => Err(Failure::Compressed(name, tool)),
            None => Ok(with_line_feeds(rt, bytes)?),
        },
        Err(error) if error.kind() == ErrorKind::OutOfMemory => Err(Failure::Memory),
        Err(error) => Err(Failure::Read(name, error)),
    }
}

// What compressed data begins with, and the program that decompresses it.
const COMPRESSED: &[(&[u8], &str)] = &[
    (&[0x1f, 0x8b], "gzip"),
    (b"\xfd7zXZ", "xz"),
    (b"BZh", "bzip2"),
    (&[0x28, 0xb5, 0x2f, 0xfd], "zstd"),
];

// The program that decompresses these bytes, if their first ones tell that they are compressed.
fn tool_of(bytes: &[u8]) -> Option<&'static str> {
    for &(beginning, tool) in COMPRESSED {
        if bytes.starts_with(beginning) {
            return Some(tool);
        }
    }
    None
}

// A text without the carriage returns at the ends of its lines, if its first line has one.
fn with_line_feeds(rt: &HostRuntime, bytes: Vec<u8>) -> Result<Vec<u8>, AllocError>
    ensures { IfOk result (λ text. text.items ≡ text_read bytes.items) }
{
    if has_returns(&bytes) {
        without_returns(rt, &bytes)
    } else {
        Ok(bytes)
    }
}

// Whether the first line of a text ends in a carriage return. The binary form has none.
fn has_returns(bytes: &[u8]) -> bool
    ensures { result ≡ have_returns (text_lines bytes.now) }
{
    match split_line(bytes) {
        Some((first, _)) => first_returns(first),
        None => false,
    }
}

// Whether the first line of a text does, which is not in the binary form.
fn first_returns(first: &[u8]) -> bool
    ensures { result ≡ first_returns first.now }
{
    if first.starts_with(b"aig") {
        return false;
    }
    ends_in_return(first)
}

// Whether a line ends in a carriage return.
fn ends_in_return(line: &[u8]) -> bool
    ensures { result ≡ ends_in_return line.now }
{
    line.ends_with(b"\r")
}

// The lines of a text without the carriage returns at their ends.
#[tactic(auto, using(crate::proofs::Texts::one_more))]
fn without_returns(rt: &HostRuntime, bytes: &[u8]) -> Result<Vec<u8>, AllocError>
    ensures { IfOk result (λ text. text.items ≡ with_feeds (text_lines bytes.now)) }
{
    let mut text = Vec::new(rt.alloc());
    let mut rest = bytes;
    while let Some((line, after)) = split_line(rest) {
        text.extend_from_slice(without_return(line))?;
        text.push(b'\n')?;
        rest = after;
    }
    Ok(text)
}

// A line without the carriage return at its end, if it has one.
fn without_return(line: &[u8]) -> &[u8]
    ensures { result.now ≡ without_return line.now }
{
    if !ends_in_return(line) {
        return line;
    }
    &line[..line.len().saturating_sub(1)]
}

// Opens a file to read it.
fn open<'a>(rt: &HostRuntime, name: &'a str) -> Result<File, Failure<'a>> {
    match open_file(rt, name) {
        Ok(file) => Ok(file),
        Err(error) => Err(Failure::Open(name, error)),
    }
}

/// Writes a text to standard output.
///
/// # Errors
/// [`Failure::Write`] where that fails.
pub fn write_out<'a>(rt: &HostRuntime, text: &[u8]) -> Result<(), Failure<'a>> {
    match rt.stdout().write_all(text) {
        Ok(()) => Ok(()),
        Err(error) => Err(Failure::Write(error)),
    }
}

/// Tests that no two files that the options want would have one name.
///
/// # Errors
/// [`Failure::OneName`] where two would have it.
pub fn check_names<'a>(options: &Options<'a>) -> Result<(), Failure<'a>> {
    if let Some(name) = options.asked.word("--certificate") {
        if options.asked.word("--vcd") == Some(name) {
            return Err(Failure::OneName(name));
        }
        check_beside(options.asked.word("--witness"), name)?;
    }
    match options.asked.word("--vcd") {
        Some(name) => check_beside(options.asked.word("--witness"), name),
        None => Ok(()),
    }
}

// Tests that no file of a witness, if these are wanted, would have this name.
fn check_beside<'a>(prefix: Option<&str>, name: &'a str) -> Result<(), Failure<'a>> {
    match prefix {
        Some(prefix) if is_of_witness(prefix, name) => Err(Failure::OneName(name)),
        _ => Ok(()),
    }
}

// Whether a name is that of the file of a witness, where such names begin so: it goes on with a letter and a place.
fn is_of_witness(prefix: &str, name: &str) -> bool {
    let Some(rest) = name.strip_prefix(prefix) else {
        return false;
    };
    let Some(property) = rest.strip_suffix(".aiw") else {
        return false;
    };
    match property.as_bytes() {
        [b'b' | b'j', place @ ..] => number(place, u32::MAX).is_some(),
        _ => false,
    }
}

/// A new file of this name, if one is wanted. Nothing has its name yet.
///
/// # Errors
/// [`Failure::Create`] where something has it, or where no file can be made in its folder.
pub fn new_file<'a>(
    rt: &HostRuntime,
    name: Option<&'a str>,
) -> Result<Option<NewFile<'a>>, Failure<'a>> {
    let Some(name) = name else {
        return Ok(None);
    };
    Ok(Some(begin_file(rt, name)?))
}

/// A new file of this name, which nothing has yet.
///
/// # Errors
/// Those of [`new_file`].
pub fn begin_file<'a>(rt: &HostRuntime, name: &'a str) -> Result<NewFile<'a>, Failure<'a>> {
    match NewFile::begin(rt, name, Existing::Refuse) {
        Ok(file) => Ok(file),
        Err(error) => Err(Failure::Create(name, error)),
    }
}

/// Writes a text to a new file, and gives it its name.
///
/// # Errors
/// [`Failure::WriteFile`] and [`Failure::Finish`] where that fails.
pub fn write_whole<'a>(mut file: NewFile<'a>, text: &[u8]) -> Result<(), Failure<'a>> {
    if let Err(error) = file.write_all(text) {
        return Err(Failure::WriteFile(file.name(), error));
    }
    match file.finish() {
        Ok(()) => Ok(()),
        Err(error) => Err(Failure::Finish(error)),
    }
}
