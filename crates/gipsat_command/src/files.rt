//! What is read and written, with the cause where that failed.
ghost use Rattle.std.specs.Prelude.{◌≡◌, ◌++◌, OnOk, Some};
ghost use Rattle.std.specs.Io.{ReadsAtMost};
ghost use Rattle.std.specs.Io.KnownBytes.{Keeps, ReadConsumes};
ghost use Rattle.gipsat_command.specs.Files.{ahead_of, output_contents, source_remaining, stream_remaining};

use crate::errors::Failure;
use gip_cli::open_file;
use gipsat_dimacs::{DimacsError, Reason};
use gipsat_drat::error::DratError;
use giputils_text::split_once;
use std::fs::File;
use std::io::{self, IsTerminal, Read, Stdin, Write};

/// A file, or standard input.
#[derive(Drop)]
pub enum Stream {
    /// Standard input.
    Stdin(Stdin),
    /// An open file.
    File(File),
}

impl Read for Stream {
    fn read(&mut self, buf: &mut [u8]) -> io::Result<usize> {
        match self {
            Stream::Stdin(stdin) => stdin.read(buf),
            Stream::File(file) => file.read(buf),
        }
    }
}

/// A reader, and the name that it has in errors.
pub struct Source<'a, R> {
    // None is standard input.
    name: Option<&'a str>,
    stream: R,
    // Bytes that were read ahead, and how many of them were handed on.
    ahead: Vec<u8>,
    handed: usize,
    // Whether the stream has ended.
    has_ended: bool,
    // Why the last read failed.
    error: Option<io::Error>,
}

// One call in its owners' proofs, in place of one for each field.
impl<R: Drop> Drop for Source<'_, R> {
    fn drop(self) {
        let Source {
            name: _,
            stream,
            ahead,
            handed: _,
            has_ended: _,
            error,
        } = self;
    }
}

impl<'a> Source<'a, Stream> {
    /// Opens the file of this name; standard input has none.
    ///
    /// # Errors
    ///
    /// `Open` where the file can't be opened, or is a directory.
    pub fn open(rt: &HostRuntime, name: Option<&'a str>) -> Result<Self, Failure<'a>> {
        let stream = match name {
            Some(name) => match open_file(rt, name) {
                Ok(file) => Stream::File(file),
                Err(error) => return Err(Failure::Open(name, error)),
            },
            None => Stream::Stdin(rt.stdin()),
        };
        Ok(Source::new(rt, name, stream))
    }

    /// Tells that a terminal is read, if it is one.
    pub fn announce(&self, rt: &HostRuntime) {
        if self.is_terminal() {
            let _ = eprintln!(rt; "c reading standard input");
        }
    }

    // Whether it is read from a terminal.
    fn is_terminal(&self) -> bool {
        match &self.stream {
            Stream::Stdin(stdin) => stdin.is_terminal(),
            Stream::File(_) => false,
        }
    }
}

impl<'a, R: Read> Source<'a, R> {
    /// A reader under the name of its file; standard input has none.
    pub fn new(rt: &HostRuntime, name: Option<&'a str>, stream: R) -> Self
        ensures { source_remaining R.remaining result ≡ R.remaining stream }
    {
        Source {
            name,
            stream,
            ahead: Vec::new(rt.alloc()),
            handed: 0,
            has_ended: false,
            error: None,
        }
    }

    /// The name of its file; standard input has none.
    pub fn name(&self) -> Option<&'a str> {
        self.name
    }

    /// Whether its text begins with a header `p inccnf`. What is read for that is read again.
    ///
    /// # Errors
    ///
    /// `Read` where a read fails, and `Memory` where memory is refused.
    pub fn has_questions(&mut self) -> Result<bool, Failure<'a>>
        ensures { OnOk result (Keeps (source_remaining R.remaining self.old) (source_remaining R.remaining self.new)) }
    {
        for _ in 0..BLOCKS {
            if let Some(asks) = asks_questions(self.left()) {
                return Ok(asks);
            }
            if self.has_ended {
                return Ok(false);
            }
            self.read_ahead()?;
        }
        Ok(false)
    }

    // What was read ahead and not handed on.
    #[tactic(auto, using(crate::proofs::Sources::left_ahead))]
    fn left(&self) -> &[u8]
        ensures { result.now ≡ ahead_of self.now }
    {
        let start = self.handed.min(self.ahead.len());
        &self.ahead[start..]
    }

    // Reads some bytes more ahead.
    fn read_ahead(&mut self) -> Result<(), Failure<'a>>
        ensures { OnOk result (Keeps (source_remaining R.remaining self.old) (source_remaining R.remaining self.new)) }
    {
        let mut block = [0u8; BLOCK];
        let Ok(n) = self.read_stream(&mut block) else {
            return Err(self.unread());
        };
        self.push(&block[..n])
    }

    // Puts some bytes behind those that were read ahead.
    #[tactic(auto, using(crate::proofs::Sources::pushed_ahead))]
    fn push(&mut self, bytes: &[u8]) -> Result<(), Failure<'a>>
        ensures ahead { OnOk result (ahead_of self.new ≡ ahead_of self.old ++ bytes.now) }
        ensures stream { stream_remaining R.remaining self.new ≡ stream_remaining R.remaining self.old }
    {
        self.handed = self.handed.min(self.ahead.len());
        match self.ahead.extend_from_slice(bytes) {
            Ok(()) => Ok(()),
            Err(_) => Err(Failure::Memory),
        }
    }

    // Reads from the stream, until it has ended.
    fn read_stream(&mut self, buf: &mut [u8]) -> io::Result<usize>
        ensures bound { ReadsAtMost result buf.new }
        ensures bytes { ReadConsumes (stream_remaining R.remaining self.old) (stream_remaining R.remaining self.new)
            result buf.new }
        ensures ahead { ahead_of self.new ≡ ahead_of self.old }
    {
        if self.has_ended {
            return Ok(0);
        }
        let n = match self.stream.read(buf) {
            Ok(n) => n,
            Err(error) => {
                self.error = Some(error);
                return Err(error);
            }
        };
        if n > 0 || buf.is_empty() {
            return Ok(n);
        }
        self.has_ended = true;
        Ok(n)
    }

    // Hands bytes on that were read ahead.
    fn hand_on(&mut self, buf: &mut [u8]) -> io::Result<usize>
        ensures bound { ReadsAtMost result buf.new }
        ensures bytes { ReadConsumes (Some (ahead_of self.old)) (Some (ahead_of self.new)) result buf.new }
        ensures stream { stream_remaining R.remaining self.new ≡ stream_remaining R.remaining self.old }
    {
        let mut left = self.left();
        let n = left.read(buf)?;
        let rest = left.len();
        self.handed = self.ahead.len().saturating_sub(rest);
        Ok(n)
    }

    /// Why a formula from here was not solved.
    pub fn failure<W: Write>(&self, output: &Output<W>, error: DimacsError) -> Failure<'a> {
        match error {
            DimacsError::Input => self.unread(),
            DimacsError::Line(line, reason) => Failure::Line(self.name, line, reason),
            DimacsError::Memory => Failure::Memory,
            DimacsError::Output => output.unwritten(),
        }
    }

    /// Why a proof was not checked beside a formula from here.
    pub fn check_failure<P: Read, W: Write>(
        &self,
        proof: &Source<'a, P>,
        output: &Output<W>,
        error: DratError,
    ) -> Failure<'a> {
        match error {
            DratError::Formula(DimacsError::Line(line, Reason::Compressed(compression))) => {
                Failure::Compressed(self.name, line, compression)
            }
            DratError::Formula(error) => self.failure(output, error),
            DratError::Proof => proof.unread(),
            DratError::Form(form) => Failure::Form(proof.name, form),
            DratError::Memory => Failure::Memory,
            DratError::Output => output.unwritten(),
        }
    }

    // That a read failed.
    fn unread(&self) -> Failure<'a> {
        Failure::Read(self.name, self.error)
    }
}

impl<R: Read> Read for Source<'_, R> {
    ghost remaining = { source_remaining R.remaining };

    fn read(&mut self, buf: &mut [u8]) -> io::Result<usize> {
        if self.handed < self.ahead.len() {
            return self.hand_on(buf);
        }
        self.read_stream(buf)
    }
}

// The header of a text with questions.
const HEADER: &[u8] = b"p inccnf";

// How many bytes are read ahead at a time, and how often at most.
const BLOCK: usize = 4096;

const BLOCKS: usize = 256;

// Whether a text begins with a header `p inccnf`, behind empty lines and comments. None if it ends before that is told.
fn asks_questions(text: &[u8]) -> Option<bool> {
    let mut left = text;
    // Each turn takes a line away.
    for _ in 0..text.len() {
        let (line, rest) = split_once(left, b'\n');
        match line {
            [] | [b'c' | b'\r', ..] => left = rest?,
            _ if rest.is_none() && line.len() < HEADER.len() + 1 => return None,
            _ => return Some(line.strip_suffix(b"\r").unwrap_or(line) == HEADER),
        }
    }
    None
}

/// A writer, and why its last write failed.
pub struct Output<W> {
    writer: W,
    error: Option<io::Error>,
}

// One call in its owners' proofs, in place of one for each field.
impl<W: Drop> Drop for Output<W> {
    fn drop(self) {
        let Output { writer, error } = self;
    }
}

impl<W: Write> Output<W> {
    /// Before anything is written.
    pub fn new(writer: W) -> Self
        ensures { output_contents W.contents result ≡ W.contents writer }
    {
        Output {
            writer,
            error: None,
        }
    }

    /// That a write failed.
    pub fn unwritten<'a>(&self) -> Failure<'a> {
        Failure::Write(None, self.error)
    }
}

impl<W: Write> Write for Output<W> {
    ghost contents = { output_contents W.contents };

    fn write(&mut self, buf: &[u8]) -> io::Result<usize> {
        match self.writer.write(buf) {
            Ok(n) => Ok(n),
            Err(error) => {
                self.error = Some(error);
                Err(error)
            }
        }
    }

    fn flush(&mut self) -> io::Result<()> {
        self.writer.flush()
    }
}
