//! Devices for tests: each moves at most so many bytes at a call, fails at one call, and counts its calls.

ghost use Rattle.std.specs.Prelude.{◌≡◌, []};

use std::alloc::Allocator;
use std::io::{self, Error, ErrorKind, Read, Write};

/// A reader of bytes in memory. It answers one call with `ErrorKind::Interrupted`, which a caller that tries again
/// would not notice, and gives the bytes of that call to the next one.
///
/// The trials of `gip_lines`, `gipsat_dimacs` and `gipsat_drat` run on it.
#[derive(Drop)]
pub struct Source<'a> {
    rest: &'a [u8],
    most: usize,
    fails_at: u64,
    /// How many calls were made so far, the failed one among them.
    pub calls: u64,
}

impl<'a> Source<'a> {
    /// Gives `bytes`, at most `most` of them at a call. The call of number `fails_at`, counted from 1, fails; with 0
    /// none does.
    pub fn new(bytes: &'a [u8], most: usize, fails_at: u64) -> Self
        ensures { result.calls ≡ 0 }
    {
        Source {
            rest: bytes,
            most,
            fails_at,
            calls: 0,
        }
    }
}

impl Read for Source<'_> {
    fn read(&mut self, buf: &mut [u8]) -> io::Result<usize> {
        self.calls = self.calls.wrapping_add(1);
        if self.calls == self.fails_at {
            return Err(Error::from(ErrorKind::Interrupted));
        }
        let room = buf.len().min(self.most);
        self.rest.read(&mut buf[..room])
    }
}

/// What a [`Sink`] does at the call at which it fails.
#[derive(Clone, Copy, Debug)]
pub enum Failure {
    /// It answers this error.
    Refuses(ErrorKind),
    /// It takes no byte.
    TakesNone,
}

/// A writer into memory.
#[derive(Drop)]
pub struct Sink<A: Allocator> {
    /// The bytes that it took so far.
    pub text: Vec<u8, A>,
    most: usize,
    fails_at: u64,
    failure: Failure,
    /// How many calls were made so far, the failed one among them.
    pub calls: u64,
}

impl<A: Allocator> Sink<A> {
    /// Takes at most `most` bytes at a call. The call of number `fails_at`, counted from 1, fails as `failure` says;
    /// with 0 none does.
    pub fn new(alloc: A, most: usize, fails_at: u64, failure: Failure) -> Self
        ensures text { result.text.items ≡ [] }
        ensures calls { result.calls ≡ 0 }
    {
        Sink {
            text: Vec::new(alloc),
            most,
            fails_at,
            failure,
            calls: 0,
        }
    }
}

impl<A: Allocator> Write for Sink<A> {
    fn write(&mut self, buf: &[u8]) -> io::Result<usize> {
        self.calls = self.calls.wrapping_add(1);
        if self.calls == self.fails_at {
            return match self.failure {
                Failure::Refuses(kind) => Err(Error::from(kind)),
                Failure::TakesNone => Ok(0),
            };
        }
        let taken = buf.len().min(self.most);
        self.text.write(&buf[..taken])
    }

    fn flush(&mut self) -> io::Result<()> {
        Ok(())
    }
}
