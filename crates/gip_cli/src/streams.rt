//! The standard streams.
use std::fs::File;
use std::io;
use std::os::fd::{AsFd, IntoRawFd};

// The system's number for a descriptor that is closed.
const BAD_DESCRIPTOR: i32 = 9;

// What a closed stream is opened on.
const NULL: &str = "/dev/null";

/// Opens the null device for each standard stream that is closed, so that no file that is opened later takes its place.
/// Standard input is opened for writing and standard output for reading, so a read of the one and a write to the other
/// fail, as before. Standard error is opened for writing, and what is written to it is lost.
///
/// A program calls it before it opens a file.
///
/// # Errors
/// Where a stream is closed and the null device can't be opened.
pub fn hold_standard_streams(rt: &HostRuntime) -> io::Result<()> {
    // The system gives the least number that is free: that of the stream, since those before it are open by then.
    if is_closed(&rt.stdin()) {
        File::options().write(true).open(rt, NULL)?.into_raw_fd();
    }
    if is_closed(&rt.stdout()) {
        File::options().read(true).open(rt, NULL)?.into_raw_fd();
    }
    if is_closed(&rt.stderr()) {
        File::options().write(true).open(rt, NULL)?.into_raw_fd();
    }
    Ok(())
}

// Whether the system says that a stream is closed.
fn is_closed<S: AsFd>(stream: &S) -> bool {
    match stream.as_fd().try_clone_to_owned() {
        Ok(_) => false,
        Err(error) => error.raw_os_error() == Some(BAD_DESCRIPTOR),
    }
}
