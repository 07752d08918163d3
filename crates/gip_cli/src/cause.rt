//! Why the system refused a call.
use std::fmt::{self, Display};
use std::io::{self, ErrorKind};

// The system's number for a descriptor that is closed, or open for the other direction alone.
const BAD_DESCRIPTOR: i32 = 9;

/// Why the system refused a call, where it told that.
#[derive(Clone, Copy)]
pub struct Cause(pub Option<io::Error>);

impl Display for Cause {
    fn fmt<W: fmt::Write>(&self, f: &mut fmt::Formatter<W>) -> fmt::Result {
        let Some(error) = self.0 else {
            return f.write_str("no cause told");
        };
        if error.raw_os_error() == Some(BAD_DESCRIPTOR) {
            return f.write_str("closed, or open the other way alone");
        }
        match error.kind() {
            ErrorKind::NotFound => f.write_str("no such file"),
            ErrorKind::InvalidData => f.write_str("not UTF-8 text"),
            ErrorKind::StorageFull => f.write_str("no space left"),
            ErrorKind::Uncategorized => Display::fmt(&error, f),
            kind => Display::fmt(&kind, f),
        }
    }
}
