//! How much memory a run used.
use std::fmt::{self, Display};
use std::fs;

/// The most memory that was used at a time, where it is known.
#[derive(Clone, Copy)]
pub struct Peak(Option<u64>);

impl Display for Peak {
    fn fmt<W: fmt::Write>(&self, f: &mut fmt::Formatter<W>) -> fmt::Result {
        match self.0 {
            Some(kilobytes) => write!(f, ", {kilobytes} kB of memory at most"),
            None => Ok(()),
        }
    }
}

impl Peak {
    /// What the system says of this process.
    pub fn now(rt: &HostRuntime) -> Self {
        match fs::read_to_string(rt, "/proc/self/status") {
            Ok(status) => Peak(peak_in(&status)),
            Err(_) => Peak(None),
        }
    }

    /// Whether it is so many megabytes, of 2^20 bytes, or more. It is not where it is not known.
    pub fn reaches(self, megabytes: usize) -> bool {
        match self.0 {
            Some(kilobytes) => kilobytes / 1024 >= megabytes as u64,
            None => false,
        }
    }
}

// The number of kilobytes behind `VmHWM:` in the system's text on a process.
fn peak_in(status: &str) -> Option<u64> {
    let (_, rest) = status.split_once("VmHWM:")?;
    rest.split_whitespace().next()?.parse().ok()
}
