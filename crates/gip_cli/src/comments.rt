//! Lines on standard error that tell how far a run is.
use log::kv::Source;
use log::span::Spans;
use log::{Log, Metadata, Record};
use std::fmt::Display;

/// Writes each record to standard error, as a line that begins with `c`.
#[derive(Clone, Copy)]
pub struct Comments<'a> {
    rt: &'a HostRuntime,
}

impl<'a> Comments<'a> {
    /// On the standard error of this process.
    pub fn new(rt: &'a HostRuntime) -> Self {
        Comments { rt }
    }
}

impl Log for Comments<'_> {
    fn enabled(&self, _metadata: &Metadata<'_>) -> bool {
        true
    }

    fn log<D: Display, K: Source, S: Spans>(&self, record: &Record<'_, D, K, S>) {
        let _ = eprintln!(self.rt; "c {}", record.args());
    }

    fn flush(&self) {}

    fn target(&self) -> &str {
        ""
    }
}
