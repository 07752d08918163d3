//! An observer that knows whether it stopped a search.

use crate::observer::{Event, Observer};
use std::ops::ControlFlow;

// Passes on to an observer what it is told.
#[derive(Drop)]
pub(crate) struct Hearing<'o, O: Observer> {
    pub(crate) observer: &'o mut O,
    // Whether the observer stopped a search, and not a simulation alone.
    pub(crate) has_stopped: bool,
}

impl<O: Observer> Observer for Hearing<'_, O> {
    fn note(&mut self, event: Event<'_>) -> ControlFlow<()> {
        let is_of_simulation = matches!(event, Event::Rounds(_) | Event::Moments(_));
        let flow = self.observer.note(event);
        self.has_stopped = self.has_stopped || flow.is_break() && !is_of_simulation;
        flow
    }
}
