//! An observer of a search.

use crate::engines::Technique;
use gipmc_ic3::Statistics;
use std::ops::ControlFlow;

/// What an observer is told. Where nothing is said of `Break`, it is ignored.
#[derive(Clone, Copy)]
pub enum Event<'t> {
    /// The search is to go on until the property at this place is decided. `Break` where there is no time for it.
    Begin(usize),
    /// An engine is to go on. `Break` stops all searches.
    Turn,
    /// So many rounds of simulation found nothing. `Break` stops the simulation.
    Rounds(usize),
    /// In a round of simulation, so many moments of all runs are over and found nothing. It is told now and then, in a
    /// round that takes long. `Break` stops the simulation.
    Moments(usize),
    /// No trace of fewer than `depth` transitions fails, and those of so many come next. Their formula has so many
    /// clauses, and so many were learned. `Break` stops the search.
    Depth {
        /// The transitions.
        depth: usize,
        /// The clauses.
        clauses: usize,
        /// How many were learned.
        learned: usize,
    },
    /// A slice of a search by IC3 ended. That came to this frame, and has done so much. `Break` stops all searches, if
    /// the slice found nothing.
    Slice {
        /// The frame.
        frame: usize,
        /// What was done.
        statistics: Statistics,
    },
    /// A question about an inductive step ended. The next one is about this k, by so many clauses, and so many were
    /// learned. `Break` stops all searches, if the step does not hold.
    Step {
        /// The k.
        k: usize,
        /// The clauses.
        clauses: usize,
        /// How many were learned.
        learned: usize,
    },
    /// By this the property was decided.
    Decided(Technique),
    /// A shortest trace was looked for in place of the one that was found, before the search ends.
    Shortened {
        /// Whether the trace that is answered is known to be one.
        is_shortest: bool,
    },
    /// The property at this place fails. Its witness has this text, and was written, unless a write failed.
    Witness {
        /// The place.
        place: usize,
        /// The text.
        text: &'t [u8],
    },
    /// The search does not go on for this property.
    End {
        /// Whether memory was refused, and the property is left open for that.
        is_refused: bool,
    },
}

/// An observer of a search about some properties, which are answered one after another. It is told how far the search
/// is, and may stop it.
pub trait Observer {
    /// This happened.
    fn note(&mut self, event: Event<'_>) -> ControlFlow<()>;
}

/// The observer that ignores all it is told, and stops no search.
impl Observer for () {
    fn note(&mut self, _event: Event<'_>) -> ControlFlow<()> {
        ControlFlow::Continue(())
    }
}
