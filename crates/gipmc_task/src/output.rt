//! Where answers are written as they are found.
ghost use Rattle.std.specs.Prelude.{◌≡◌};
ghost use Rattle.gipmc_task.specs.Output.{IsWritten};
ghost use Rattle.gipmc_task.specs.declared.output.AnswerOrder.TheVariants.{Places};

use std::io::{self, Write};

/// What becomes of a search where an answer could not be written.
#[derive(Clone, Copy, PartialEq, Eq)]
pub enum Lost {
    /// It stops: nothing else is wanted of it.
    Stop,
    /// It goes on, for the certificate.
    GoOn,
}

/// Which trace is written of a bad literal that fails.
#[derive(Clone, Copy, PartialEq, Eq)]
pub enum Traces {
    /// The one that was found.
    Found,
    /// A shortest one, if it is found.
    Shortest,
}

/// In which order answers about all bad literals of a circuit are written.
#[derive(Clone, Copy, Debug, PartialEq, Eq)]
pub enum AnswerOrder {
    /// In that of the literals. So one that is not decided holds back the answers about those behind it.
    Places,
    /// Each once its literal is decided, as far as that is looked for: some times at each depth of bounded model checking,
    /// and where the search ends. Then no progress is written.
    Known,
}

/// What a certificate is made of that shows what is safe.
#[derive(Clone, Copy, Debug, PartialEq, Eq)]
pub enum Certifying {
    /// Clauses over latches, or a k: the `Grounds::Clauses` of `certificate_of`. In a search that takes long, equal latches
    /// may be merged.
    Clauses,
    /// A circuit: its `Grounds::Strengthened`. Equal latches and gates may be merged.
    Circuit,
    /// No certificate is wanted. Equal latches and gates may be merged, and what is shown of the rest makes no certificate
    /// of the circuit.
    Nothing,
}

/// What a search is to find out.
#[derive(Clone, Copy, Debug, PartialEq, Eq)]
pub enum Wanted {
    /// Nothing more: it is over.
    Nothing,
    /// Verdicts.
    Verdicts,
    /// Verdicts, with shortest traces.
    Shortest,
}

/// A writer, and why it failed first. After that it takes nothing more.
pub struct Output<W: Write> {
    /// Where texts are written.
    pub writer: W,
    /// Why one was not written.
    pub failure: Option<io::Error>,
    /// What becomes of the search then.
    pub lost: Lost,
    /// Which traces are written.
    pub traces: Traces,
    /// In which order answers are written.
    pub order: AnswerOrder,
    /// What a certificate is to be made of.
    pub certifying: Certifying,
    /// Whether a line `u N` is written before an answer each time that nothing is known to fail within more than twice as
    /// many transitions.
    pub progress: bool,
}

// One call in its owners' proofs, in place of one for each field.
impl<W: Write + Drop> Drop for Output<W> {
    fn drop(self) {
        let Output {
            writer,
            failure,
            lost: _,
            traces: _,
            order: _,
            certifying: _,
            progress: _,
        } = self;
    }
}

impl<W: Write> Output<W> {
    /// Before the first text. The traces are those that are found, answers are in the order of the places, a certificate is
    /// made of clauses, and no progress is written.
    pub fn new(writer: W, lost: Lost) -> Self
        ensures { result.order ≡ Places }
    {
        Output {
            writer,
            failure: None,
            lost,
            traces: Traces::Found,
            order: AnswerOrder::Places,
            certifying: Certifying::Clauses,
            progress: false,
        }
    }

    /// Whether the search is to stop.
    pub fn is_over(&self) -> bool {
        self.failure.is_some() && self.lost == Lost::Stop
    }

    /// What a search is to find out yet.
    pub fn wanted(&self) -> Wanted {
        if self.is_over() {
            return Wanted::Nothing;
        }
        match self.traces {
            Traces::Found => Wanted::Verdicts,
            Traces::Shortest => Wanted::Shortest,
        }
    }

    /// Writes a text, if all before it was written.
    pub fn tell(&mut self, text: &[u8])
        ensures { IsWritten self.old.failure self.new.failure
            (W.contents self.old.writer) (W.contents self.new.writer) text.now }
    {
        if self.failure.is_some() {
            return;
        }
        if let Err(error) = self.writer.write_all(text) {
            self.failure = Some(error);
        }
    }
}
