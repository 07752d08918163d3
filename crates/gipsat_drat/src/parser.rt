//! A proof in either of the forms that are read.
ghost use Rattle.std.specs.Prelude.{IfOk};
ghost use Rattle.gipsat_drat.specs.Held.{IsRightOf, Keeps};

use crate::binary::BinaryParser;
use crate::checker::Checker;
use crate::error::{Failure, Notes, Outcome, Place, Stop};
use crate::text::TextParser;
use std::alloc::Global;

// What has been read of a proof.
#[derive(Drop)]
pub(crate) enum Parser {
    Text(TextParser),
    Binary(BinaryParser),
}

impl Parser {
    // Before a text.
    pub(crate) fn of_text(alloc: Global) -> Self {
        Parser::Text(TextParser::new(alloc))
    }

    // Before a binary proof.
    pub(crate) fn of_bytes(alloc: Global) -> Self {
        Parser::Binary(BinaryParser::new(alloc))
    }

    // What was passed over.
    pub(crate) fn notes(&self) -> Notes {
        match self {
            Parser::Text(parser) => parser.notes(),
            Parser::Binary(parser) => parser.notes(),
        }
    }

    // Where it reads.
    pub(crate) fn place(&self) -> Place {
        match self {
            Parser::Text(parser) => parser.place(),
            Parser::Binary(parser) => parser.place(),
        }
    }

    // Reads some bytes more, as far as the empty clause.
    pub(crate) fn feed(&mut self, checker: &mut Checker, bytes: &[u8]) -> Result<(), Stop>
        ensures { Keeps checker.old checker.new }
    {
        match self {
            Parser::Text(parser) => parser.feed(checker, bytes),
            Parser::Binary(parser) => parser.feed(checker, bytes),
        }
    }

    // Ends the proof.
    pub(crate) fn finish(&mut self, checker: &mut Checker) -> Result<Outcome, Failure>
        ensures { IfOk result (IsRightOf checker.old) }
    {
        match self {
            Parser::Text(parser) => parser.finish(checker),
            Parser::Binary(parser) => parser.finish(checker),
        }
    }
}
