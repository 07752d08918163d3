//! A parser that knows in which line it is.
ghost use Rattle.std.specs.Prelude.{◌≡◌, [], ℕ, List, Some, None, IfOk, OnOk, IsErrOf};
ghost use Rattle.gipsat_dimacs.specs.Texts.{problem_by, line_after, line_on};
ghost use Rattle.gipsat_dimacs.specs.Parsers.{IsReading, IsStopped, SaysOn, problem_from};

use crate::error::{DimacsError, Reason};
use crate::instance::Instance;
use crate::parser::Parser;
use crate::rule::HeaderRule;
use gipsat_cnf::ClauseSink;
use std::alloc::Global;

// A parser, and the number of the line that it reads.
#[derive(Drop)]
pub struct LineParser<S: ClauseSink> {
    pub parser: Parser<S>,
    pub line: usize,
}

impl<S: ClauseSink + Drop> LineParser<S> {
    // Before a text, whose clauses go to what has none.
    pub fn new(alloc: Global, rule: HeaderRule, clauses: S) -> Self
        requires empty { S.formula clauses ≡ [] }
        ensures reading { IsReading result.parser }
        ensures line { result.line ≡ 1 }
        ensures all { (text : List ℕ) → problem_from S.formula result.parser text ≡ problem_by rule text }
    {
        LineParser {
            parser: Parser::new(alloc, rule, clauses),
            line: 1,
        }
    }

    // Reads some bytes more.
    pub fn feed(&mut self, bytes: &[u8]) -> Result<(), DimacsError>
        requires reading { IsReading self.old.parser }
        ensures reading { OnOk result (IsReading self.new.parser) }
        ensures ok { OnOk result (SaysOn S.formula self.old.parser bytes.now self.new.parser) }
        ensures line { OnOk result (self.new.line ≡ line_on self.old.line bytes.now) }
        ensures stopped { (line : ℕ) (reason : Reason) → IsErrOf result (DimacsError.Line line reason) →
            IsStopped S.formula self.old bytes.now line }
    {
        for byte in bytes {
            if let Err(stop) = self.parser.byte(*byte) {
                return Err(stop.at(self.line));
            }
            self.line = line_after(self.line, *byte);
        }
        Ok(())
    }

    // The number of variables and the clauses, where the text has ended.
    pub fn finish(self) -> Result<Instance<S>, DimacsError>
        requires reading { IsReading self.parser }
        ensures ok { IfOk result (λ f. problem_from S.formula self.parser [] ≡
            Some (record { variables = f.variables; clauses = S.formula f.clauses })) }
        ensures stopped { (line : ℕ) (reason : Reason) → IsErrOf result (DimacsError.Line line reason) →
            (line ≡ self.line) × (problem_from S.formula self.parser [] ≡ None) }
    {
        let line = self.line;
        match self.parser.finish() {
            Ok(instance) => Ok(instance),
            Err(stop) => Err(stop.at(line)),
        }
    }
}

// The number of the line after a byte.
fn line_after(line: usize, byte: u8) -> usize
    ensures { result ≡ line_after line byte }
{
    if byte == b'\n' {
        line.saturating_add(1)
    } else {
        line
    }
}
