//! A parser that is given a text in parts.
ghost use Rattle.std.specs.Prelude.{◌≡◌, ◌<◌, ◌++◌, ◌∷◌, [], ℕ, Bool, true, false, List, length, Some, None, IfOk, IfErr, OnOk, OnErr};
ghost use Rattle.gipsat_dimacs.specs.Texts.{problem_by, begins, has_comment, comment_byte, end_byte};
ghost use Rattle.gipsat_dimacs.specs.Parsers.{IsReading, OnRefusal, SaysOn, SaysNothing, begins_comment, begins_end, begins_line, takes_comment, problem_from, problem_left, problem_next, EndsWord, EndsNoWord, TakesWord, TakesNoWord};
ghost use Rattle.gipsat_dimacs.specs.declared.stage.Stage.TheVariants.{Start, Words};
ghost use Rattle.giputils_text.specs.Lines.{line_feed};

use crate::error::{Reason, Stop};
use crate::instance::Instance;
use crate::rule::HeaderRule;
use crate::stage::{Header, Stage, expect, first_word, is_header, next_line, takes_comment};
use crate::words::{is_blank, item_in, number};
use gipsat_cnf::dimacs::Item;
use gipsat_cnf::{ClauseSink, Literal};
use std::alloc::Global;

// What has been read of a text.
#[derive(Drop)]
pub struct Parser<S: ClauseSink> {
    // It has the clauses that have ended.
    pub clauses: S,
    // The literals of the clause that has not ended.
    pub clause: Vec<Literal>,
    // The word that has not ended.
    pub word: Vec<u8>,
    pub stage: Stage,
    pub in_comment: bool,
    pub rule: HeaderRule,
}

impl<S: ClauseSink + Drop> Parser<S> {
    // Before a text, whose clauses go to what has none.
    pub fn new(alloc: Global, rule: HeaderRule, clauses: S) -> Self
        requires empty { S.formula clauses ≡ [] }
        ensures reading { IsReading result }
        ensures all { (text : List ℕ) → problem_from S.formula result text ≡ problem_by rule text }
    {
        Parser {
            clauses,
            clause: Vec::new(alloc),
            word: Vec::new(alloc),
            stage: Stage::Start,
            in_comment: false,
            rule,
        }
    }

    // Reads a byte more.
    pub fn byte(&mut self, byte: u8) -> Result<(), Stop>
        requires reading { IsReading self.old }
        ensures reading { OnOk result (IsReading self.new) }
        ensures ok { OnOk result (SaysOn S.formula self.old (byte ∷ []) self.new) }
        ensures err { IfErr result (OnRefusal (SaysNothing S.formula self.old (byte ∷ []))) }
    {
        if byte == b'\n' {
            return self.end_line();
        }
        if self.in_comment {
            return Ok(());
        }
        if is_blank(byte) {
            return self.end_word();
        }
        if self.begins_comment(byte) {
            self.end_word()?;
            self.in_comment = true;
            return Ok(());
        }
        if self.begins_end(byte) {
            self.stage = Stage::Ended(self.ended()?);
            self.in_comment = true;
            return Ok(());
        }
        self.word.push(byte)?;
        Ok(())
    }

    // Whether a byte begins a comment.
    fn begins_comment(&self, byte: u8) -> bool
        ensures { result ≡ begins_comment byte self.now.rule self.now.stage self.now.word.items }
    {
        byte == b'c' && takes_comment(self.rule, self.stage, &self.word)
    }

    // Whether a byte begins a line that ends the text.
    fn begins_end(&self, byte: u8) -> bool
        ensures { result ≡ begins_end byte self.now.word.items self.now.stage }
    {
        byte == b'%' && self.word.is_empty() && self.stage.begins_line()
    }

    // Ends the line.
    fn end_line(&mut self) -> Result<(), Stop>
        requires reading { IsReading self.old }
        ensures reading { OnOk result (IsReading self.new) }
        ensures ok { OnOk result (SaysOn S.formula self.old (line_feed ∷ []) self.new) }
        ensures err { IfErr result (OnRefusal (SaysNothing S.formula self.old (line_feed ∷ []))) }
    {
        if self.stage.is_ended() {
            return Ok(());
        }
        self.in_comment = false;
        self.end_word()?;
        self.stage = next_line(self.stage)?;
        Ok(())
    }

    // Ends the word, if there is one.
    fn end_word(&mut self) -> Result<(), Stop>
        requires reading { IsReading self.old }
        ensures word { OnOk result (self.new.word.items ≡ []) }
        ensures comment { self.new.in_comment ≡ self.old.in_comment }
        ensures ok { OnOk result (EndsWord S.formula self.old self.new) }
        ensures err { IfErr result (OnRefusal (EndsNoWord S.formula self.old)) }
    {
        if self.word.is_empty() {
            return Ok(());
        }
        self.stage = self.take_word()?;
        self.word.clear();
        Ok(())
    }

    // The stage after the word.
    fn take_word(&mut self) -> Result<Stage, Stop>
        requires some { 0 < length self.old.word.items }
        requires no_comment { takes_comment self.old.rule self.old.stage self.old.word.items ≡ true →
            has_comment self.old.word.items ≡ false }
        requires no_comment_line { begins_line self.old.stage ≡ true →
            begins comment_byte self.old.word.items ≡ false }
        requires no_end { begins_line self.old.stage ≡ true → begins end_byte self.old.word.items ≡ false }
        ensures comment { self.new.in_comment ≡ self.old.in_comment }
        ensures ok { IfOk result (λ stage. TakesWord S.formula self.old.stage self.old stage self.new) }
        ensures err { IfErr result (OnRefusal (TakesNoWord S.formula self.old.stage self.old)) }
    {
        match self.stage {
            Stage::Start => self.take_first(),
            Stage::Problem => Ok(expect(&self.word, b"cnf", Stage::Format)?),
            Stage::Format => Ok(Stage::Variables(number(&self.word)?)),
            Stage::Variables(variables) => {
                let left = number(&self.word)?;
                Ok(Stage::Clauses(Header { variables, left }))
            }
            Stage::Clauses(_) => Err(Stop::Refused(Reason::Header)),
            Stage::Line(header) => self.take_item(header),
            Stage::Words(header) => self.take_item(header),
            Stage::Ended(variables) => Ok(Stage::Ended(variables)),
        }
    }

    // The stage after the word, which is the first.
    fn take_first(&mut self) -> Result<Stage, Stop>
        requires some { 0 < length self.old.word.items }
        requires no_comment { takes_comment self.old.rule Start self.old.word.items ≡ true →
            has_comment self.old.word.items ≡ false }
        requires no_comment_line { begins comment_byte self.old.word.items ≡ false }
        requires no_end { begins end_byte self.old.word.items ≡ false }
        ensures comment { self.new.in_comment ≡ self.old.in_comment }
        ensures ok { IfOk result (λ stage. TakesWord S.formula Start self.old stage self.new) }
        ensures err { IfErr result (OnRefusal (TakesNoWord S.formula Start self.old)) }
    {
        if is_header(self.rule, &self.word) {
            return Ok(first_word(&self.word)?);
        }
        self.take_item(Header::NONE)
    }

    // The stage after the word, which is one of a clause.
    fn take_item(&mut self, header: Header) -> Result<Stage, Stop>
        requires no_comment { has_comment self.old.word.items ≡ false }
        ensures comment { self.new.in_comment ≡ self.old.in_comment }
        ensures ok { IfOk result (λ stage. TakesWord S.formula (Words header) self.old stage self.new) }
        ensures err { IfErr result (OnRefusal (TakesNoWord S.formula (Words header) self.old)) }
    {
        let item = item_in(&self.word, self.rule.variable_limit(header.variables))?;
        if header.is_full(self.rule) {
            return Err(Stop::Refused(Reason::MoreClauses));
        }
        match item {
            Item::Literal(l) => {
                self.clause.push(l)?;
                Ok(Stage::Words(header.with_literal(self.rule, l)))
            }
            Item::End => {
                self.clauses.add_clause(&self.clause)?;
                self.clause.clear();
                Ok(Stage::Words(Header {
                    variables: header.variables,
                    left: header.left.saturating_sub(1),
                }))
            }
        }
    }

    // The number of variables and the clauses, where the text has ended.
    pub fn finish(mut self) -> Result<Instance<S>, Stop>
        requires reading { IsReading self }
        ensures ok { IfOk result (λ f. problem_from S.formula self [] ≡
            Some (record { variables = f.variables; clauses = S.formula f.clauses })) }
        ensures err { IfErr result (OnRefusal (problem_from S.formula self [] ≡ None)) }
    {
        self.in_comment = false;
        self.end_word()?;
        Ok(self.close()?)
    }

    // The formula, where the text may end.
    fn close(self) -> Result<Instance<S>, Reason>
        ensures ok { IfOk result (λ f. problem_next S.formula self [] [] ≡
            Some (record { variables = f.variables; clauses = S.formula f.clauses })) }
        ensures err { OnErr result (problem_next S.formula self [] [] ≡ None) }
    {
        let variables = self.ended()?;
        Ok(Instance {
            variables,
            clauses: self.clauses,
        })
    }

    // The number of variables, where the text may end.
    fn ended(&self) -> Result<u32, Reason>
        ensures ok { IfOk result (λ n. problem_next S.formula self.now [] [] ≡
            Some (record { variables = n; clauses = S.formula self.now.clauses })) }
        ensures err { OnErr result (problem_next S.formula self.now [] [] ≡ None) }
    {
        match self.stage {
            Stage::Start => match self.rule {
                HeaderRule::Strict => Err(Reason::Header),
                HeaderRule::Relaxed => self.ended_after(Header::NONE),
            },
            Stage::Problem | Stage::Format | Stage::Variables(_) => Err(Reason::Header),
            Stage::Clauses(header) | Stage::Line(header) | Stage::Words(header) => {
                self.ended_after(header)
            }
            Stage::Ended(variables) => Ok(variables),
        }
    }

    // The number of variables, where the text may end after this header and what was read.
    fn ended_after(&self, header: Header) -> Result<u32, Reason>
        ensures ok { IfOk result (λ n.
            problem_left self.now.rule header (S.formula self.now.clauses) self.now.clause.items [] ≡
            Some (record { variables = n; clauses = S.formula self.now.clauses })) }
        ensures err { OnErr result
            (problem_left self.now.rule header (S.formula self.now.clauses) self.now.clause.items [] ≡ None) }
    {
        if !self.clause.is_empty() {
            return Err(Reason::OpenClause);
        }
        if header.is_short(self.rule) {
            return Err(Reason::FewerClauses);
        }
        Ok(header.variables)
    }
}
