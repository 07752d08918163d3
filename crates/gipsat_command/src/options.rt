//! What the words of a command line ask for.
ghost use Rattle.std.specs.Prelude.{◌≡◌, codes, map, string_bytes};
ghost use Rattle.std.specs.Option.{option_map};
ghost use Rattle.std.specs.Result.{result_map_both};
ghost use Rattle.gip_cli.specs.Asked.{asked_said, file_at, has, number, said_by, word};
ghost use Rattle.gip_cli.specs.Options.{entry_of};
ghost use Rattle.gipsat_command.specs.Misuses.{misuse_of};
ghost use Rattle.gipsat_command.specs.Options.{clash, models_of, request, request_of, rule_of, said_of, table};
ghost use Rattle.gipsat_command.specs.Words.{check, checker, conversion, cubes_of, files_of, join, names_of, part, plain_check, search};
ghost use Rattle.gipsat_command.specs.Words.{work, work_asked, work_of};

use crate::about::{FORM, OPTIONS, SEARCH};
use crate::errors::UsageError;
use gip_cli::{Asked, Info, Opt, input};
use gipsat_dimacs::HeaderRule;

/// What the arguments ask for.
#[derive(Clone, Copy)]
pub enum Task<'a> {
    /// To tell what the options do, or the version.
    Tell(Info),
    /// To solve a formula.
    Solve(Options<'a>),
    /// To check a proof that nothing satisfies a formula: the files of the formula and of the proof. None is standard
    /// input.
    Check(Option<&'a str>, Option<&'a str>),
    /// To check a proof without hints, and to write one with hints in the form that the options say: the file of the proof,
    /// and that of the new one. None is standard input.
    Convert(Options<'a>, Option<&'a str>, &'a str),
    /// To write cubes of a formula, so many at most.
    Cubes(Options<'a>, usize),
    /// To solve a formula under one of some cubes: the file of the cubes, and the number of the one, which counts from 1.
    /// None is standard input.
    Part(Options<'a>, Option<&'a str>, usize),
    /// To join proofs of all parts, which the options name behind two other files: the file of the cubes, and that of the
    /// new proof. None is standard input.
    Join(Options<'a>, Option<&'a str>, &'a str),
}

impl<'a> Task<'a> {
    /// What some words ask for.
    ///
    /// # Errors
    ///
    /// That of the first word that has no meaning where it stands, or else that words have none together, or that one is
    /// missing.
    pub fn parse(words: &'a [String]) -> Result<Self, UsageError<'a>>
        ensures { result_map_both work_of misuse_of result ≡ work_asked (map string_bytes words.now) }
    {
        Task::parse_by(OPTIONS, words)
    }

    // What some words ask for by the table of the options.
    fn parse_by(options: &'static [Opt], words: &'a [String]) -> Result<Self, UsageError<'a>>
        requires options { map entry_of options.now ≡ table }
        ensures { result_map_both work_of misuse_of result ≡ work_asked (map string_bytes words.now) }
    {
        let asked = asked_by(options, words);
        match asked.info() {
            Ok(Some(info)) => Ok(Task::Tell(info)),
            Ok(None) => work(asked, words),
            Err(fault) => Err(UsageError::Words(fault)),
        }
    }
}

/// How to solve a formula: the words, and what of them the contracts of answers speak of. All else is asked of the
/// words.
#[derive(Clone, Copy)]
pub struct Options<'a> {
    /// The words.
    pub words: &'a [String],
    /// The file to read, if not standard input.
    pub file: Option<&'a str>,
    /// After how many conflicts to give up.
    pub conflicts: usize,
    /// Whether to write the values that satisfy the formula.
    pub witness: bool,
    /// How many models to write, if several.
    pub models: Option<usize>,
    /// What the counts of the header mean.
    pub rule: HeaderRule,
    /// Whether to overwrite the proof's file also where it may be a formula, or no file to read is named.
    pub force: bool,
}

impl<'a> Options<'a> {
    // What these words ask for.
    fn new(asked: Asked<'a>, words: &'a [String]) -> Self
        requires { asked_said asked ≡ said_by table (map string_bytes words.now) }
        ensures { request_of result ≡ request (asked_said asked.entry) }
    {
        Options {
            words,
            file: asked.input(0),
            conflicts: asked.number("--conflicts").unwrap_or(usize::MAX),
            witness: !asked.has("--no-witness"),
            models: models_of(asked.number("--models")),
            rule: rule_of(asked.has("--relaxed")),
            force: asked.has("--force"),
        }
    }

    // What the words say.
    fn asked(&self) -> Asked<'a>
        ensures { asked_said result ≡ said_of self.now }
    {
        asked_by(OPTIONS, self.words)
    }

    /// Whether the option of this long name is given.
    pub fn has(&self, name: &str) -> bool
        ensures { result ≡ has name.now (said_of self.now) }
    {
        self.asked().has(name)
    }

    /// The number behind the option of this long name: the last one, if it is given several times.
    pub fn number(&self, name: &str) -> Option<usize>
        ensures { result ≡ number name.now (said_of self.now) }
    {
        self.asked().number(name)
    }

    /// The name of the file at this place among those that are named, counted from 0.
    pub fn file_at(&self, place: usize) -> Option<&'a str>
        ensures { option_map (λ name. name.now) result ≡ file_at place (said_of self.now) }
    {
        self.asked().file(place)
    }

    /// The word behind the option of this long name: the last one, if it is given several times.
    pub fn word(&self, name: &str) -> Option<&'a str>
        ensures { option_map (λ word. word.now) result ≡ word name.now (said_of self.now) }
    {
        self.asked().word(name)
    }
}

// What some words say by a table that is that of the options.
fn asked_by<'a>(options: &'static [Opt], words: &'a [String]) -> Asked<'a>
    requires options { map entry_of options.now ≡ table }
    ensures { asked_said result ≡ said_by table (map string_bytes words.now) }
{
    Asked::new(options, words)
}

// How many models this number asks for: 0 stands for all.
fn models_of(given: Option<usize>) -> Option<usize>
    ensures { result ≡ option_map models_of given }
{
    match given {
        Some(0) => Some(usize::MAX),
        count => count,
    }
}

// What the counts of the header mean.
fn rule_of(is_relaxed: bool) -> HeaderRule
    ensures { result ≡ rule_of is_relaxed }
{
    if is_relaxed {
        HeaderRule::Relaxed
    } else {
        HeaderRule::Strict
    }
}

// To join proofs, or a search or a check, of two files at most.
fn work<'a>(asked: Asked<'a>, words: &'a [String]) -> Result<Task<'a>, UsageError<'a>>
    requires { asked_said asked ≡ said_by table (map string_bytes words.now) }
    ensures { result_map_both work_of misuse_of result ≡ work (asked_said asked.entry) }
{
    if let Some(out) = asked.word("--join") {
        return join(asked, words, out);
    }
    if let Some(name) = asked.file(2) {
        return Err(UsageError::ExtraFile(name));
    }
    if asked.has("--check") || asked.has("--lrat-from-drat") {
        return check(asked, words);
    }
    search(asked, words)
}

// To join proofs to one in this file: with no option besides but those of the proof that it writes.
fn join<'a>(asked: Asked<'a>, words: &'a [String], out: &'a str) -> Result<Task<'a>, UsageError<'a>>
    requires { asked_said asked ≡ said_by table (map string_bytes words.now) }
    ensures { result_map_both work_of misuse_of result ≡ join (asked_said asked.entry) out.now }
{
    if let Some(given) = asked.last_in(SEARCH) {
        return Err(UsageError::NotFor("--join", given.word));
    }
    if asked.has("--check") || asked.has("--lrat-from-drat") {
        return Err(UsageError::CheckOfMore);
    }
    let cubes = cubes_of(asked)?;
    Ok(Task::Join(Options::new(asked, words), cubes, out))
}

// The search: of one file at most, with options that have a meaning together. Under a cube there is a file of cubes too.
fn search<'a>(asked: Asked<'a>, words: &'a [String]) -> Result<Task<'a>, UsageError<'a>>
    requires { asked_said asked ≡ said_by table (map string_bytes words.now) }
    ensures { result_map_both work_of misuse_of result ≡ search (asked_said asked.entry) }
{
    if let Some(number) = asked.number("--cube") {
        return part(asked, words, number);
    }
    if let Some(name) = asked.file(1) {
        return Err(UsageError::ExtraFile(name));
    }
    if let Some(error) = clash(asked) {
        return Err(error);
    }
    match asked.number("--cubes") {
        Some(most) => Ok(Task::Cubes(Options::new(asked, words), most)),
        None => Ok(Task::Solve(Options::new(asked, words))),
    }
}

// The search under the cube of this number, which has a file of cubes.
fn part<'a>(
    asked: Asked<'a>,
    words: &'a [String],
    number: usize,
) -> Result<Task<'a>, UsageError<'a>>
    requires { asked_said asked ≡ said_by table (map string_bytes words.now) }
    ensures { result_map_both work_of misuse_of result ≡ part (asked_said asked.entry) number }
{
    if let Some(error) = clash(asked) {
        return Err(error);
    }
    let cubes = cubes_of(asked)?;
    Ok(Task::Part(Options::new(asked, words), cubes, number))
}

// The file of cubes behind that of a formula, one of which may be standard input.
fn cubes_of<'a>(asked: Asked<'a>) -> Result<Option<&'a str>, UsageError<'a>>
    ensures { result_map_both (option_map (λ name. name.now)) misuse_of result ≡ cubes_of (asked_said asked.entry) }
{
    let (Some(formula), Some(cubes)) = (asked.file(0), asked.file(1)) else {
        return Err(UsageError::MissingCubes);
    };
    if formula == "-" && cubes == "-" {
        return Err(UsageError::InputTwice);
    }
    Ok(input(cubes))
}

// Why these options have no meaning together.
fn clash<'a>(asked: Asked<'a>) -> Option<UsageError<'a>>
    ensures { option_map misuse_of result ≡ clash (asked_said asked.entry) }
{
    if asked.has("--lrat") && !asked.has("--proof") {
        return Some(UsageError::MissingProof);
    }
    if asked.has("--project") && !asked.has("--models") {
        return Some(UsageError::MissingModels);
    }
    if asked.has("--proof") && (asked.has("--assume") || asked.has("--models")) {
        return Some(UsageError::ProofOfMore);
    }
    if asked.has("--cube") && (asked.has("--assume") || asked.has("--models")) {
        return Some(UsageError::PartOfMore);
    }
    if asked.has("--cube") && asked.has("--proof") && !asked.has("--lrat") {
        return Some(UsageError::MissingHints);
    }
    if asked.has("--cubes") && (asked.has("--assume") || asked.has("--models")) {
        return Some(UsageError::CubesOfMore);
    }
    if asked.has("--cubes") && (asked.has("--proof") || asked.has("--cube")) {
        return Some(UsageError::CubesOfMore);
    }
    None
}

// The check: with no option besides but those of the proof that it writes.
fn check<'a>(asked: Asked<'a>, words: &'a [String]) -> Result<Task<'a>, UsageError<'a>>
    requires { asked_said asked ≡ said_by table (map string_bytes words.now) }
    ensures { result_map_both work_of misuse_of result ≡ check (asked_said asked.entry) }
{
    if let Some(given) = asked.last_in(SEARCH) {
        return Err(UsageError::NotFor(checker(asked), given.word));
    }
    match asked.word("--lrat-from-drat") {
        Some(out) => conversion(asked, words, out),
        None => plain_check(asked),
    }
}

// The option that asks for a check, with or without a proof to write.
fn checker(asked: Asked) -> &'static str
    ensures { result.now ≡ checker (word (codes "--lrat-from-drat") (asked_said asked.entry)) }
{
    if asked.word("--lrat-from-drat").is_some() {
        "--lrat-from-drat"
    } else {
        "--check"
    }
}

// The check that writes no proof.
fn plain_check<'a>(asked: Asked<'a>) -> Result<Task<'a>, UsageError<'a>>
    ensures { result_map_both work_of misuse_of result ≡ plain_check (asked_said asked.entry) }
{
    if let Some(given) = asked.last_in(FORM) {
        return Err(UsageError::NotFor("--check", given.word));
    }
    let Inputs { formula, proof } = files(asked)?;
    Ok(Task::Check(formula, proof))
}

// The check that writes a proof to this file.
fn conversion<'a>(
    asked: Asked<'a>,
    words: &'a [String],
    out: &'a str,
) -> Result<Task<'a>, UsageError<'a>>
    requires { asked_said asked ≡ said_by table (map string_bytes words.now) }
    ensures { result_map_both work_of misuse_of result ≡ conversion (asked_said asked.entry) out.now }
{
    let Inputs { formula: _, proof } = files(asked)?;
    Ok(Task::Convert(Options::new(asked, words), proof, out))
}

// The files of a formula and of a proof. None is standard input.
#[derive(Clone, Copy)]
struct Inputs<'a> {
    formula: Option<&'a str>,
    proof: Option<&'a str>,
}

// The two files of a check, one of which may be standard input.
fn files<'a>(asked: Asked<'a>) -> Result<Inputs<'a>, UsageError<'a>>
    ensures { result_map_both names_of misuse_of result ≡ files_of (asked_said asked.entry) }
{
    let (Some(formula), Some(proof)) = (asked.file(0), asked.file(1)) else {
        return Err(UsageError::MissingFile);
    };
    if formula == "-" && proof == "-" {
        return Err(UsageError::InputTwice);
    }
    Ok(Inputs {
        formula: input(formula),
        proof: input(proof),
    })
}
