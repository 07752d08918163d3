//! What the words of a command line ask for.
ghost use Rattle.std.specs.Prelude.{◌≡◌, map, string_bytes};
ghost use Rattle.std.specs.Option.{option_map};
ghost use Rattle.std.specs.Result.{result_map_both};
ghost use Rattle.gip_cli.specs.Asked.{asked_said};
ghost use Rattle.gip_cli.specs.Items.{given_said};
ghost use Rattle.gip_cli.specs.Options.{entry_of};
ghost use Rattle.gipmc_command.specs.Misuses.{misuse_of};
ghost use Rattle.gipmc_command.specs.Options.{request, request_of, subject_of, table};
ghost use Rattle.gipmc_command.specs.Words.{answer_of, checks, heeded, join, list, of_all, parts, search};
ghost use Rattle.gipmc_command.specs.Words.{work, work_asked, work_of};

use crate::about::{LIMIT, OPTIONS, PROPERTY, SEARCH};
use crate::misuse::UsageError;
use gip_cli::{Asked, Given, Info, Opt, input};
use gipmc_aiger::{Property, Subject};

/// What the arguments ask for.
#[derive(Clone, Copy)]
pub enum Task<'a> {
    /// To tell what the options do, or the version.
    Tell(Info),
    /// To answer about a circuit.
    Search(Options<'a>),
    /// To replay the witness in this file. None is standard input.
    Replay(Options<'a>, Option<&'a str>),
    /// To certify by the certificate in this file. None is standard input.
    Certify(Options<'a>, Option<&'a str>),
    /// To list the properties of a circuit.
    List(Options<'a>),
    /// To join certificates to one in this file. The options name them behind the circuit.
    Join(Options<'a>, &'a str),
}

impl<'a> Task<'a> {
    /// What some words ask for.
    ///
    /// # Errors
    ///
    /// That of the first word that has no meaning where it stands, or else that words have none together.
    pub fn parse(words: &'a [String]) -> Result<Self, UsageError<'a>>
        ensures { result_map_both work_of misuse_of result ≡ work_asked (map string_bytes words.now) }
    {
        Task::parse_by(OPTIONS, words)
    }

    // What some words ask for by the table of the options.
    fn parse_by(options: &'static [Opt], words: &'a [String]) -> Result<Self, UsageError<'a>>
        requires options { map entry_of options.now ≡ table }
        ensures { result_map_both work_of misuse_of result ≡ work_asked (map string_bytes words.now) }
    {
        let asked = Asked::new(options, words);
        match asked.info() {
            Ok(Some(info)) => Ok(Task::Tell(info)),
            Ok(None) => work(asked),
            Err(fault) => Err(UsageError::Words(fault)),
        }
    }
}

/// What is asked about which circuit. What an option says that stands alone is asked of the words.
#[derive(Clone, Copy)]
pub struct Options<'a> {
    /// The words.
    pub asked: Asked<'a>,
    /// The file of the circuit, if not standard input.
    pub file: Option<&'a str>,
    /// The properties that are asked about. Of the options that say so the last one counts.
    pub subject: Subject,
}

impl<'a> Options<'a> {
    // What these words ask for.
    fn new(asked: Asked<'a>) -> Self
        ensures { request_of result ≡ request (asked_said asked.entry) }
    {
        Options {
            asked,
            file: asked.input(0),
            subject: subject_of(asked.last_in(PROPERTY)),
        }
    }
}

// What an option about properties asks about. Where none is given, all are asked about.
fn subject_of(given: Option<Given>) -> Subject
    ensures { result ≡ subject_of (option_map given_said given.entry) }
{
    let Some(given) = given else {
        return Subject::All;
    };
    match given.number() {
        Some(place) if given.option.long == "--bad" => Subject::One(Property::Bad(place)),
        Some(place) => Subject::One(Property::Justice(place)),
        None => Subject::Any,
    }
}

// To join certificates, or what is done of one file at most.
fn work<'a>(asked: Asked<'a>) -> Result<Task<'a>, UsageError<'a>>
    ensures { result_map_both work_of misuse_of result ≡ work (asked_said asked.entry) }
{
    if let Some(out) = asked.word("--join") {
        return join(asked, out);
    }
    if let Some(name) = asked.file(1) {
        return Err(UsageError::ExtraFile(name));
    }
    if asked.has("--list") {
        return list(asked);
    }
    search(asked)
}

// To join certificates of all bad literals to one in this file.
fn join<'a>(asked: Asked<'a>, out: &'a str) -> Result<Task<'a>, UsageError<'a>>
    ensures { result_map_both work_of misuse_of result ≡ join (asked_said asked.entry) out.now }
{
    if asked.has("--list") || checks(asked) {
        return Err(UsageError::TwoTasks);
    }
    heeded(asked, false)?;
    of_all(asked)?;
    parts(asked)?;
    Ok(Task::Join(Options::new(asked), out))
}

// Tests that a certificate is named behind the circuit.
fn parts<'a>(asked: Asked<'a>) -> Result<(), UsageError<'a>>
    ensures { result_map_both (λ done. done) misuse_of result ≡ parts (asked_said asked.entry) }
{
    match asked.file(1) {
        Some(_) => Ok(()),
        None => Err(UsageError::NoPart),
    }
}

// To list the properties.
fn list<'a>(asked: Asked<'a>) -> Result<Task<'a>, UsageError<'a>>
    ensures { result_map_both work_of misuse_of result ≡ list (asked_said asked.entry) }
{
    if checks(asked) {
        return Err(UsageError::TwoTasks);
    }
    heeded(asked, true)?;
    of_all(asked)?;
    Ok(Task::List(Options::new(asked)))
}

// Whether an answer is to be checked.
fn checks(asked: Asked) -> bool
    ensures { result ≡ checks (asked_said asked.entry) }
{
    asked.has("--replay") || asked.has("--certify")
}

// Tests that no property is asked about.
fn of_all<'a>(asked: Asked<'a>) -> Result<(), UsageError<'a>>
    ensures { result_map_both (λ done. done) misuse_of result ≡ of_all (asked_said asked.entry) }
{
    match asked.last_in(PROPERTY) {
        Some(given) => Err(UsageError::NoProperty(given.word)),
        None => Ok(()),
    }
}

// A search, or a check of one answer.
fn search<'a>(asked: Asked<'a>) -> Result<Task<'a>, UsageError<'a>>
    ensures { result_map_both work_of misuse_of result ≡ search (asked_said asked.entry) }
{
    let options = Options::new(asked);
    match (asked.word("--replay"), asked.word("--certify")) {
        (None, None) => Ok(Task::Search(options)),
        (Some(witness), None) => {
            heeded(asked, true)?;
            Ok(Task::Replay(options, answer(&options, witness)?))
        }
        (None, Some(certificate)) => {
            heeded(asked, false)?;
            Ok(Task::Certify(options, answer(&options, certificate)?))
        }
        (Some(_), Some(_)) => Err(UsageError::TwoTasks),
    }
}

// Tests that no option of a search is given, and no limit where none is heeded.
fn heeded<'a>(asked: Asked<'a>, unlimited: bool) -> Result<(), UsageError<'a>>
    ensures { result_map_both (λ done. done) misuse_of result ≡ heeded unlimited (asked_said asked.entry) }
{
    if let Some(given) = asked.last_in(SEARCH) {
        return Err(UsageError::NoSearch(given.word));
    }
    match asked.last_in(LIMIT) {
        Some(given) if unlimited => Err(UsageError::NoLimit(given.word)),
        _ => Ok(()),
    }
}

// The file of an answer that is checked beside these options.
fn answer<'a>(options: &Options<'a>, name: &'a str) -> Result<Option<&'a str>, UsageError<'a>>
    ensures { result_map_both (option_map (λ name. name.now)) misuse_of result ≡
        answer_of (request_of options.now) name.now }
{
    let answer = input(name);
    if options.file.is_none() && answer.is_none() {
        return Err(UsageError::InputTwice);
    }
    Ok(answer)
}
