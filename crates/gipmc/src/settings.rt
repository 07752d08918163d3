//! What the options say of a search, and of where its answers are written.
ghost use Rattle.std.specs.Prelude.{◌≡◌};
ghost use Rattle.std.specs.Option.{option_map};
ghost use Rattle.gipmc.specs.Plans.{depth_alone, depth_asked, depth_by, engine_asked, engine_by, engine_named};
ghost use Rattle.gipmc.specs.Plans.{limit_asked, seed_asked, wants_circuit};

use gipmc_command::Options;
use gipmc_engines::{Bounds, Engine, Plan, Tries};
use gipmc_task::{AnswerOrder, Certifying, Lost, Output, Traces};
use std::io::{IsTerminal, Stdout};

// How often simulation begins anew, and how many moments it has then.
const ROUNDS: usize = 2;

const MOMENTS: usize = 256;

// The most transitions of bounded model checking alone.
const DEPTH: usize = 100;

/// What searches, and how far.
pub fn plan_of(options: &Options) -> Plan
    ensures engine { result.engine ≡ engine_by (wants_circuit options.now) (engine_asked options.now) }
    ensures seed { result.tries.seed ≡ seed_asked options.now }
    ensures depth { result.bounds.depth ≡ depth_by (engine_asked options.now) (depth_asked options.now) }
    ensures limit { result.bounds.limit ≡ limit_asked options.now }
    ensures calls { result.bounds.calls ≡ usize.MAX }
    ensures gates { result.names_gates ≡ wants_circuit options.now }
{
    Plan {
        engine: engine_of(options),
        tries: Tries {
            seed: seed_asked(options) as u64,
            rounds: ROUNDS,
            moments: MOMENTS,
        },
        bounds: Bounds {
            depth: depth_of(options),
            limit: limit_asked(options),
            calls: usize::MAX,
        },
        // A search for one answer about all bad literals sets that.
        ends_at_trace: false,
        // Without a certificate equal latches and gates are merged. Behind that, gates in lemmas gain nothing.
        names_gates: wants_circuit(options),
    }
}

// Whether a certificate as a circuit is wanted.
fn wants_circuit(options: &Options) -> bool
    ensures { result ≡ wants_circuit options.now }
{
    options.asked.word("--certificate").is_some() && options.asked.has("--aiger")
}

// The seed of simulation.
fn seed_asked(options: &Options) -> usize
    ensures { result ≡ seed_asked options.now }
{
    options.asked.number("--seed").unwrap_or(0)
}

// The most transitions of bounded model checking.
fn depth_of(options: &Options) -> usize
    ensures { result ≡ depth_by (engine_asked options.now) (depth_asked options.now) }
{
    match options.asked.number("--depth") {
        Some(depth) => depth,
        None => depth_alone(engine_asked(options)),
    }
}

/// How many conflicts a question to a solver may have.
pub fn limit_asked(options: &Options) -> usize
    ensures { result ≡ limit_asked options.now }
{
    options.asked.number("--limit").unwrap_or(usize::MAX)
}

// The engine that is asked for.
fn engine_asked(options: &Options) -> Engine
    ensures { result ≡ engine_asked options.now }
{
    engine_named(options.asked.word("--engine"))
}

// The engine of this name. All engines have none.
fn engine_named(name: Option<&str>) -> Engine
    ensures { result ≡ engine_named (option_map (λ n. n.now) name.entry) }
{
    let Some(name) = name else {
        return Engine::All;
    };
    match name {
        "sim" => Engine::Simulation,
        "bmc" => Engine::Bounded,
        "ic3" => Engine::Ic3,
        "induction" => Engine::Induction,
        "states" => Engine::Explicit,
        _ => Engine::All,
    }
}

// The engine. An invariant makes a certificate that is a circuit.
fn engine_of(options: &Options) -> Engine
    ensures { result ≡ engine_by (wants_circuit options.now) (engine_asked options.now) }
{
    engine_by(wants_circuit(options), engine_asked(options))
}

// This engine; where all are to search, and a circuit is wanted, those that find invariants.
fn engine_by(is_circuit: bool, engine: Engine) -> Engine
    ensures { result ≡ engine_by is_circuit engine }
{
    match engine {
        Engine::All => all_but_induction(is_circuit),
        engine => engine,
    }
}

// All engines, or those that find invariants.
fn all_but_induction(is_invariant: bool) -> Engine
    ensures { result ≡ engine_by is_invariant Engine.All }
{
    if is_invariant {
        Engine::Invariants
    } else {
        Engine::All
    }
}

// How far bounded model checking goes, where that is not said: alone it would not end on a safe circuit.
fn depth_alone(engine: Engine) -> usize
    ensures { result ≡ depth_alone engine }
{
    match engine {
        Engine::Bounded => DEPTH,
        _ => usize::MAX,
    }
}

/// Standard output, as the options want answers to be written there.
pub fn output_of(rt: &HostRuntime, options: &Options) -> Output<Stdout> {
    let mut output = Output::new(rt.stdout(), lost(options));
    output.traces = traces_asked(options);
    output.order = order_asked(options);
    output.progress = tells_depths(rt, options);
    output.certifying = certifying(options);
    output
}

// What a certificate is to be made of, if one is wanted.
fn certifying(options: &Options) -> Certifying {
    match options.asked.word("--certificate") {
        Some(_) if options.asked.has("--aiger") => Certifying::Circuit,
        Some(_) => Certifying::Clauses,
        None => Certifying::Nothing,
    }
}

// What becomes of the search where an answer cannot be written: it goes on for the files that are wanted.
fn lost(options: &Options) -> Lost {
    let asked = &options.asked;
    if asked.has("--certificate") || asked.has("--vcd") || asked.has("--witness") {
        Lost::GoOn
    } else {
        Lost::Stop
    }
}

// Which traces are written.
fn traces_asked(options: &Options) -> Traces {
    if options.asked.has("--shortest") {
        Traces::Shortest
    } else {
        Traces::Found
    }
}

// In which order answers are written.
fn order_asked(options: &Options) -> AnswerOrder {
    if options.asked.has("--unordered") {
        AnswerOrder::Known
    } else {
        AnswerOrder::Places
    }
}

// Whether lines tell, before an answer, how far the search has come: in a file or a pipe, or where that is asked for.
fn tells_depths(rt: &HostRuntime, options: &Options) -> bool {
    options.asked.has("--verbose") || (!options.asked.has("--quiet") && !rt.stdout().is_terminal())
}
