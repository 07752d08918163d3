//! What the program tells of itself, and its options.
use gip_cli::{About, Kind, Opt};

/// The scope of options that each task heeds.
pub const EACH: &str = "each";

/// The scope of options that say which property is asked about. The last one counts. A list is of all properties, and a
/// joined certificate of all bad literals: beside these each such option is refused.
pub const PROPERTY: &str = "property";

/// The scope of options that a search alone heeds.
pub const SEARCH: &str = "search";

/// The scope of options that a replay and a list do not heed.
pub const LIMIT: &str = "limit";

/// What the program tells of itself.
pub const ABOUT: About = About {
    version: "gipmc 0.1.0",
    usage: &[
        "gipmc [OPTION]... [FILE]",
        "gipmc --join OUT [OPTION]... FILE PART...",
    ],
    summary: &[
        "Reads a circuit in the ascii or the binary form of AIGER 1.9 from FILE, or from standard input where none is \
         named or its name is -, and finds out whether its bad states can be reached. One search is about all bad \
         literals; each answer is written once it and those before it are known, since lines `u N` are about the next \
         one.",
        "An answer is some lines: `1` where a bad state is reachable, `0` where none is, or `2` where that is open; \
         `b` with the literal's place (from 0 on); behind a `1` a witness, the values of the latches at first, and \
         those of the inputs at each moment; and `.`. A line `u N` before a `2` says that no counterexample has N \
         transitions or fewer. Where standard output is no terminal, such lines also tell before an answer how far the \
         search has come.",
        "Justice properties follow, with `j` in place of `b`: a witness is a lasso, and `0` says that on no run each \
         literal of the property and each fairness constraint is true again and again. Where the circuit has neither \
         bad literals nor justice properties, its outputs are taken for bad literals; where it has no output either, \
         no answer is written.",
    ],
    options: OPTIONS,
    note: "The option --shortest is about bad literals alone. The value of a long option may also stand behind `=`, \
           and that of a short one right behind it: --depth=20, -t9.",
    statuses: "Exit status: 10 unsafe, a bad state is reachable or a justice property fails; 20 safe, neither; 0 open, \
               verified, listed, or help; 1 an error, or not verified; 2 arguments that have no meaning. By \
               --exit-zero it is 0 in place of 10 and 20.",
};

/// The options.
pub const OPTIONS: &[Opt] = &[
    Opt {
        long: "--bad",
        short: "",
        kind: Kind::Number("I"),
        scope: PROPERTY,
        section: "Input",
        help: "only the bad literal at place I",
    },
    Opt {
        long: "--justice",
        short: "",
        kind: Kind::Number("I"),
        scope: PROPERTY,
        section: "Input",
        help: "only the justice property at place I. Then the clauses of --certificate and --certify are over the \
               latches and further ones behind these: they count how often its literals and the fairness constraints \
               were met in turn or, where a first line is `c no lasso`, save a state and tell what was met since",
    },
    Opt {
        long: "--any",
        short: "",
        kind: Kind::Switch,
        scope: PROPERTY,
        section: "Input",
        help: "one answer for all bad literals, and none for justice properties: `1` with the first trace that is \
               found, which ends the search, and `b` with the place of its literal; `0` with `b0` if all are safe; or \
               `2` with the first literal of which least is known. Of --bad, --justice and --any the last one counts; \
               for --replay and --certify, --any is as if none were given",
    },
    Opt {
        long: "--engine",
        short: "",
        kind: Kind::Choice("ENGINE", &["sim", "bmc", "ic3", "induction", "states"]),
        scope: SEARCH,
        section: "Search",
        help: "only this one: sim (random simulation), bmc (bounded model checking), ic3, induction (k-induction, and \
               bmc for its base), or states (one state after another, of circuits with at most 63 latches and 10 \
               inputs); without this, simulation for a moment, and then bmc, induction, ic3 and states by turns",
    },
    Opt {
        long: "--depth",
        short: "",
        kind: Kind::Number("N"),
        scope: SEARCH,
        section: "Search",
        help: "bmc asks for traces of at most N transitions (100 with --engine bmc, else without bound)",
    },
    Opt {
        long: "--limit",
        short: "",
        kind: Kind::Number("N"),
        scope: LIMIT,
        section: "Search",
        help: "leave a question to a solver open after N conflicts, of bmc, induction, --shortest and --certify \
               (--conflicts of gipsat is about a whole search); without this there is no bound",
    },
    Opt {
        long: "--time",
        short: "-t",
        kind: Kind::Number("SECONDS"),
        scope: SEARCH,
        section: "Search",
        help: "give up so many seconds after the start: what is not known then is open. Each engine may do one step \
               more",
    },
    Opt {
        long: "--memory",
        short: "",
        kind: Kind::Number("MB"),
        scope: SEARCH,
        section: "Search",
        help: "give up once the program has taken MB megabytes, of 2^20 bytes: what is not known then is open. It is \
               looked at where the time is, so one step may take more",
    },
    Opt {
        long: "--seed",
        short: "",
        kind: Kind::Number("N"),
        scope: SEARCH,
        section: "Search",
        help: "the seed of random simulation (0)",
    },
    Opt {
        long: "--shortest",
        short: "",
        kind: Kind::Switch,
        scope: SEARCH,
        section: "Search",
        help: "where a trace was found, look by bmc for a shortest one, and answer with that; where --time or --limit \
               end this, with the first one, and say so",
    },
    Opt {
        long: "--replay",
        short: "",
        kind: Kind::Input("WITNESS"),
        scope: EACH,
        section: "Answers of other programs",
        help: "write `s VERIFIED` if each trace in the file WITNESS is a counterexample, or `s NOT VERIFIED`, and on \
               standard error why. With --bad or --justice, only what WITNESS has of this property counts, and it has \
               to have some. A trace by write_cex -a of abc, which names none, stands for the bad literal that is \
               asked for, or for the first",
    },
    Opt {
        long: "--certify",
        short: "",
        kind: Kind::Input("FILE"),
        scope: EACH,
        section: "Answers of other programs",
        help: "write `s VERIFIED` if the certificate in FILE shows that no bad state is reachable, or `s NOT \
               VERIFIED`, and on standard error why: it does not, or a question is left open by --limit. A certificate \
               is clauses over latches in the DIMACS form; a line `k N`: each bad literal is false at the first N \
               moments, and behind any N moments at which it is false; that line and clauses behind it, one of which \
               shows each bad literal false; or a circuit in a form of AIGER whose bad literals are false, and \
               constraints true, where an invariant holds. It may have further inputs and latches; symbols `= n` tell \
               which literals of the circuit it shares",
    },
    Opt {
        long: "--list",
        short: "",
        kind: Kind::Switch,
        scope: EACH,
        section: "Many properties",
        help: "write a line for each property, in the order of the answers: `b` or `j` with its place, and how many \
               latches, gates and inputs it and the constraints depend on. Nothing is searched",
    },
    Opt {
        long: "--join",
        short: "",
        kind: Kind::Output("OUT"),
        scope: EACH,
        section: "Many properties",
        help: "put the clauses of the certificates PART... together, as searches with --bad write them. If they show \
               of all bad literals that no bad state is reachable, write them to the file OUT, which must not be \
               there, and `s VERIFIED`; else `s NOT VERIFIED`, and on standard error why. A part is clauses alone, as \
               --engine ic3 finds them: no line `k N`, and no circuit",
    },
    Opt {
        long: "--certificate",
        short: "",
        kind: Kind::Output("F"),
        scope: SEARCH,
        section: "Output",
        help: "write a certificate to the file F, which must not be there, if no bad state is reachable, or the one \
               justice property that is asked about holds: clauses, which `--certify F` checks. The search may take \
               longer then. A minus is refused, since standard output has the answer",
    },
    Opt {
        long: "--aiger",
        short: "",
        kind: Kind::Switch,
        scope: SEARCH,
        section: "Output",
        help: "write the certificate of --certificate as a circuit in the ascii form of AIGER: the same inputs and \
               latches, and a bad literal that is true outside of the invariant too. No k-induction searches then, \
               since a k has no circuit; beside --engine induction this is refused, and so it is for a justice \
               property",
    },
    Opt {
        long: "--names",
        short: "",
        kind: Kind::Switch,
        scope: SEARCH,
        section: "Output",
        help: "write behind the answers, for each property, lines that begin with c: its name in the circuit's file, \
               and whether it is safe or open, if it has one; or, where it fails, what each input and latch is at \
               first, and later where it changes; of a lasso, at the end, to which moment it leads back",
    },
    Opt {
        long: "--vcd",
        short: "",
        kind: Kind::Output("F"),
        scope: SEARCH,
        section: "Output",
        help: "write the trace of the first property that fails to the file F, which must not be there, as a value \
               change dump for a viewer of waves; in the loop of a lasso its signal lasso.again is true",
    },
    Opt {
        long: "--witness",
        short: "",
        kind: Kind::Text("PREFIX", "the front of file names"),
        scope: SEARCH,
        section: "Output",
        help: "write the witness of each property that fails to a file of its own, which must not be there: PREFIX, \
               then b or j and the property's place, then .aiw",
    },
    Opt {
        long: "--unordered",
        short: "",
        kind: Kind::Switch,
        scope: SEARCH,
        section: "Output",
        help: "write each answer about a bad literal soon after it is known, in whatever order, so that a run which is \
               stopped from outside keeps it. What is known is looked for some times at each depth of bmc. No lines \
               `u N` tell how far the search has come. It changes nothing where one answer is asked for (--bad, \
               --justice, --any)",
    },
    Opt {
        long: "--quiet",
        short: "-q",
        kind: Kind::Switch,
        scope: EACH,
        section: "Output",
        help: "write no progress; without this it is written where standard error is a terminal, and lines `u N` where \
               standard output is none",
    },
    Opt {
        long: "--verbose",
        short: "-v",
        kind: Kind::Switch,
        scope: EACH,
        section: "Output",
        help: "write progress every five seconds, and lines `u N`, whatever standard error and standard output are, \
               and also with -q",
    },
    Opt {
        long: "--stats",
        short: "",
        kind: Kind::Switch,
        scope: SEARCH,
        section: "Output",
        help: "write a summary on standard error, in lines that begin with c: of each property that was searched for \
               how far each engine that ran came, what decided, and the time; and at the end the time and the most \
               memory of all",
    },
    Opt {
        long: "--exit-zero",
        short: "",
        kind: Kind::Switch,
        scope: SEARCH,
        section: "Output",
        help: "end with status 0 whatever the answers are, for programs that read them; an error ends as ever",
    },
];
