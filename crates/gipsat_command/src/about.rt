//! What the program tells of itself, and its options.
use gip_cli::{About, Kind, Opt};

/// The scope of options that a check refuses.
pub const SEARCH: &str = "search";

/// The scope of options that say how a proof is written. A check that writes none refuses them.
pub const FORM: &str = "form";

/// The scope of options that ask for a check.
pub const CHECK: &str = "check";

/// What the program tells of itself.
pub const ABOUT: About = About {
    version: "gipsat 0.1.0",
    usage: &[
        "gipsat [OPTION]... [FORMULA]",
        "gipsat --check FORMULA PROOF",
        "gipsat --lrat-from-drat OUT FORMULA PROOF",
        "gipsat --cubes N [FORMULA]",
        "gipsat --cube I FORMULA CUBES",
        "gipsat --join OUT FORMULA CUBES [PROOF]...",
    ],
    summary: &[
        "Reads a formula in the DIMACS form from the file FORMULA, or from standard input where none is named or its name \
         is -, and writes `s SATISFIABLE` and values that satisfy it, `s UNSATISFIABLE`, or `s UNKNOWN` where a limit \
         ended the search.",
        "A line that begins with `a`, behind a header `p inccnf`, begins a question, which ends with a 0: it is answered, \
         under the assumptions that it has, as a formula of the clauses before it. The status is 10 where one is \
         satisfiable, and 20 where all are unsatisfiable.",
    ],
    options: OPTIONS,
    note: "The value of a long option may also stand behind `=`, and that of a short one right behind it: --time=60, \
           -t60.",
    statuses: "Exit status: 10 satisfiable, 20 unsatisfiable, 0 unknown, verified, or help; 1 an error, or not verified; 2 \
               arguments that have no meaning.",
};

/// The options.
pub const OPTIONS: &[Opt] = &[
    Opt {
        long: "--relaxed",
        short: "",
        kind: Kind::Switch,
        scope: SEARCH,
        section: "Input",
        help: "take the counts of the header as hints; there may be no header",
    },
    Opt {
        long: "--assume",
        short: "",
        kind: Kind::Text("LITERALS", "literals"),
        scope: SEARCH,
        section: "Input",
        help: "solve with a clause of each of these literals besides, as in --assume '1 -2'",
    },
    Opt {
        long: "--models",
        short: "",
        kind: Kind::Number("N"),
        scope: SEARCH,
        section: "Several answers",
        help: "write N models, no two of them alike, and behind the last one `s UNSATISFIABLE` where there are fewer; all \
               models for N = 0",
    },
    Opt {
        long: "--project",
        short: "",
        kind: Kind::Text("VARIABLES", "variables"),
        scope: SEARCH,
        section: "Several answers",
        help: "let no two models agree on all of these variables, as in --project '1 2'; without it, on all variables",
    },
    Opt {
        long: "--cubes",
        short: "",
        kind: Kind::Number("N"),
        scope: SEARCH,
        section: "Parts",
        help: "write N cubes at most, which are to take about as long as one another: behind a line `p inccnf` a line `a .. 0` \
               for each. Values that satisfy the formula make all literals of a cube true",
    },
    Opt {
        long: "--cube",
        short: "",
        kind: Kind::Number("I"),
        scope: SEARCH,
        section: "Parts",
        help: "solve the formula with the cube of this number in the file CUBES, the first being 1: `s UNSATISFIABLE` says \
               that nothing satisfies both. Beside it a proof shows, by --lrat alone, that no values satisfy both",
    },
    Opt {
        long: "--join",
        short: "",
        kind: Kind::Output("OUT"),
        scope: CHECK,
        section: "Parts",
        help: "check that the cubes cover the formula, and one proof of each part, and write `s VERIFIED`, and one LRAT proof of \
               the formula to the file OUT; --binary and --force stand for OUT then. The file appears where all is verified",
    },
    Opt {
        long: "--no-eliminate",
        short: "",
        kind: Kind::Switch,
        scope: SEARCH,
        section: "Search",
        help: "eliminate no variables",
    },
    Opt {
        long: "--no-vivify",
        short: "",
        kind: Kind::Switch,
        scope: SEARCH,
        section: "Search",
        help: "shorten no learned clauses",
    },
    Opt {
        long: "--no-simplify",
        short: "",
        kind: Kind::Switch,
        scope: SEARCH,
        section: "Search",
        help: "as --no-eliminate and --no-vivify together",
    },
    Opt {
        long: "--conflicts",
        short: "",
        kind: Kind::Number("N"),
        scope: SEARCH,
        section: "Limits",
        help: "give up after N conflicts",
    },
    Opt {
        long: "--time",
        short: "-t",
        kind: Kind::Number("SECONDS"),
        scope: SEARCH,
        section: "Limits",
        help: "give up when the search first pauses after so many seconds; reading is not cut short",
    },
    Opt {
        long: "--memory",
        short: "",
        kind: Kind::Number("MB"),
        scope: SEARCH,
        section: "Limits",
        help: "give up when the search first pauses once the program has taken MB megabytes, of 2^20 bytes; reading is \
               not cut short, and the search may take more before it pauses",
    },
    Opt {
        long: "--no-witness",
        short: "-n",
        kind: Kind::Switch,
        scope: SEARCH,
        section: "Output",
        help: "write no values (lines that begin with v)",
    },
    Opt {
        long: "--quiet",
        short: "-q",
        kind: Kind::Switch,
        scope: SEARCH,
        section: "Output",
        help: "write no comments (lines that begin with c, on standard error)",
    },
    Opt {
        long: "--verbose",
        short: "-v",
        kind: Kind::Switch,
        scope: SEARCH,
        section: "Output",
        help: "write progress every five seconds, whatever standard error is, and also with -q",
    },
    Opt {
        long: "--stats",
        short: "",
        kind: Kind::Switch,
        scope: SEARCH,
        section: "Output",
        help: "write a summary of the search at its end, on standard error",
    },
    Opt {
        long: "--proof",
        short: "",
        kind: Kind::Output("PROOF"),
        scope: SEARCH,
        section: "Proofs",
        help: "write the steps of the search to the file PROOF, in the DRAT form, whatever the answer is: at `s \
               UNSATISFIABLE` they are a proof. The file appears at the end. A minus is refused, since standard output has \
               the answer",
    },
    Opt {
        long: "--binary",
        short: "",
        kind: Kind::Switch,
        scope: FORM,
        section: "Proofs",
        help: "write it in the binary form",
    },
    Opt {
        long: "--lrat",
        short: "",
        kind: Kind::Switch,
        scope: SEARCH,
        section: "Proofs",
        help: "write it in the LRAT form, whose steps name the clauses that they follow from; it is larger, and checked \
               faster",
    },
    Opt {
        long: "--force",
        short: "-f",
        kind: Kind::Switch,
        scope: FORM,
        section: "Proofs",
        help: "replace PROOF also where it looks like a formula, and where it is not empty and no FORMULA is named or \
               --relaxed is given",
    },
    Opt {
        long: "--check",
        short: "",
        kind: Kind::Switch,
        scope: CHECK,
        section: "Proofs",
        help: "read a formula and a proof that nothing satisfies it, and write `s VERIFIED` or `s NOT VERIFIED`; each \
               clause of the proof has to be RUP or RAT",
    },
    Opt {
        long: "--lrat-from-drat",
        short: "",
        kind: Kind::Output("OUT"),
        scope: CHECK,
        section: "Proofs",
        help: "check a DRAT proof as --check does, and write the steps that were needed to the file OUT, in the LRAT form; \
               --binary and --force stand for OUT then. The file appears where the proof is verified",
    },
];
