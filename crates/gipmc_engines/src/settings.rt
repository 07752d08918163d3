//! The settings of the engines, each with its reason. No answer rests on one.

// How many calls of its solvers a slice of IC3 has at least, so that it comes to something, and at most, so that an
// observer is told.
pub(crate) const SLICE_CALLS: u64 = 100;

pub(crate) const MOST_SLICE_CALLS: u64 = 10_000;

// How many literals a question of bounded model checking or of induction may propagate at least, and at most where its
// solver has fewer clauses than that. One that is left open is asked again, and goes on with what was learned.
pub(crate) const QUESTION_PROPAGATIONS: u64 = 100_000;

pub(crate) const MOST_QUESTION_PROPAGATIONS: u64 = 300_000;

// Which part of what its solver did a question may do where IC3 does not search.
pub(crate) const QUESTION_PART: u64 = 4;

// How many literals of the circuit, each at a moment, a question looks at to make its formula, until an observer is
// told.
pub(crate) const LOOKS: usize = 100_000;

// How many variables of a moment take as long to name as a literal to propagate.
pub(crate) const NAMES: u64 = 4;

// From this depth on, or from so much work on, bounded model checking has a smaller share: safe circuits are decided by
// IC3, and most others before.
pub(crate) const EARLY_DEPTHS: usize = 10;

pub(crate) const EARLY_WORK: u64 = 2_000_000;

// How many times as much as bounded model checking IC3 does then.
pub(crate) const IC3_SHARE: u64 = 3;

// How many times as much as bounded model checking IC3 does where its frames exclude all traces of the length that comes
// next.
pub(crate) const AHEAD_SHARE: u64 = 8;

// Which part of what the others did inductive steps do beside them.
pub(crate) const STEPS_SHARE: u64 = 8;

// With more clauses bounded model checking retires, and the other engines go on without it. An inductive step ends. So
// memory is bounded where depths are not.
pub(crate) const BOUNDED_CLAUSES: usize = 10_000_000;

pub(crate) const STEP_CLAUSES: usize = 10_000_000;

// How many calls a search of IC3 about one literal has in the first round.
pub(crate) const ROUND_CALLS: u64 = 500;

// How many times as many it has in each round as in the one before, so that few rounds are for nothing.
pub(crate) const ROUND_GROWTH: u64 = 4;

// How many times the calls of a round the search about all literals makes before it.
pub(crate) const ROUND_SHARE: u64 = 2;

// How many gates a simulation evaluates, each in all runs at once, before the other engines begin. In its first rounds
// it evaluates further ones for each literal that they propagate.
pub(crate) const FIRST_GATES: u64 = 1_000_000;

pub(crate) const EARLY_GATES: u64 = 2;

// Up to so many. Behind that, and behind the first rounds, they propagate so many literals for each gate.
pub(crate) const MOST_EARLY_GATES: u64 = 10_000_000;

pub(crate) const LITERALS: u64 = 4;

// How many gates a simulation evaluates, each in all runs at once, until an observer is told again.
pub(crate) const TOLD_GATES: u64 = 1_000_000;

// How many gates take about as long as the drawing of an input.
pub(crate) const INPUT_WORK: u64 = 4;

// The same of a latch that goes on to the next moment.
pub(crate) const LATCH_WORK: u64 = 2;

// The same of a literal that is looked for in all runs.
pub(crate) const BAD_WORK: u64 = 3;

// The same of what each moment takes besides.
pub(crate) const MOMENT_WORK: u64 = 8;

// How often the inputs of a moment are drawn for a run, where a constraint is false by those that were drawn before.
pub(crate) const DRAWS: u64 = 8;

// With more latches a state is no number of a word, and with more inputs it has too many values of them to follow.
pub(crate) const EXPLICIT_LATCHES: usize = 63;

pub(crate) const EXPLICIT_INPUTS: usize = 10;

// With more latches that may begin at either value there are too many first states.
pub(crate) const EXPLICIT_FREE: usize = 10;

// With more states that were reached an explicit-state search ends.
pub(crate) const EXPLICIT_REACHED: usize = 100_000;

// How many states it looks at in a turn at most, and how many gates it evaluates until the turn ends.
pub(crate) const EXPLICIT_STATES: usize = 1000;

pub(crate) const EXPLICIT_TURN: u64 = 1_000_000;

// How many literals the others propagate before it begins.
pub(crate) const EXPLICIT_AFTER: u64 = 300_000;

// How many gates it evaluates first, and how many for each literal that the others propagate.
pub(crate) const EXPLICIT_FIRST: u64 = 1_000_000;

pub(crate) const EXPLICIT_GATES: u64 = 8;

// Once the others have propagated so many literals, how many it evaluates more for each further one: all that it may do
// takes some seconds at most.
pub(crate) const EXPLICIT_LATE: u64 = 20_000_000;

pub(crate) const EXPLICIT_LATE_GATES: u64 = 64;

// How many clauses its invariant has at most: they are certified.
pub(crate) const EXPLICIT_CLAUSES: usize = 10_000;

// How often ternary simulation makes the values at most. Where they change still, nothing is known: as behind a longer
// shift register.
pub(crate) const TERNARY_SWEEPS: u32 = 30;

// How many stages the first chain has in which literals are counted that are met in turn: most properties that hold are
// shown by few. How many times as many the next one has, which begins anew, and how many one has at most: each frame of
// IC3 is asked about the literals of all stages that are left.
pub(crate) const FIRST_CHAIN: usize = 4;

pub(crate) const CHAIN_GROWTH: usize = 4;

pub(crate) const MOST_CHAIN: usize = 1024;

// How much more the search that counts does than the one for lassos, in the first chain: small counts are decided sooner
// than lassos are looked for. And how much a turn of either takes beside what is propagated.
pub(crate) const CHAIN_LEAD: u64 = 30_000;

pub(crate) const TURN_WORK: u64 = 1000;

// How much is done in longer circuits before equal variables of them are merged, and how much that may take of each. How
// many stages the one chain has in which literals are counted then.
pub(crate) const MERGE_WORK: u64 = 200_000;

pub(crate) const MERGED_CHAIN: usize = 64;
