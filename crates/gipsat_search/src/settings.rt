//! The settings of a search, each with its reason.

/// How a search decides, restarts, forgets clauses and simplifies. No answer rests on a setting.
#[derive(Clone, Copy)]
pub struct Settings {
    /// By which part of itself a bump of a variable grows at each conflict, in the focused mode and in the stable one.
    pub focused_growth: f64,
    pub stable_growth: f64,
    /// In the stable mode the variables in the reasons of a learned clause are bumped too, unless there are more than
    /// so many for each of its literals.
    pub reason_sides: usize,
    /// A domain is decided by a list that is sorted once, and after so many conflicts by a queue.
    pub domain_conflicts: u64,

    /// How many conflicts the first turn lasts, and how many times a stable turn is shorter than a focused one.
    pub first_turn: u64,
    pub stable_share: u64,
    /// The least number of conflicts between two restarts, in the focused mode and in the stable one.
    pub focused_interval: u64,
    pub stable_interval: u64,
    /// How much a learned clause counts in the fast and in the slow average of glue, and how many times the fast one
    /// has to exceed the slow one for a restart.
    pub fast_rate: f64,
    pub slow_rate: f64,
    pub restart_factor: f64,
    /// How many conflicts there are before the saved phases are reset for the first time. The intervals grow by as
    /// many.
    pub phase_interval: u64,

    /// A walk looks at one clause for so many propagations since the last one, and at no more than so many clauses. A
    /// variable whose flip would falsify so many clauses, or more, is not flipped.
    pub walk_share: u64,
    pub walk_steps: u64,
    pub walk_breaks: usize,

    /// How many conflicts there are before the first reduction. The intervals are `reduction_interval` times the square
    /// root of the number of reductions, and at least a conflict for each `reduction_clauses` clauses in the database.
    pub first_reduction: u64,
    pub reduction_interval: u64,
    pub reduction_clauses: u64,
    /// Up to which glue a learned clause stays for good, and up to which it stays for two reductions after each use.
    /// The level of the conflict counts.
    pub safe_glue: u32,
    pub low_glue: u32,
    /// Of the clauses that may go, one of so many stays.
    pub staying_share: usize,
    /// By which part of itself a bump of a clause grows at each conflict.
    pub clause_growth: f32,

    /// How many clauses a slice of a search learns, and how many literals it propagates at first. The second number is
    /// doubled where a slice meets no conflict.
    pub slice_clauses: usize,
    pub slice_propagations: u64,
    /// Clauses are collected once one clause of so many was deleted.
    pub collection_share: u64,
    /// Up to which glue a learned clause is vivified, and how many literals a search propagates for each one that
    /// vivification may propagate.
    pub vivified_glue: u32,
    pub vivification_share: u64,
    /// How many steps an elimination takes: `elimination_steps`, and `literal_steps` for each literal of the database;
    /// behind each variable that it eliminates, `variable_steps` are left at least. A step looks at a literal; one that
    /// comes or goes costs `occurrence_steps`.
    pub elimination_steps: u64,
    pub literal_steps: u64,
    pub variable_steps: u64,
    pub occurrence_steps: usize,
    /// An elimination is taken up again after twice as many propagations, and at least so many more. Once all variables
    /// were tried, one may leave 1, 2, 4 .. clauses more, but no more than so many.
    pub elimination_interval: u64,
    pub most_clauses_more: usize,
    /// A variable is not eliminated if more clauses have one of its literals, or if a resolvent has more literals.
    pub occurrences: usize,
    pub resolvent_literals: usize,
}

/// The settings of each search. None was chosen on the lists `report` and `fresh` of `tools/formulas.py`.
pub const SETTINGS: Settings = Settings {
    // The focused mode stays with the variables of the last conflicts; the stable one remembers older conflicts.
    focused_growth: 1.0 / 8.0,
    stable_growth: 1.0 / 20.0,
    // Where a clause has more, its reasons say little of the conflict.
    reason_sides: 10,
    // Most questions in a domain meet fewer, and to sort a list costs less than to fill a queue.
    domain_conflicts: 10,

    // Many formulas are solved before the first stable turn.
    first_turn: 1_000,
    // The stable mode finds models, and is slow where there are none.
    stable_share: 2,
    // A restart costs little, since it keeps the levels that would be decided again.
    focused_interval: 2,
    // It is multiplied with Luby's sequence: the stable mode searches for long around one assignment.
    stable_interval: 1_024,
    // The fast average is that of the last conflicts, and the slow one that of the whole search.
    fast_rate: 1.0 / 20.0,
    slow_rate: 1.0 / 100_000.0,
    // With 1.05 and with 1.20 there are as many conflicts, or more.
    restart_factor: 1.10,
    // The search has to follow its phases for a while before they tell anything.
    phase_interval: 1_000,

    // A walk finds most models of random clauses, and costs little where there is none.
    walk_share: 2,
    walk_steps: 20_000_000,
    walk_breaks: 100,

    // A short search needs all of its clauses.
    first_reduction: 2_000,
    // Each watched clause makes conflicts dearer, and each one that is missing makes more of them.
    reduction_interval: 350,
    // A reduction walks over all clauses.
    reduction_clauses: 500,
    // Such a clause joins the level of its conflict with two others.
    safe_glue: 3,
    // Such a clause is likely to be used again.
    low_glue: 6,
    // More of them make each conflict dearer by as much as they save.
    staying_share: 4,
    // Uses of some thousands of conflicts count.
    clause_growth: 1.0 / 1024.0,

    // What is done between two slices has to take a small part of the time.
    slice_clauses: 2_000,
    slice_propagations: 4_000_000,
    // A collection copies all clauses that stay.
    collection_share: 4,
    // To shorten clauses of higher glue costs more than it gains, and so does a greater share of the propagations.
    vivified_glue: 6,
    vivification_share: 20,
    // About a tenth of a second, and for a large formula less than it took to read it.
    elimination_steps: 10_000_000,
    literal_steps: 10,
    // Elimination goes on while it takes variables out at this rate.
    variable_steps: 5_000,
    // A list and a count change.
    occurrence_steps: 2,
    // A short search is not held up, and the rounds of a long one take a small part of it.
    elimination_interval: 1_000_000,
    // Each clause more makes conflicts dearer, and each variable fewer makes them cheaper.
    most_clauses_more: 16,
    // With more, most pairs of clauses are tried in vain.
    occurrences: 100,
    resolvent_literals: 100,
};
