//! How a search ends.
ghost use Rattle.std.specs.Prelude.{ℕ, []};
ghost use Rattle.gipsat_solver.specs.Answers.{IsRight, IsRightUnder, SolverState};

use gipsat_cnf::{Answer, AnswerUnder, Literal};

// How a search ends before its limit of learned clauses.
#[derive(Drop)]
pub(crate) enum End {
    // A model of the formula that makes the assumptions true.
    Model(Vec<bool>),
    // Some of the assumptions, which can't all be true.
    Core(Vec<Literal>),
    // It was to guess, and no variable waits.
    Guessed,
    // Its budget is spent.
    Spent,
}

// An answer where nothing was assumed: a core says that nothing satisfies the formula.
pub(crate) fn answer_of(answer: AnswerUnder) -> Answer
    ensures { (old new : SolverState) → (limit : ℕ) → IsRightUnder [] old new limit answer →
        IsRight old new limit result }
{
    match answer {
        AnswerUnder::Sat(model) => Answer::Sat(model),
        AnswerUnder::Unsat(_) => Answer::Unsat,
        AnswerUnder::Unknown => Answer::Unknown,
    }
}
