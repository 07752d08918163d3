//! Scores of variables, and the order by them.
ghost use Rattle.std.specs.Prelude.{◌≡◌};
ghost use Rattle.gipsat_search.specs.Scores.{by_score, score_of};

use giputils_bounded::BinaryHeapCmp;

// Compares variables by their scores, and those of one score by their numbers. A variable past the table's end has the
// score 0.
#[derive(Clone, Copy)]
pub(crate) struct ByScore<'a>(pub &'a [f64]);

impl ByScore<'_> {
    // The score of a variable.
    pub(crate) fn score(&self, variable: u32) -> f64
        ensures { result ≡ score_of self.now.0.now variable }
    {
        match self.0.get(variable as usize) {
            Some(score) => *score,
            None => 0.0,
        }
    }
}

impl BinaryHeapCmp<u32> for ByScore<'_> {
    ghost at_least = { λ c. by_score c.0.now };

    fn gte(&self, s: u32, o: u32) -> bool {
        let (s_score, o_score) = (self.score(s), self.score(o));
        s_score > o_score || s_score == o_score && s >= o
    }
}
