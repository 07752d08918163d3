//! What is known of properties.
ghost use Rattle.std.specs.Prelude.{◌≡◌};
ghost use Rattle.gipmc_task.specs.Outcomes.{both};

/// What is known of some properties together.
#[derive(Clone, Copy, Debug, PartialEq, Eq)]
pub enum Outcome {
    /// One of them fails, and a trace shows it.
    Fails,
    /// Each of them holds.
    Safe,
    /// Neither is known.
    Open,
}

impl Outcome {
    /// What is known of these and of others.
    pub fn and(self, other: Outcome) -> Outcome
        ensures { result ≡ both self other }
    {
        match self {
            Outcome::Fails => Outcome::Fails,
            Outcome::Safe => other,
            Outcome::Open => match other {
                Outcome::Fails => Outcome::Fails,
                Outcome::Safe => Outcome::Open,
                Outcome::Open => Outcome::Open,
            },
        }
    }
}
