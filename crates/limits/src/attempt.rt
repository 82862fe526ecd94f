//! What is tried, and what comes of it.
use grids::Refusal;
use std::alloc::Global;
use std::fmt;

/// What comes of a call, as its line says it.
#[derive(Clone, Copy)]
pub(crate) enum Outcome {
    Accepted,
    Refused(Refusal),
    Count(u16),
    TooLong,
}

// A call is accepted whatever it answers.
impl<T: Drop> From<Result<T, Refusal>> for Outcome {
    fn from(answer: Result<T, Refusal>) -> Outcome {
        answer.map_or_else(Outcome::Refused, |_| Outcome::Accepted)
    }
}

impl fmt::Display for Outcome {
    fn fmt<W: fmt::Write>(&self, f: &mut fmt::Formatter<W>) -> fmt::Result {
        match *self {
            Outcome::Accepted => write!(f, "accepted"),
            Outcome::Refused(refusal) => write!(f, "refused {}", refusal.number()),
            Outcome::Count(count) => write!(f, "{count}"),
            Outcome::TooLong => write!(f, "too long"),
        }
    }
}

/// A call at a limit or just past it. It is shown as what is tried.
pub(crate) trait Attempt: fmt::Display {
    fn outcome(&self, heap: Global) -> anyhow::Result<Outcome>;
}

/// Makes each attempt and prints a line for it.
pub(crate) fn tell_all<T: Attempt>(rt: &HostRuntime, attempts: &[T]) -> anyhow::Result<()> {
    for attempt in attempts {
        let outcome = attempt.outcome(rt.alloc())?;
        println!(rt; "{attempt}: {outcome}")?;
    }
    Ok(())
}
