//! The check: does the demand of a load ever exceed the length of a window?
#![tactic(auto)]

ghost use Rattle.std.specs.Prelude.{◌≡◌};
ghost use Rattle.model.specs.Promise.{Agreement};
ghost use Rattle.model.specs.Verdict.{by_length, verdict};

use loads::load::Load;
use model::refusal::Refusal;

/// Accepts the load, or refuses it: more than 32 tasks, no round, or overloaded at the first length that its demand exceeds.
/// Accepted, a machine opened on it misses nothing, whatever is called; overloaded, some run of calls makes it miss.
pub fn check<L: Load>(load: &L) -> Result<(), Refusal>
    ensures answer { result ≡ verdict (L.Load.tasks load.now) }
    ensures promise { Agreement (L.Load.tasks load.now) result }
{
    let count = load.count();
    if count > 32 {
        return Err(Refusal::TooManyTasks);
    }
    // No `ok_or`: here the compiler sees that a round is small, and need not test each length.
    let Some(round) = load.round() else {
        return Err(Refusal::NoRound);
    };
    // A loop that breaks with its value: a form that the project asks for.
    let mut length = 1;
    let exceeded = 'lengths: loop {
        if length >= 2 * round {
            break 'lengths None;
        }
        let mut demand = 0;
        for task in 0..count {
            demand += load.demand(task, length).unwrap_or(0);
        }
        if demand > length {
            break 'lengths Some(length);
        }
        length += 1;
    };
    answer(exceeded)
}

/// The answer by the first length that demand exceeds.
fn answer(exceeded: Option<u64>) -> Result<(), Refusal>
    ensures { result ≡ by_length exceeded }
{
    match exceeded {
        Some(length) => Err(Refusal::Overloaded { length }),
        None => Ok(()),
    }
}
