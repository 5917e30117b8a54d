//! The machine's core over the tasks of a load.
ghost use Rattle.machine.specs.Opened.{Opened};

use crate::clock::Core;
use crate::copies::copy_task;
use crate::entry::Entry;
use crate::numbers::Numbers;
use loads::load::Load;
use model::refusal::Refusal;

/// The most tasks that a machine takes.
const TASKS: u64 = 32;

/// The latest instant at which a machine starts.
const LATEST_START: u64 = 999_999_999_700_000;

/// The core of a machine: the load's tasks, told and copied, at rest at the instant `start`.
pub(crate) fn open_core<L: Load>(load: &L, start: u64) -> Result<Core, Refusal>
    ensures { Opened (L.Load.tasks load.now) start result }
{
    let count = load.count();
    if count > TASKS {
        return Err(Refusal::TooManyTasks);
    }
    if start > LATEST_START {
        return Err(Refusal::LateStart);
    }
    let n = count as usize;
    let mut entries = [Entry::at_rest(Numbers::default()); 32];
    for (i, entry) in entries[..n].iter_mut().enumerate() {
        if let Some(task) = copy_task(load, i as u64) {
            *entry = Entry::at_rest(task);
        }
    }
    Ok(Core::resting(start, n, entries))
}
