//! The tasks of a load, copied.
ghost use Rattle.std.specs.Prelude.{◌≡◌};
ghost use Rattle.machine.specs.Copies.{Copied, numbers_task};
ghost use Rattle.model.specs.Asked.{found};
ghost use Rattle.model.specs.Told.{told_task};
ghost use Rattle.std.specs.Option.{option_map};

use crate::numbers::Numbers;
use crate::piece::Piece;
use loads::load::Load;

/// How many pieces a task has, and the pieces, as `Numbers` holds them.
fn copy_pieces<L: Load>(load: &L, task: u64) -> (usize, [Piece; 4])
    ensures { Copied (found (L.Load.tasks load.now) task) result.0 result.1 }
{
    let mut pieces = [Piece::default(); 4];
    for (i, place) in pieces.iter_mut().enumerate() {
        let Some((ready, cap, due)) = load.piece(task, i as u64 + 1) else {
            return (i, pieces);
        };
        *place = Piece { ready, cap, due };
    }
    (4, pieces)
}

/// A task's numbers, if the load has it.
pub(crate) fn copy_task<L: Load>(load: &L, task: u64) -> Option<Numbers>
    ensures { option_map numbers_task result ≡ option_map told_task (found (L.Load.tasks load.now) task) }
{
    let spacing = load.spacing(task)?;
    let total = load.total(task)?;
    let (count, pieces) = copy_pieces(load, task);
    Some(Numbers {
        spacing,
        total,
        count,
        pieces,
    })
}
