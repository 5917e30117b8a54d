//! The answer to a text of frames.
ghost use Rattle.std.specs.Prelude.{◌≡◌, length, IfOk, None};
ghost use Rattle.model.specs.Rules.{table_fault};
ghost use Rattle.model.specs.Splits.{falling_offers};
ghost use Rattle.rows.specs.Bare.{plain_breaks, bounded_breaks};
ghost use Rattle.seeker.specs.Refused.{seek_answers, seek_leaves};
ghost use Rattle.settling.specs.Law.{Answer};
ghost use Rattle.settling.specs.Settled.{rest_of, rows_text, settled_text};

use crate::print::{refused_line, settled_lines};
use frames::text::read_text;
use lines::write::fault_line;
use loads::pair::Pair;
use loads::table::Table;
use model::refusal::Refusal;
use rows::bare::{BoundedRow, OpenRow, PlainRow, SettledRow};
use seeker::seek::seek;
use splits::splitters::Falling;
use std::alloc::{AllocError, Global};

/// The most rows of a kind.
const MOST_ROWS: usize = 32;

/// The rows of a text by kind. The plain ones and the bounded ones are tables.
#[derive(Drop)]
struct Rows<'a> {
    plains: &'a [PlainRow],
    opens: &'a [OpenRow],
    boundeds: &'a [BoundedRow],
    ghost plain_table: { table_fault plain_breaks plains.now ≡ None },
    ghost bounded_table: { table_fault bounded_breaks boundeds.now ≡ None },
}

impl Rows<'_> {
    /// Settles the open rows in the places beside the others.
    fn seek(&self, places: &mut [SettledRow]) -> Result<(), Refusal>
        ensures answer { result ≡ seek_answers (rest_of self.now.plains.now self.now.boundeds.now) falling_offers self.now.opens.now places.old }
        ensures places { places.new ≡ seek_leaves (rest_of self.now.plains.now self.now.boundeds.now) falling_offers self.now.opens.now places.old }
    {
        let rest = Pair {
            first: Table::new(self.plains)?,
            second: Table::new(self.boundeds)?,
        };
        seek(&Falling, &rest, self.opens, places)
    }

    /// What is printed of the open rows beside the others, by way of 32 places.
    fn settle(&self, heap: Global, places: &mut [SettledRow]) -> Result<Vec<u8>, AllocError>
        requires { length places.old ≡ 32 }
        ensures { IfOk result (λ v. v.items ≡ rows_text self.now.plains.now self.now.opens.now self.now.boundeds.now) }
    {
        match self.seek(places) {
            Ok(()) => settled_lines(heap, &places[..self.opens.len()]),
            Err(refusal) => Vec::from_slice(heap, refused_line(refusal).as_slice()),
        }
    }
}

/// The answer to a text of frames: the frames of its open rows, settled beside its other rows, and the line F0;
/// or one line that says why there are none. Want of memory is an error.
pub fn settle(heap: Global, text: &[u8]) -> Result<Vec<u8>, AllocError>
    ensures answer { IfOk result (λ v. v.items ≡ settled_text text.now) }
    ensures law { Answer text.now (settled_text text.now) }
{
    // Places for as many rows as a kind may have: memory is fixed but for the answer.
    let mut plains = [PlainRow::default(); MOST_ROWS];
    let mut opens = [OpenRow::default(); MOST_ROWS];
    let mut boundeds = [BoundedRow::default(); MOST_ROWS];
    match read_text(text, &mut plains, &mut opens, &mut boundeds) {
        Ok(counts) => {
            let rows = Rows {
                plains: &plains[..counts.plains],
                opens: &opens[..counts.opens],
                boundeds: &boundeds[..counts.boundeds],
            };
            rows.settle(heap, &mut [SettledRow::default(); MOST_ROWS])
        }
        Err(fault) => Vec::from_slice(heap, fault_line(fault).as_slice()),
    }
}
