//! A text of frames, one a line, read into a table of each kind.
ghost use Rattle.std.specs.Prelude.{◌≡◌, ◌≤◌, [], length, MatchResult, Ok, Err};
ghost use Rattle.frames.specs.Laws.{AcceptedTextsAreWrittenRows};
ghost use Rattle.frames.specs.Rows.{row_of};
ghost use Rattle.frames.specs.Texts.{places_of, room, ended, text_test, text_read, Done};
ghost use Rattle.frames.specs.Turns.{stored, counts_after, plain_after, open_after, bounded_after};

use crate::fault::{Fault, Layer};
use crate::frame::{TextRow, read_row};
use model::refusal::Refusal;
use rows::bare::{BoundedRow, OpenRow, PlainRow};

/// The most bytes of a text.
const MOST_BYTES: usize = 16_384;

/// The most rows of a table.
const MOST_ROWS: usize = 32;

/// The byte that ends a line.
const END: u8 = b'\n';

/// A number for each kind of row that a text may hold.
#[derive(Clone, Copy, Debug, Default, PartialEq, Eq)]
pub struct Counts {
    pub plains: usize,
    pub opens: usize,
    pub boundeds: usize,
}

/// Whether a text is empty, or its last line is ended.
fn is_ended(text: &[u8]) -> bool
    ensures { result ≡ ended text.now }
{
    text.last().is_none_or(|byte| *byte == END)
}

/// Refuses a text that is too long, or whose last line is not ended.
#[tactic(auto, unfolding(crate::specs::Texts::text_test))]
fn test_text(text: &[u8]) -> Result<(), Fault>
    ensures { result ≡ text_test text.now }
{
    if text.len() > MOST_BYTES {
        return Err(Fault::new(Refusal::LongText, 0, Layer::Text));
    }
    if !is_ended(text) {
        return Err(Fault::new(Refusal::OpenLine, 0, Layer::Text));
    }
    Ok(())
}

/// Puts a row into the next place of a table, and answers how many it holds then.
#[tactic(auto, unfolding(crate::specs::Texts::room, crate::specs::Turns::stored))]
fn put<R: Copy>(line: u16, table: &mut [R], count: usize, row: R) -> Result<usize, Fault>
    ensures count { result ≡ room line (length table.old) count }
    ensures table { table.new ≡ stored table.old count row }
{
    if count >= MOST_ROWS || count >= table.len() {
        return Err(Fault::new(Refusal::TooManyRows, line, Layer::Table));
    }
    table[count] = row;
    Ok(count + 1)
}

/// The tables that a text fills, and how many rows each holds.
#[derive(Drop)]
struct Tables<'a> {
    plains: &'a mut [PlainRow],
    opens: &'a mut [OpenRow],
    boundeds: &'a mut [BoundedRow],
    // The caller lends the places, so the counts stand beside them.
    counts: Counts,
}

impl Tables<'_> {
    /// Puts a line's row into the table of its kind.
    fn put(&mut self, line: u16, row: TextRow) -> Result<(), Fault>
        ensures same_plains { self.new.plains.ghost_name ≡ self.old.plains.ghost_name }
        ensures same_opens { self.new.opens.ghost_name ≡ self.old.opens.ghost_name }
        ensures same_boundeds { self.new.boundeds.ghost_name ≡ self.old.boundeds.ghost_name }
        ensures counts { MatchResult result (λ _. counts_after line row self.old.plains.now self.old.opens.now self.old.boundeds.now self.old.counts ≡ Ok self.new.counts) (λ e. counts_after line row self.old.plains.now self.old.opens.now self.old.boundeds.now self.old.counts ≡ Err e) }
        ensures plains { self.new.plains.now ≡ plain_after row self.old.counts self.old.plains.now }
        ensures opens { self.new.opens.now ≡ open_after row self.old.counts self.old.opens.now }
        ensures boundeds { self.new.boundeds.now ≡ bounded_after row self.old.counts self.old.boundeds.now }
    {
        // An arm names its table and its count; the work is one generic function.
        match row {
            TextRow::Plain(row) => {
                self.counts.plains = put(line, self.plains, self.counts.plains, row)?;
            }
            TextRow::Open(row) => {
                self.counts.opens = put(line, self.opens, self.counts.opens, row)?;
            }
            TextRow::Bounded(row) => {
                self.counts.boundeds = put(line, self.boundeds, self.counts.boundeds, row)?;
            }
        }
        Ok(())
    }
}

/// Reads a text of frames into a table of each kind, and answers how many rows there are.
/// After a fault the tables hold the rows of the lines before it; places past the rows are as they were.
// Three parameters: the signature is public.
pub fn read_text(
    text: &[u8],
    plains: &mut [PlainRow],
    opens: &mut [OpenRow],
    boundeds: &mut [BoundedRow],
) -> Result<Counts, Fault>
    ensures read { Done (text_read (places_of plains.old opens.old boundeds.old) text.now) result plains.old opens.old boundeds.old plains.new opens.new boundeds.new }
    ensures law { AcceptedTextsAreWrittenRows }
{
    test_text(text)?;
    let mut tables = Tables {
        plains,
        opens,
        boundeds,
        counts: Counts::default(),
    };
    if let Some((_, body)) = text.split_last() {
        for (line, digits) in (1..).zip(body.split(|byte| *byte == END)) {
            tables.put(line, read_row(line, digits)?)?;
        }
    }
    Ok(tables.counts)
}
