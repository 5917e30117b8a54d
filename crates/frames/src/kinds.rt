//! The kinds of rows that have frames.
ghost use Rattle.std.specs.Prelude.{◌≡◌, ℕ, List};
ghost use Rattle.frames.specs.Frames.{plain_row, plain_numbers, open_row, open_numbers, bounded_row, bounded_numbers, settled_row, settled_numbers};

use rows::bare::{BoundedRow, OpenRow, PlainRow, SettledRow};
use rows::kind::Kind;

/// The most fields that a kind of row has.
pub const MOST_FIELDS: usize = 6;

/// A kind of row that a frame can spell. A row's numbers are its fields, in their order, and 0 in the places past them.
pub trait FrameKind: Kind + Sized {
    /// The row of a name and six numbers, of which the kind takes the first.
    ghost row: { ℕ → List ℕ → Self };

    ghost numbers: { Self → List ℕ };

    fn of_fields(name: u8, fields: [u64; MOST_FIELDS]) -> Self
        ensures { result ≡ row name fields };

    fn fields(&self) -> [u64; MOST_FIELDS]
        ensures { result ≡ numbers self.now };
}

// Four impls of two functions: each names the fields of its own row.
impl FrameKind for PlainRow {
    ghost row = { λ name fields. plain_row name fields };

    ghost numbers = { λ r. plain_numbers r };

    fn of_fields(name: u8, fields: [u64; MOST_FIELDS]) -> PlainRow {
        let [spacing, due, cost, _, _, _] = fields;
        PlainRow {
            name,
            spacing,
            due,
            cost,
        }
    }

    fn fields(&self) -> [u64; MOST_FIELDS] {
        [self.spacing, self.due, self.cost, 0, 0, 0]
    }
}

impl FrameKind for OpenRow {
    ghost row = { λ name fields. open_row name fields };

    ghost numbers = { λ r. open_numbers r };

    fn of_fields(name: u8, fields: [u64; MOST_FIELDS]) -> OpenRow {
        let [spacing, first, wait, second, _, _] = fields;
        OpenRow {
            name,
            spacing,
            first,
            wait,
            second,
        }
    }

    fn fields(&self) -> [u64; MOST_FIELDS] {
        [self.spacing, self.first, self.wait, self.second, 0, 0]
    }
}

impl FrameKind for BoundedRow {
    ghost row = { λ name fields. bounded_row name fields };

    ghost numbers = { λ r. bounded_numbers r };

    fn of_fields(name: u8, fields: [u64; MOST_FIELDS]) -> BoundedRow {
        let [spacing, first, second, total, wait, split] = fields;
        BoundedRow {
            name,
            spacing,
            first,
            second,
            total,
            wait,
            split,
        }
    }

    fn fields(&self) -> [u64; MOST_FIELDS] {
        [
            self.spacing,
            self.first,
            self.second,
            self.total,
            self.wait,
            self.split,
        ]
    }
}

impl FrameKind for SettledRow {
    ghost row = { λ name fields. settled_row name fields };

    ghost numbers = { λ r. settled_numbers r };

    fn of_fields(name: u8, fields: [u64; MOST_FIELDS]) -> SettledRow {
        let [spacing, first, wait, second, split, _] = fields;
        SettledRow {
            name,
            spacing,
            first,
            wait,
            second,
            split,
        }
    }

    fn fields(&self) -> [u64; MOST_FIELDS] {
        [
            self.spacing,
            self.first,
            self.wait,
            self.second,
            self.split,
            0,
        ]
    }
}
