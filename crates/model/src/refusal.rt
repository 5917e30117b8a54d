//! Refusals: why a call did nothing, with the number by which frames and documents name the reason.
ghost use Rattle.std.specs.Prelude.{◌≡◌, Some};
ghost use Rattle.model.specs.Refusals.{number, refusal_text};

use std::error::Error;
use std::fmt;

/// The first rule that a call's input breaks, with the values that the rule names.
#[derive(Clone, Copy, Debug, PartialEq, Eq)]
pub enum Refusal {
    /// The spacing is not 1 to 10,000.
    Spacing,
    /// A plain row's due offset is not 1 to its spacing.
    Due,
    /// A plain row's cost is not 1 to its due offset.
    Cost,
    /// A cost, a cap or the wait is 0.
    ZeroPart,
    /// The costs and the wait together are above the spacing.
    TooLong,
    /// The split is not 1 to the spacing less the wait less 1.
    Split,
    /// The total is not above the first cap, below the second, or above both together.
    Total,
    /// The factor is not 2 to 8.
    Factor,
    /// More than 32 rows, or more than the table has places.
    TooManyRows,
    /// More than 32 tasks.
    TooManyTasks,
    /// The spacings' least common multiple is above 100,000.
    NoRound,
    /// The demand exceeds this length, and none below it.
    Overloaded { length: u64 },
    /// No free place.
    NoPlace,
    /// No split of the row of this name passes.
    NoSplit { name: u8 },
    /// The start is above 999,999,999,700,000.
    LateStart,
    /// The machine stopped at a miss.
    Stopped,
    /// There is no task of this number.
    NoTask,
    /// The task woke less than a spacing ago.
    TooSoon,
    /// The task's job is still open.
    JobOpen,
    /// The instant is 10^15, the last one.
    LastInstant,
    /// The piece at the front is not this task's.
    NotFront,
    /// A byte is no hexadecimal digit, or the count of digits is odd.
    BadDigit,
    /// The line is empty or has no known tag.
    UnknownTag,
    /// The frame has not the length of its tag.
    WrongLength,
    /// The text is longer than 16,384 bytes.
    LongText,
    /// The last line is not ended.
    OpenLine,
}

impl Refusal {
    /// The number of the refusal, 1 to 26.
    pub fn number(self) -> u8
        ensures { result ≡ number self }
    {
        // One match stands for the table of numbers, which no order of the variants may change.
        match self {
            Refusal::Spacing => 1,
            Refusal::Due => 2,
            Refusal::Cost => 3,
            Refusal::ZeroPart => 4,
            Refusal::TooLong => 5,
            Refusal::Split => 6,
            Refusal::Total => 7,
            Refusal::Factor => 8,
            Refusal::TooManyRows => 9,
            Refusal::TooManyTasks => 10,
            Refusal::NoRound => 11,
            Refusal::Overloaded { .. } => 12,
            Refusal::NoPlace => 13,
            Refusal::NoSplit { .. } => 14,
            Refusal::LateStart => 15,
            Refusal::Stopped => 16,
            Refusal::NoTask => 17,
            Refusal::TooSoon => 18,
            Refusal::JobOpen => 19,
            Refusal::LastInstant => 20,
            Refusal::NotFront => 21,
            Refusal::BadDigit => 22,
            Refusal::UnknownTag => 23,
            Refusal::WrongLength => 24,
            Refusal::LongText => 25,
            Refusal::OpenLine => 26,
        }
    }
}

/// As programs print it: by its number.
impl fmt::Display for Refusal {
    ghost output = { λ r. Some (refusal_text r) };

    fn fmt<W: fmt::Write>(&self, f: &mut fmt::Formatter<W>) -> fmt::Result {
        let number = self.number();
        write!(f, "refused by {number}")
    }
}

impl Error for Refusal {}
