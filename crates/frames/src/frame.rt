//! One line read as a frame, and the frame as a row.
ghost use Rattle.std.specs.Prelude.{◌≡◌, ◌+◌, ◌*◌, ◌<◌, ◌≤◌, true, length, slice_index, MatchResult, Ok, Err};
ghost use Rattle.frames.specs.Hex.{worth, spells, bytes};
ghost use Rattle.frames.specs.Frames.{frame_fault, field, fields, digits_test, tag_of, length_test, body, tagged_body, framed};
ghost use Rattle.frames.specs.Rows.{any_body, row_of};

use crate::digits::{digit_value, value_of};
use crate::fault::{Fault, Layer};
use crate::kinds::{FrameKind, MOST_FIELDS};
use model::refusal::Refusal;
use rows::bare::{BoundedRow, OpenRow, PlainRow};
use rows::kind::Kind;
use std::array;

/// A row of a kind that a text may hold.
#[derive(Clone, Copy, Debug, PartialEq, Eq)]
pub enum TextRow {
    Plain(PlainRow),
    Open(OpenRow),
    Bounded(BoundedRow),
}

/// Whether a text is digits, two a byte.
#[tactic(auto, unfolding(crate::specs::Hex::spells))]
fn spells_bytes(text: &[u8]) -> bool
    ensures { result ≡ spells text.now }
{
    text.len() % 2 == 0 && text.iter().all(|byte| digit_value(*byte).is_some())
}

/// A line whose digits spell a frame, two a byte.
#[derive(Clone, Copy)]
struct Frame<'a> {
    digits: &'a [u8],
    line: u16,
    ghost spelled: { spells digits.now ≡ true },
}

impl<'a> Frame<'a> {
    /// The frame of a line, which is refused where it is not digits, two a byte.
    #[tactic(auto, unfolding(crate::specs::Frames::digits_test))]
    fn of(line: u16, digits: &'a [u8]) -> Result<Frame<'a>, Fault>
        ensures { MatchResult result (λ f. (digits_test line digits.now ≡ Ok tt) × (f.digits.now ≡ digits.now) × (f.line ≡ line)) (λ e. digits_test line digits.now ≡ Err e) }
    {
        if !spells_bytes(digits) {
            return Err(Fault::new(Refusal::BadDigit, line, Layer::Text));
        }
        Ok(Frame { digits, line })
    }

    /// What the frame's own layer refuses in it.
    fn refused(&self, refusal: Refusal) -> Fault
        ensures { result ≡ frame_fault refusal self.now.line }
    {
        Fault::new(refusal, self.line, Layer::Frame)
    }

    /// The value of the digit at a place.
    #[tactic(auto, using(crate::proofs::Spelling::digit_small, crate::proofs::Spelling::spells_digits))]
    fn digit(&self, place: usize) -> u8
        requires { place < length self.now.digits.now }
        ensures value { result ≡ worth (slice_index self.now.digits.now place) }
        ensures small { result < 16 }
    {
        value_of(self.digits[place])
    }

    /// A byte of the frame, 0 past its end.
    #[tactic(auto, using(crate::proofs::Spelling::byte_is, crate::proofs::Spelling::length_bytes, std::proofs::lemmas::List::get_or_past))]
    fn byte(&self, place: usize) -> u8
        ensures { result ≡ slice_index (bytes self.now.digits.now) place }
    {
        if place >= self.digits.len() / 2 {
            return 0;
        }
        16 * self.digit(2 * place) + self.digit(2 * place + 1)
    }

    fn field(&self, place: usize) -> u64
        requires { place < 6 }
        ensures { result ≡ field (bytes self.now.digits.now) place }
    {
        let bytes = [self.byte(2 * place + 2), self.byte(2 * place + 3)];
        u64::from(u16::from_be_bytes(bytes))
    }

    fn fields(&self) -> [u64; MOST_FIELDS]
        ensures { result ≡ fields (bytes self.now.digits.now) }
    {
        array::from_fn(|place| self.field(place))
    }

    /// The first byte of the frame.
    #[tactic(auto, using(crate::proofs::Steps::tag_some, crate::proofs::Spelling::spells_even))]
    fn tag(&self) -> Result<u8, Fault>
        ensures { result ≡ tag_of self.now.line (bytes self.now.digits.now) }
    {
        if self.digits.is_empty() {
            return Err(self.refused(Refusal::UnknownTag));
        }
        Ok(self.byte(0))
    }

    /// Refuses a frame that has not so many fields.
    #[tactic(auto, using(crate::proofs::Spelling::length_bytes), unfolding(crate::specs::Frames::length_test))]
    fn test_length(&self, count: usize) -> Result<(), Fault>
        ensures { result ≡ length_test self.now.line count (bytes self.now.digits.now) }
    {
        let size = self.digits.len() / 2;
        if size >= 2 && size % 2 == 0 && size / 2 - 1 == count {
            Ok(())
        } else {
            Err(self.refused(Refusal::WrongLength))
        }
    }

    /// The row of the frame, whose tag is the kind's, if it keeps the rules of the kind.
    #[tactic(auto, unfolding(crate::specs::Frames::body))]
    fn body<K: FrameKind + Drop>(&self) -> Result<K, Fault>
        ensures { result ≡ body K.Kind.FIELDS K.FrameKind.row K.Kind.fault self.now.line (bytes self.now.digits.now) }
    {
        self.test_length(K::FIELDS)?;
        let row = K::of_fields(self.byte(1), self.fields());
        // Not map_err: in a generic function its closure needs a contract, which is longer than the match.
        match row.test() {
            Ok(()) => Ok(row),
            Err(refusal) => Err(Fault::new(refusal, self.line, Layer::Row)),
        }
    }

    /// The row of the frame, as one of a kind.
    fn row<K: FrameKind + Drop>(&self) -> Result<K, Fault>
        ensures { result ≡ tagged_body K.Kind.TAG K.Kind.FIELDS K.FrameKind.row K.Kind.fault self.now.line (bytes self.now.digits.now) }
    {
        if self.tag()? != K::TAG {
            return Err(self.refused(Refusal::UnknownTag));
        }
        self.body()
    }

    /// The row of the frame, of any kind that a text may hold.
    fn text_row(&self) -> Result<TextRow, Fault>
        ensures { result ≡ any_body self.now.line (bytes self.now.digits.now) }
    {
        match self.tag()? {
            PlainRow::TAG => self.body().map(TextRow::Plain),
            OpenRow::TAG => self.body().map(TextRow::Open),
            BoundedRow::TAG => self.body().map(TextRow::Bounded),
            _ => Err(self.refused(Refusal::UnknownTag)),
        }
    }
}

/// The row of a kind that a line spells.
pub fn read_frame<K: FrameKind + Drop>(line: u16, digits: &[u8]) -> Result<K, Fault>
    ensures { result ≡ framed K.Kind.TAG K.Kind.FIELDS K.FrameKind.row K.Kind.fault line digits.now }
{
    Frame::of(line, digits)?.row()
}

/// The row that a line spells, of any kind that a text may hold.
pub fn read_row(line: u16, text: &[u8]) -> Result<TextRow, Fault>
    ensures { result ≡ row_of line text.now }
{
    Frame::of(line, text)?.text_row()
}
