//! The lines that are written: frames of rows, and what became of a run.
ghost use Rattle.std.specs.Prelude.{◌≡◌, [], ◌∷◌, if◌then◌else◌, Some, None};
ghost use Rattle.model.specs.Asked.{found, name_told};
ghost use Rattle.model.specs.Refusals.{number};
ghost use Rattle.frames.specs.Hex.{line};
ghost use Rattle.frames.specs.Frames.{framed_row};
ghost use Rattle.lines.specs.Lines.{written, wrote, two, four, eight, all_short, row_text, miss_text};

use crate::line::{Line, MOST_BYTES};
use frames::fault::Fault;
use frames::kinds::{FrameKind, MOST_FIELDS};
use loads::load::Load;
use loads::named::Named;
use model::refusal::Refusal;
use rows::kind::Kind;

/// The bytes of a frame of six fields, unless a number is above 65,535.
fn frame_of(tag: u8, name: u8, fields: [u64; MOST_FIELDS]) -> Option<[u8; MOST_BYTES]>
    ensures { result ≡ (if all_short fields then Some (framed_row tag name fields) else None) }
{
    let mut frame = [0; MOST_BYTES];
    frame[0] = tag;
    frame[1] = name;
    for (k, field) in fields.iter().enumerate() {
        let [high, low] = u16::try_from(*field).ok()?.to_be_bytes();
        frame[2 * k + 2] = high;
        frame[2 * k + 3] = low;
    }
    Some(frame)
}

/// The line of a row: its tag, its name and its fields; none where a number does not fit its field, or the kind has
/// more than six.
pub fn row_line<K: FrameKind>(row: &K) -> Option<Line>
    ensures { wrote result ≡ row_text K.Kind.TAG K.Kind.FIELDS (K.Kind.title row.now) (K.FrameKind.numbers row.now) }
{
    if K::FIELDS > MOST_FIELDS {
        return None;
    }
    let frame = frame_of(K::TAG, row.name(), row.fields())?;
    Some(Line::of(&frame[..2 + 2 * K::FIELDS]))
}

/// The line that ends a settled table: F0.
pub fn done_line() -> Line
    ensures { written result ≡ line (0xF0 ∷ []) }
{
    Line::of(&[0xF0])
}

/// The line of a row without a split: F1 and the row's name.
pub fn no_split_line(name: u8) -> Line
    ensures { written result ≡ line (0xF1 ∷ name ∷ []) }
{
    Line::of(&[0xF1, name])
}

/// The line of a fault in reading: F2, the refusal's number and the line in two bytes.
pub fn fault_line(fault: Fault) -> Line
    ensures { written result ≡ line (0xF2 ∷ number fault.refusal ∷ two fault.line) }
{
    let [high, low] = fault.line.to_be_bytes();
    Line::of(&[0xF2, fault.number(), high, low])
}

/// The line of an overload: F3 and the low four bytes of the length.
pub fn overload_line(length: u64) -> Line
    ensures { written result ≡ line (0xF3 ∷ four length) }
{
    let [_, _, _, _, a, b, c, d] = length.to_be_bytes();
    Line::of(&[0xF3, a, b, c, d])
}

/// The line of another refusal: F4 and its number.
pub fn refusal_line(refusal: Refusal) -> Line
    ensures { written result ≡ line (0xF4 ∷ number refusal ∷ []) }
{
    Line::of(&[0xF4, refusal.number()])
}

/// The line of a miss: F5, the task's name, the piece and the instant in eight bytes;
/// none where the load lacks the task or the piece does not fit a byte.
pub fn miss_line<L: Named>(load: &L, task: u64, piece: u64, instant: u64) -> Option<Line>
    ensures { wrote result ≡ miss_text (name_told (found (L.Load.tasks load.now) task) (L.Named.names load.now task)) piece instant }
{
    let name = load.name(task)?;
    let piece = u8::try_from(piece).ok()?;
    let [a, b, c, d, e, f, g, h] = instant.to_be_bytes();
    Some(Line::of(&[0xF5, name, piece, a, b, c, d, e, f, g, h]))
}
