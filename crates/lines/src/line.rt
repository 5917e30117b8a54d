//! A line of text as it is written.
ghost use Rattle.std.specs.Prelude.{◌≡◌, ◌<◌, ◌≤◌, length, take};
ghost use Rattle.frames.specs.Hex.{digit, line};

/// The most bytes of a frame: a tag, a name and six fields of two bytes.
pub const MOST_BYTES: usize = 14;

/// The most bytes of a line: two digits for each byte of a frame, and the end.
pub const MOST_TEXT: usize = 29;

/// A frame's digits and the line's end.
// An array with a length beside it: a line is copied and handed out as bytes; ArrayVec is not copied, and ArrayString
// holds text.
#[derive(Clone, Copy)]
pub struct Line {
    text: [u8; MOST_TEXT],
    size: usize,
    ghost long: { length text ≡ 29 },
    ghost fits: { size ≤ 29 },
}

/// The digit of a value.
// Not char::from_digit: its letters are small.
fn digit_of(value: u8) -> u8
    requires { value < 16 }
    ensures { result ≡ digit value }
{
    if value < 10 {
        b'0' + value
    } else {
        b'A' + (value - 10)
    }
}

impl Line {
    /// The line of some bytes.
    pub(crate) fn of(bytes: &[u8]) -> Line
        requires { length bytes.now ≤ 14 }
        ensures { take result.size result.text ≡ line bytes.now }
    {
        let mut text = [0; MOST_TEXT];
        for (i, byte) in bytes.iter().enumerate() {
            text[2 * i] = digit_of(*byte / 16);
            text[2 * i + 1] = digit_of(*byte % 16);
        }
        let end = 2 * bytes.len();
        text[end] = b'\n';
        Line {
            text,
            size: end + 1,
        }
    }

    /// The bytes of the line, its end included.
    pub fn as_slice(&self) -> &[u8]
        ensures { result.now ≡ take self.now.size self.now.text }
    {
        &self.text[..self.size]
    }
}
