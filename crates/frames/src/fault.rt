//! Faults in reading: what was refused, in which line, and by which layer.
ghost use Rattle.std.specs.Prelude.{◌≡◌, Some};
ghost use Rattle.model.specs.Refusals.{number};
ghost use Rattle.frames.specs.Layers.{layer_name};

use model::refusal::Refusal;
use std::fmt;

/// The layer of the reader that refused.
#[derive(Clone, Copy, Debug, PartialEq, Eq)]
pub enum Layer {
    /// Digits and lines.
    Text,
    /// Tags and lengths.
    Frame,
    /// A row's own rules.
    Row,
    /// Room for the row.
    Table,
}

impl fmt::Display for Layer {
    ghost output = { λ layer. Some (layer_name layer) };

    fn fmt<W: fmt::Write>(&self, f: &mut fmt::Formatter<W>) -> fmt::Result {
        f.write_str(match self {
            Layer::Text => "text",
            Layer::Frame => "frame",
            Layer::Row => "row",
            Layer::Table => "table",
        })
    }
}

/// A refusal with its place: the line, counted from 1, or 0 for the whole text.
#[derive(Clone, Copy, Debug, PartialEq, Eq)]
pub struct Fault {
    pub refusal: Refusal,
    pub line: u16,
    pub layer: Layer,
}

impl Fault {
    /// What a layer refused in a line.
    pub(crate) fn new(refusal: Refusal, line: u16, layer: Layer) -> Fault
        ensures { result ≡ record { refusal = refusal; line = line; layer = layer } }
    {
        Fault {
            refusal,
            line,
            layer,
        }
    }

    /// The number of the refusal.
    // By number: programs and documents name refusals so.
    pub fn number(&self) -> u8
        ensures { result ≡ number self.now.refusal }
    {
        self.refusal.number()
    }
}
