//! The pen as a load.
ghost use Rattle.outside.specs.Pen.{pen_tasks, pen_lawful};

use crate::pen::Pen;
use loads::load::Load;
use model::length::Length;

impl Load for Pen {
    ghost tasks = { λ p. pen_tasks p.clock p.stroke };

    ghost lawful = { λ p. pen_lawful p.clock p.stroke p.ok };

    fn count(&self) -> u64 {
        2
    }

    fn spacing(&self, task: u64) -> Option<u64> {
        match task {
            0 => Some(20),
            1 => Some(60),
            _ => None,
        }
    }

    fn total(&self, task: u64) -> Option<u64> {
        match task {
            0 => Some(self.clock()),
            1 => Some(3 * self.stroke()),
            _ => None,
        }
    }

    fn piece(&self, task: u64, number: u64) -> Option<(u64, u64, u64)> {
        match task {
            0 => self.clock_piece(number),
            1 => self.stroke_piece(number),
            _ => None,
        }
    }

    fn demand(&self, task: u64, length: u64) -> Option<u64> {
        let length = Length::new(length)?;
        match task {
            0 => Some(self.clock_demand(length)),
            1 => Some(self.stroke_demand(length)),
            _ => None,
        }
    }

    fn round(&self) -> Option<u64> {
        Some(60)
    }
}
