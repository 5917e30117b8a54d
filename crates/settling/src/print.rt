//! What is printed of a seek: settled rows, or the line of a refusal.
ghost use Rattle.std.specs.Prelude.{◌≡◌, IfOk, None};
ghost use Rattle.std.specs.List.{AllByRecursion};
ghost use Rattle.rows.specs.Bare.{settled_breaks};
ghost use Rattle.lines.specs.Lines.{written};
ghost use Rattle.settling.specs.Settled.{refusal_text, settled_lines};

use lines::line::Line;
use lines::write::{done_line, no_split_line, overload_line, refusal_line, row_line};
use model::refusal::Refusal;
use rows::bare::SettledRow;
use std::alloc::{AllocError, Global};

/// The line of a refusal of the seek.
pub(crate) fn refused_line(refusal: Refusal) -> Line
    ensures { written result ≡ refusal_text refusal }
{
    match refusal {
        Refusal::NoSplit { name } => no_split_line(name),
        Refusal::Overloaded { length } => overload_line(length),
        other => refusal_line(other),
    }
}

/// The lines of rows that keep the rules, and the line that ends them.
pub(crate) fn settled_lines(heap: Global, rows: &[SettledRow]) -> Result<Vec<u8>, AllocError>
    requires { AllByRecursion (λ r. settled_breaks r ≡ None) rows.now }
    ensures { IfOk result (λ v. v.items ≡ settled_lines rows.now) }
{
    let mut text = Vec::new(heap);
    for row in rows {
        // A row that keeps the rules has a line.
        let line = row_line(row).unwrap();
        text.extend_from_slice(line.as_slice())?;
    }
    text.extend_from_slice(done_line().as_slice())?;
    Ok(text)
}
