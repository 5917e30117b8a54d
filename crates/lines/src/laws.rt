//! The theorem of written rows.
ghost use Rattle.lines.specs.Laws.{LawfulRowsAreWritten};

/// A row that keeps the rules of its kind is written, whatever its kind.
pub fn lawful_rows_are_written()
    ensures { LawfulRowsAreWritten }
{}
