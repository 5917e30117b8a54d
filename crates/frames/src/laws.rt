//! The theorems of frames: each function stands for one, which its contract states.
ghost use Rattle.frames.specs.Laws.{WrittenRowsReadBack, AcceptedTextsAreWrittenRows};

/// A line reads as a row exactly where the row keeps the rules and the line is the one that the row is written as.
pub fn written_rows_read_back()
    ensures { WrittenRowsReadBack }
{}

/// A text is accepted exactly where it is the lines of lawful rows, one after the other, that the tables can take.
pub fn accepted_texts_are_written_rows()
    ensures { AcceptedTextsAreWrittenRows }
{}
