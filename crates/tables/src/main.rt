//! Runs the worked tables through the library and prints what it computes.
#![tactic(auto)]

mod checks_shown;
mod machine_shown;
mod rows_shown;
mod texts_shown;

use std::io;

fn main(rt: HostRuntime) -> io::Result<()> {
    rows_shown::show_demands(&rt)?;
    rows_shown::show_refusals(&rt)?;
    checks_shown::show_verdicts(&rt)?;
    checks_shown::show_piles(&rt)?;
    checks_shown::show_splits(&rt)?;
    machine_shown::show_machine(&rt)?;
    machine_shown::show_misses(&rt)?;
    texts_shown::show_texts(&rt)?;
    texts_shown::show_row_faults(&rt)?;
    texts_shown::show_lines(&rt)
}
