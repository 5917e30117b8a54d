//! Lines as they are written.
use frames::fault::{Fault, Layer};
use frames::frame::read_row;
use lines::line::Line;
use lines::write::{done_line, fault_line, no_split_line, overload_line, refusal_line, row_line};
use model::refusal::Refusal;
use rows::bare::{BoundedRow, SettledRow};
use std::process::Abort;
use std::test::Fail;

fn is(rt: &impl Abort, line: Line, text: &str) -> Result<(), Fail> {
    assert_eq!(rt; line.as_slice(), text.as_bytes());
    Ok(())
}

fn wrote(rt: &impl Abort, line: Option<Line>, text: &str) -> Result<(), Fail> {
    is(rt, line.ok_or("not written")?, text)
}

#[test]
fn lines_are_written(rt: HostRuntime) -> Result<(), Fail> {
    is(&rt, done_line(), "F0\n")?;
    is(&rt, no_split_line(0xAB), "F1AB\n")?;
    let fault = Fault {
        refusal: Refusal::OpenLine,
        line: 0x0102,
        layer: Layer::Text,
    };
    is(&rt, fault_line(fault), "F21A0102\n")?;
    is(&rt, overload_line(0x0001_86A0), "F3000186A0\n")?;
    is(&rt, refusal_line(Refusal::TooManyTasks), "F40A\n")
}

#[test]
fn rows_are_written(rt: HostRuntime) -> Result<(), Fail> {
    let settled = SettledRow {
        name: 2,
        spacing: 10,
        first: 1,
        wait: 8,
        second: 1,
        split: 1,
    };
    wrote(&rt, row_line(&settled), "1202000A0001000800010001\n")?;
    let mut largest = BoundedRow {
        name: 255,
        spacing: 65_535,
        first: 65_535,
        second: 65_535,
        total: 65_535,
        wait: 65_535,
        split: 65_535,
    };
    wrote(&rt, row_line(&largest), "03FFFFFFFFFFFFFFFFFFFFFFFFFF\n")?;
    largest.split += 1;
    assert!(rt; row_line(&largest).is_none());
    assert!(rt; read_row(1, b"1202000A0001000800010001").is_err());
    Ok(())
}
