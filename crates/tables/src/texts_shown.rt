//! Texts: a good one, one faulty one for each number that reading can give, and the lines that are written.
use frames::text::read_text;
use lines::line::Line;
use lines::write::{done_line, no_split_line, overload_line, row_line};
use rows::bare::{BoundedRow, OpenRow, PlainRow, SettledRow};
use std::io::Write;
use std::{array, io};

/// What a text reads as: how many rows of each kind, or its fault.
fn show_text(rt: &HostRuntime, title: &str, text: &[u8]) -> io::Result<()> {
    let mut plains = [PlainRow::default(); 32];
    let mut opens = [OpenRow::default(); 32];
    let mut boundeds = [BoundedRow::default(); 32];
    match read_text(text, &mut plains, &mut opens, &mut boundeds) {
        Ok(counts) => println!(rt;
            "{title}: {} plain, {} open, {} bounded",
            counts.plains, counts.opens, counts.boundeds
        ),
        Err(fault) => println!(rt;
            "{title}: {} in line {}, layer {}",
            fault.refusal, fault.line, fault.layer
        ),
    }
}

/// 33 plain rows.
fn many_rows() -> [u8; 561] {
    let line = b"0101000500050001\n";
    array::from_fn(|i| line[i % line.len()])
}

pub fn show_texts(rt: &HostRuntime) -> io::Result<()> {
    println!(rt; "== Texts")?;
    show_text(
        rt,
        "one of each kind",
        b"0101000500050001\n0202000A000100080001\n0303001E00040007000900080008\n",
    )?;
    show_text(rt, "an empty text", b"")?;
    show_text(rt, "only the end of a line", b"\n")?;
    show_text(
        rt,
        "a lower-case digit",
        b"0101000500050001\n0202000a000100080001\n",
    )?;
    show_text(rt, "an odd count of digits", b"010100050005000\n")?;
    show_text(rt, "a settled row", b"1202000A0001000800010001\n")?;
    show_text(rt, "a byte less", b"01010005000500\n")?;
    show_text(rt, "the last line not ended", b"0101000500050001")?;
    show_text(rt, "16,385 bytes", &[b'\n'; 16_385])?;
    show_text(rt, "33 rows", &many_rows())
}

pub fn show_row_faults(rt: &HostRuntime) -> io::Result<()> {
    show_text(rt, "spacing 0", b"0101000000050001\n")?;
    show_text(rt, "due 6 of 5", b"0101000500060001\n")?;
    show_text(rt, "cost 0", b"0101000500050000\n")?;
    show_text(rt, "wait 0", b"0202000A000100000001\n")?;
    show_text(rt, "no room", b"02020009000100080001\n")?;
    show_text(rt, "split 0", b"0303001E00040007000900080000\n")?;
    show_text(rt, "total 12", b"0303001E00040007000C00080008\n")
}

fn show_line(rt: &HostRuntime, title: &str, line: &Line) -> io::Result<()> {
    print!(rt; "{title}: ")?;
    rt.stdout().write_all(line.as_slice())
}

pub fn show_lines(rt: &HostRuntime) -> io::Result<()> {
    let page = SettledRow {
        name: 2,
        spacing: 10,
        first: 1,
        wait: 8,
        second: 1,
        split: 1,
    };
    if let Some(line) = row_line(&page) {
        show_line(rt, "settled (10; 1, 8, 1; split 1)", &line)?;
    }
    show_line(rt, "done", &done_line())?;
    show_line(rt, "no split of row 7", &no_split_line(7))?;
    show_line(rt, "overloaded at 3125", &overload_line(3_125))
}
