//! Rows: the demand of one row of each kind, and each refusal that a row can get.
use model::refusal::Refusal;
use rows::bare::{BoundedRow, OpenRow, PlainRow, SettledRow};
use rows::bounded::Bounded;
use rows::kind::Row;
use rows::open::Open;
use rows::plain::Plain;
use rows::settled::Settled;
use std::io;

fn plain(name: u8, spacing: u64, due: u64, cost: u64) -> Result<Plain, Refusal> {
    Plain::try_from(PlainRow {
        name,
        spacing,
        due,
        cost,
    })
}

pub fn open(spacing: u64, first: u64, wait: u64, second: u64) -> Result<Open, Refusal> {
    Open::try_from(OpenRow {
        name: 1,
        spacing,
        first,
        wait,
        second,
    })
}

/// The row's pieces, and its demand at each of the lengths; or why there is no such row.
fn show_row<R: Row + Drop>(
    rt: &HostRuntime,
    title: &str,
    made: Result<R, Refusal>,
    lengths: &[u64],
) -> io::Result<()> {
    let row = match made {
        Ok(row) => row,
        Err(refusal) => return println!(rt; "{title}: {refusal}"),
    };
    let name = row.name();
    let spacing = row.spacing();
    let total = row.total();
    println!(rt; "{title}: name {name}, spacing {spacing}, total {total}")?;
    for number in 1..5 {
        if let Some((ready, cost, due)) = row.piece(number) {
            println!(rt; "  piece {number}: ready {ready}, cap {cost}, due {due}")?;
        }
    }
    for length in lengths {
        show_demand(rt, &row, *length)?;
    }
    Ok(())
}

fn show_demand<R: Row>(rt: &HostRuntime, row: &R, length: u64) -> io::Result<()> {
    match row.demand(length) {
        Some(demand) => println!(rt; "  demand at {length}: {demand}"),
        None => println!(rt; "  demand at {length}: no answer"),
    }
}

pub fn show_demands(rt: &HostRuntime) -> io::Result<()> {
    println!(rt; "== Rows and their demand")?;
    show_row(
        rt,
        "plain (10; due 6, cost 2)",
        plain(1, 10, 6, 2),
        &[0, 5, 6, 15, 16, 26],
    )?;
    show_row(
        rt,
        "settled (20; 2, 4, 3; split 4)",
        Settled::try_from(SettledRow {
            name: 2,
            spacing: 20,
            first: 2,
            wait: 4,
            second: 3,
            split: 4,
        }),
        &[3, 4, 12, 16, 23, 24, 31, 32, 36],
    )?;
    show_row(
        rt,
        "bounded (30; 4, 7, 9; wait 8; split 8)",
        Bounded::try_from(BoundedRow {
            name: 3,
            spacing: 30,
            first: 4,
            second: 7,
            total: 9,
            wait: 8,
            split: 8,
        }),
        &[7, 8, 14, 22, 37, 38, 44],
    )?;
    show_row(
        rt,
        "largest (10000; 10000, 10000)",
        plain(4, 10_000, 10_000, 10_000),
        &[9_999, 10_000, 1_000_000, 1_000_001],
    )
}

/// That something is made, or why it is refused.
pub fn show_answer<R: Drop>(
    rt: &HostRuntime,
    title: &str,
    made: Result<R, Refusal>,
) -> io::Result<()> {
    match made {
        Ok(_) => println!(rt; "{title}: made"),
        Err(refusal) => println!(rt; "{title}: {refusal}"),
    }
}

pub fn show_refusals(rt: &HostRuntime) -> io::Result<()> {
    println!(rt; "== Refusals of rows")?;
    show_answer(rt, "plain (0; 1, 1)", plain(1, 0, 1, 1))?;
    show_answer(rt, "plain (10001; 1, 1)", plain(1, 10_001, 1, 1))?;
    show_answer(rt, "plain (5; 6, 1)", plain(1, 5, 6, 1))?;
    show_answer(rt, "plain (5; 5, 6)", plain(1, 5, 5, 6))?;
    show_answer(rt, "open (10; 1, 0, 1)", open(10, 1, 0, 1))?;
    show_answer(rt, "open (9; 1, 8, 1)", open(9, 1, 8, 1))?;
    show_answer(
        rt,
        "settled (10; 1, 8, 1; split 2)",
        Settled::try_from(SettledRow {
            name: 1,
            spacing: 10,
            first: 1,
            wait: 8,
            second: 1,
            split: 2,
        }),
    )?;
    show_answer(
        rt,
        "bounded (30; 4, 7, 12; wait 8; split 8)",
        Bounded::try_from(BoundedRow {
            name: 1,
            spacing: 30,
            first: 4,
            second: 7,
            total: 12,
            wait: 8,
            split: 8,
        }),
    )
}
