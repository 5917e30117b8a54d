//! Loads: the verdicts on tables, pairs and slowed loads, and the splits of open rows.
use crate::machine_shown::paired;
use crate::rows_shown::open;
use checking::check;
use loads::factor::Factor;
use loads::load::Load;
use loads::pair::Pair;
use loads::slowed::Slowed;
use loads::table::Table;
use model::refusal::Refusal;
use rows::bare::{BoundedRow, PlainRow, SettledRow};
use rows::open::Open;
use splits::splitter::Splitter;
use splits::splitters::{Equal, Falling, Proportional, Rising};
use std::io;

fn plain(spacing: u64, due: u64, cost: u64) -> PlainRow {
    PlainRow {
        name: 1,
        spacing,
        due,
        cost,
    }
}

fn settled(spacing: u64, first: u64, wait: u64, second: u64, split: u64) -> SettledRow {
    SettledRow {
        name: 2,
        spacing,
        first,
        wait,
        second,
        split,
    }
}

fn show_verdict(rt: &HostRuntime, title: &str, verdict: Result<(), Refusal>) -> io::Result<()> {
    match verdict {
        Ok(()) => println!(rt; "{title}: accepted"),
        Err(refusal @ Refusal::Overloaded { length }) => println!(rt;
            "{title}: {refusal} at {length}"
        ),
        Err(refusal) => println!(rt; "{title}: {refusal}"),
    }
}

/// The verdict on two tables, one after the other.
fn judged(plains: &[PlainRow], settleds: &[SettledRow]) -> Result<(), Refusal> {
    check(&paired(plains, settleds)?)
}

/// The verdict on the same two tables on a slower machine.
fn judged_slowed(plains: &[PlainRow], settleds: &[SettledRow], factor: u64) -> Result<(), Refusal> {
    let load = paired(plains, settleds)?;
    let factor = Factor::new(factor)?;
    check(&Slowed { load, factor })
}

/// A slowed pair of a bounded table and a pair that is only lent.
fn judged_pile(
    plains: &[PlainRow],
    settleds: &[SettledRow],
    boundeds: &[BoundedRow],
) -> Result<(), Refusal> {
    let inner = paired(plains, settleds)?;
    let bounded = Table::new(boundeds)?;
    let factor = Factor::new(2)?;
    let outer = Slowed {
        load: Pair {
            first: bounded,
            second: &inner,
        },
        factor,
    };
    check(&outer)
}

pub fn show_verdicts(rt: &HostRuntime) -> io::Result<()> {
    println!(rt; "== Verdicts")?;
    let page = settled(10, 1, 8, 1, 1);
    show_verdict(
        rt,
        "plain (5; 5, 1), settled (10; 1, 8, 1; split 1)",
        judged(&[plain(5, 5, 1)], &[page]),
    )?;
    show_verdict(
        rt,
        "plain (5; 1, 1), settled (10; 1, 8, 1; split 1)",
        judged(&[plain(5, 1, 1)], &[page]),
    )?;
    show_verdict(
        rt,
        "the first slowed by 2",
        judged_slowed(&[plain(5, 5, 1)], &[page], 2),
    )?;
    show_verdict(
        rt,
        "the first slowed by 1",
        judged_slowed(&[plain(5, 5, 1)], &[page], 1),
    )?;
    show_verdict(rt, "no tasks", judged(&[], &[]))?;
    show_verdict(rt, "plain (5; 5, 5)", judged(&[plain(5, 5, 5)], &[]))?;
    show_verdict(
        rt,
        "plain (5; 5, 5), (5; 5, 1)",
        judged(&[plain(5, 5, 5), plain(5, 5, 1)], &[]),
    )?;
    show_verdict(
        rt,
        "plain (32; 32, 16), (3125; 3125, 1000)",
        judged(&[plain(32, 32, 16), plain(3_125, 3_125, 1_000)], &[]),
    )?;
    show_verdict(
        rt,
        "plain (32; 32, 16), (3125; 3125, 1600)",
        judged(&[plain(32, 32, 16), plain(3_125, 3_125, 1_600)], &[]),
    )?;
    show_verdict(
        rt,
        "plain (11; 11, 1), (9091; 9091, 1)",
        judged(&[plain(11, 11, 1), plain(9_091, 9_091, 1)], &[]),
    )?;
    show_verdict(
        rt,
        "32 rows and 1",
        judged(&[plain(100, 100, 1); 32], &[page]),
    )?;
    show_verdict(
        rt,
        "33 rows in a table",
        judged(&[plain(100, 100, 1); 33], &[]),
    )?;
    show_verdict(
        rt,
        "an unlawful row in a table",
        judged(&[plain(5, 5, 1), plain(5, 6, 1)], &[page]),
    )
}

pub fn show_piles(rt: &HostRuntime) -> io::Result<()> {
    let bounded = BoundedRow {
        name: 3,
        spacing: 100,
        first: 10,
        second: 12,
        total: 15,
        wait: 20,
        split: 40,
    };
    show_verdict(
        rt,
        "a pile three deep, accepted",
        judged_pile(
            &[plain(50, 50, 3)],
            &[settled(100, 5, 20, 6, 40)],
            &[bounded],
        ),
    )?;
    show_verdict(
        rt,
        "a pile three deep, overloaded",
        judged_pile(
            &[plain(50, 50, 9)],
            &[settled(100, 5, 20, 6, 40)],
            &[bounded],
        ),
    )
}

/// The first splits that a splitter offers a row, and how many there are.
fn show_offers<S: Splitter>(
    rt: &HostRuntime,
    title: &str,
    splitter: &S,
    row: &Open,
) -> io::Result<()> {
    print!(rt; "{title}:")?;
    for split in (0..3).map_while(|k| splitter.candidate(row, k)) {
        print!(rt; " {split}")?;
    }
    let count = (0..10_000)
        .map_while(|k| splitter.candidate(row, k))
        .count();
    println!(rt; " ({count} in all)")
}

fn show_row_offers(rt: &HostRuntime, title: &str, made: Result<Open, Refusal>) -> io::Result<()> {
    println!(rt; "{title}")?;
    if let Ok(row) = made {
        show_offers(rt, "  equal", &Equal, &row)?;
        show_offers(rt, "  proportional", &Proportional, &row)?;
        show_offers(rt, "  falling", &Falling, &row)?;
        show_offers(rt, "  rising", &Rising, &row)?;
    }
    Ok(())
}

pub fn show_splits(rt: &HostRuntime) -> io::Result<()> {
    println!(rt; "== Splits")?;
    show_row_offers(rt, "open (10; 1, 3, 2)", open(10, 1, 3, 2))?;
    show_row_offers(rt, "open (10; 2, 3, 1)", open(10, 2, 3, 1))?;
    show_row_offers(rt, "open (30; 2, 5, 3)", open(30, 2, 5, 3))?;
    show_row_offers(
        rt,
        "open (10000; 4999, 1, 5000)",
        open(10_000, 4_999, 1, 5_000),
    )
}
