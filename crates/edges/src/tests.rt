//! Each row of a table: the numbers, and the number of the refusal that they get, if any.
use loads::factor::Factor;
use loads::table::Table;
use model::refusal::Refusal;
use rows::bare::{BoundedRow, OpenRow, PlainRow, SettledRow};
use rows::bounded::Bounded;
use rows::kind::Bare;
use rows::open::Open;
use rows::plain::Plain;
use rows::settled::Settled;

// By number: the table of numbers is tested too.
/// The number of a refusal, if there is one.
fn number<T: Drop>(made: Result<T, Refusal>) -> Option<u8> {
    Some(made.err()?.number())
}

/// The number by which a table of the rows is refused, if it is.
fn table_number<R: Bare>(rows: &[R]) -> Option<u8> {
    number(Table::new(rows))
}

// A maker for each kind: each names the fields of its own row.
fn plain(row: (u64, u64, u64)) -> Option<u8> {
    let (spacing, due, cost) = row;
    number(Plain::try_from(PlainRow {
        name: 7,
        spacing,
        due,
        cost,
    }))
}

fn open(row: (u64, u64, u64, u64)) -> Option<u8> {
    let (spacing, first, wait, second) = row;
    number(Open::try_from(OpenRow {
        name: 7,
        spacing,
        first,
        wait,
        second,
    }))
}

fn settled(row: (u64, u64, u64, u64), split: u64) -> Option<u8> {
    let (spacing, first, wait, second) = row;
    number(Settled::try_from(SettledRow {
        name: 7,
        spacing,
        first,
        wait,
        second,
        split,
    }))
}

fn bounded(costs: (u64, u64, u64), spacing: u64, wait: u64, split: u64) -> Option<u8> {
    let (first, second, total) = costs;
    number(Bounded::try_from(BoundedRow {
        name: 7,
        spacing,
        first,
        second,
        total,
        wait,
        split,
    }))
}

fn factor(value: u64) -> Option<u8> {
    number(Factor::new(value))
}

const MAX: u64 = u64::MAX;

#[test]
fn plain_rows(rt: HostRuntime) {
    let cases = [
        ((0, 1, 1), Some(1)),
        ((1, 1, 1), None),
        ((10_000, 10_000, 10_000), None),
        ((10_001, 1, 1), Some(1)),
        ((MAX, 1, 1), Some(1)),
        ((5, 5, 5), None),
        ((5, 0, 0), Some(2)),
        ((5, 6, 1), Some(2)),
        ((5, MAX, 1), Some(2)),
        ((5, 4, 4), None),
        ((5, 4, 5), Some(3)),
        ((5, 5, 0), Some(3)),
        ((5, 5, MAX), Some(3)),
        ((0, 0, 0), Some(1)),
    ];
    for (row, refusal) in cases {
        assert_eq!(rt; plain(row), refusal);
    }
}

#[test]
fn open_rows(rt: HostRuntime) {
    let cases = [
        ((9, 1, 8, 1), Some(5)),
        ((10, 1, 8, 1), None),
        ((3, 1, 1, 1), None),
        ((2, 1, 1, 1), Some(5)),
        ((10, 0, 8, 1), Some(4)),
        ((10, 1, 0, 1), Some(4)),
        ((10, 1, 8, 0), Some(4)),
        ((0, 0, 0, 0), Some(1)),
        ((10_000, 4_999, 1, 5_000), None),
        ((10_000, 5_000, 1, 5_000), Some(5)),
        ((10_001, 1, 1, 1), Some(1)),
        ((10, MAX, 1, 1), Some(5)),
        ((10, 1, MAX, 1), Some(5)),
        ((10, 1, 1, MAX), Some(5)),
        ((10, MAX, MAX, MAX), Some(5)),
        ((MAX, MAX, MAX, MAX), Some(1)),
    ];
    for (row, refusal) in cases {
        assert_eq!(rt; open(row), refusal);
    }
}

#[test]
fn splits(rt: HostRuntime) {
    let cases = [
        (0, Some(6)),
        (1, None),
        (6, None),
        (7, Some(6)),
        (MAX, Some(6)),
    ];
    for (split, refusal) in cases {
        assert_eq!(rt; settled((10, 1, 3, 2), split), refusal);
    }
    assert_eq!(rt; settled((9, 1, 8, 1), 0), Some(5));
}

#[test]
fn bounded_rows(rt: HostRuntime) {
    let totals = [
        (4, Some(7)),
        (5, Some(7)),
        (6, Some(7)),
        (7, None),
        (9, None),
        (11, None),
        (12, Some(7)),
        (MAX, Some(7)),
        (0, Some(7)),
    ];
    for (total, refusal) in totals {
        assert_eq!(rt; bounded((4, 7, total), 30, 8, 8), refusal);
    }
    assert_eq!(rt; bounded((7, 4, 8), 30, 8, 8), None);
    assert_eq!(rt; bounded((0, 7, MAX), 30, 8, 8), Some(4));
    assert_eq!(rt; bounded((4, 7, 9), 17, 8, 8), None);
    assert_eq!(rt; bounded((4, 7, 9), 16, 8, 8), Some(5));
    assert_eq!(rt; bounded((4, 7, 9), 17, 8, 9), Some(6));
    assert_eq!(rt; bounded((4, 7, 9), 17, MAX, 8), Some(5));
    assert_eq!(rt; bounded((MAX, MAX, MAX), 30, 8, 8), Some(7));
    assert_eq!(rt; bounded((MAX - 1, 1, MAX), 30, 8, 8), Some(5));
}

#[test]
fn factors(rt: HostRuntime) {
    let cases = [
        (0, Some(8)),
        (1, Some(8)),
        (2, None),
        (8, None),
        (9, Some(8)),
        (MAX, Some(8)),
    ];
    for (value, refusal) in cases {
        assert_eq!(rt; factor(value), refusal);
    }
}

#[test]
fn tables(rt: HostRuntime) {
    let good = PlainRow {
        name: 1,
        spacing: 5,
        due: 5,
        cost: 1,
    };
    let late = PlainRow { due: 6, ..good };
    let vast = PlainRow {
        spacing: MAX,
        ..late
    };
    assert_eq!(rt; table_number(&[good, late, vast]), Some(2));
    assert_eq!(rt; table_number(&[good, vast, late]), Some(1));
    assert_eq!(rt; table_number(&[good; 32]), None);
    assert_eq!(rt; table_number(&[vast; 33]), Some(9));
}
