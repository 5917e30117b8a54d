//! Every refusal of the text reader, at the first line and at a last one.
use frames::fault::{Fault, Layer};
use frames::text::{Counts, read_text};
use rows::bare::{BoundedRow, OpenRow, PlainRow};
use std::alloc::{AllocError, Global};
use std::process::Abort;
use std::test::Fail;

const PLAIN: PlainRow = PlainRow {
    name: 9,
    spacing: 9,
    due: 9,
    cost: 9,
};

const OPEN: OpenRow = OpenRow {
    name: 9,
    spacing: 9,
    first: 9,
    wait: 9,
    second: 9,
};

const BOUNDED: BoundedRow = BoundedRow {
    name: 9,
    spacing: 9,
    first: 9,
    second: 9,
    total: 9,
    wait: 9,
    split: 9,
};

/// A line of each kind.
const PLAIN_LINE: &str = "0101000500050001\n";

const OPEN_LINE: &str = "0202000A000100080001\n";

const BOUNDED_LINE: &str = "0303001E00040007000900080008\n";

/// A line that is refused, without its end, with the refusal's number and layer.
// By number: the table of numbers is tested too.
struct Case {
    line: &'static str,
    number: u8,
    layer: Layer,
}

const CASES: [Case; 39] = [
    Case {
        line: "010100050005000",
        number: 22,
        layer: Layer::Text,
    },
    Case {
        line: "01010005000500010",
        number: 22,
        layer: Layer::Text,
    },
    Case {
        line: "0x",
        number: 22,
        layer: Layer::Text,
    },
    Case {
        line: "0202000a000100080001",
        number: 22,
        layer: Layer::Text,
    },
    Case {
        line: "0101000500050001\r",
        number: 22,
        layer: Layer::Text,
    },
    Case {
        line: " 0101000500050001",
        number: 22,
        layer: Layer::Text,
    },
    Case {
        line: "ZZ",
        number: 22,
        layer: Layer::Text,
    },
    Case {
        line: "1",
        number: 22,
        layer: Layer::Text,
    },
    Case {
        line: "",
        number: 23,
        layer: Layer::Frame,
    },
    Case {
        line: "00",
        number: 23,
        layer: Layer::Frame,
    },
    Case {
        line: "04",
        number: 23,
        layer: Layer::Frame,
    },
    Case {
        line: "1202000A0001000800010001",
        number: 23,
        layer: Layer::Frame,
    },
    Case {
        line: "F0",
        number: 23,
        layer: Layer::Frame,
    },
    Case {
        line: "01",
        number: 24,
        layer: Layer::Frame,
    },
    Case {
        line: "01010005000500",
        number: 24,
        layer: Layer::Frame,
    },
    Case {
        line: "010100050005000100",
        number: 24,
        layer: Layer::Frame,
    },
    Case {
        line: "0202000A0001000800",
        number: 24,
        layer: Layer::Frame,
    },
    Case {
        line: "0202000A00010008000100",
        number: 24,
        layer: Layer::Frame,
    },
    Case {
        line: "0303001E000400070009000800",
        number: 24,
        layer: Layer::Frame,
    },
    Case {
        line: "0303001E0004000700090008000800",
        number: 24,
        layer: Layer::Frame,
    },
    Case {
        line: "0101000000010001",
        number: 1,
        layer: Layer::Row,
    },
    Case {
        line: "0101271100010001",
        number: 1,
        layer: Layer::Row,
    },
    Case {
        line: "0101000500000001",
        number: 2,
        layer: Layer::Row,
    },
    Case {
        line: "0101000500060001",
        number: 2,
        layer: Layer::Row,
    },
    Case {
        line: "0101000500050000",
        number: 3,
        layer: Layer::Row,
    },
    Case {
        line: "0101000500040005",
        number: 3,
        layer: Layer::Row,
    },
    Case {
        line: "02020000000100010001",
        number: 1,
        layer: Layer::Row,
    },
    Case {
        line: "0202000A000000080001",
        number: 4,
        layer: Layer::Row,
    },
    Case {
        line: "0202000A000100000001",
        number: 4,
        layer: Layer::Row,
    },
    Case {
        line: "0202000A000100080000",
        number: 4,
        layer: Layer::Row,
    },
    Case {
        line: "02020009000100080001",
        number: 5,
        layer: Layer::Row,
    },
    Case {
        line: "0303271100040007000900080008",
        number: 1,
        layer: Layer::Row,
    },
    Case {
        line: "0303001E00000007000900080008",
        number: 4,
        layer: Layer::Row,
    },
    Case {
        line: "0303001E00040007000400080008",
        number: 7,
        layer: Layer::Row,
    },
    Case {
        line: "0303001E00040007000600080008",
        number: 7,
        layer: Layer::Row,
    },
    Case {
        line: "0303001E00040007000C00080008",
        number: 7,
        layer: Layer::Row,
    },
    Case {
        line: "0303001000040007000900080007",
        number: 5,
        layer: Layer::Row,
    },
    Case {
        line: "0303001E00040007000900080000",
        number: 6,
        layer: Layer::Row,
    },
    Case {
        line: "0303001E00040007000900080016",
        number: 6,
        layer: Layer::Row,
    },
];

fn read(text: &[u8]) -> Result<Counts, Fault> {
    read_text(text, &mut [PLAIN; 33], &mut [OPEN; 33], &mut [BOUNDED; 33])
}

fn refused(
    rt: &impl Abort,
    answer: Result<Counts, Fault>,
    number: u8,
    line: u16,
    layer: Layer,
) -> Result<(), Fail> {
    refused_with(rt, answer, number, line, layer, "the whole text")
}

/// The same, with what is shown where it fails.
fn refused_with(
    rt: &impl Abort,
    answer: Result<Counts, Fault>,
    number: u8,
    line: u16,
    layer: Layer,
    note: &str,
) -> Result<(), Fail> {
    match answer {
        Ok(_) => panic!(rt; "accepted: {note}"),
        Err(fault) => {
            assert_eq!(rt; fault.number(), number, "{note}");
            assert_eq!(rt; fault.line, line, "{note}");
            assert_eq!(rt; fault.layer, layer, "{note}");
            Ok(())
        }
    }
}

/// A line some times over, and what follows.
fn repeated(heap: Global, line: &str, times: usize, rest: &str) -> Result<Vec<u8>, AllocError> {
    let mut text = Vec::new(heap);
    for _ in 0..times {
        text.extend_from_slice(line.as_bytes())?;
    }
    text.extend_from_slice(rest.as_bytes())?;
    Ok(text)
}

#[test]
fn lines_are_refused(rt: HostRuntime) -> Result<(), Fail> {
    for case in &CASES {
        let first = repeated(rt.alloc(), case.line, 1, "\n")?;
        refused_with(&rt, read(&first), case.number, 1, case.layer, case.line)?;
        let mut last = repeated(rt.alloc(), OPEN_LINE, 32, PLAIN_LINE)?;
        last.extend_from_slice(first.as_slice())?;
        refused_with(&rt, read(&last), case.number, 34, case.layer, case.line)?;
    }
    Ok(())
}

#[test]
fn tables_are_full_at_32(rt: HostRuntime) -> Result<(), Fail> {
    for line in [PLAIN_LINE, OPEN_LINE, BOUNDED_LINE] {
        let full = repeated(rt.alloc(), line, 32, "")?;
        assert!(rt; read(&full).is_ok(), "{}", line);
        let over = repeated(rt.alloc(), line, 33, "")?;
        refused_with(&rt, read(&over), 9, 33, Layer::Table, line)?;
    }
    let two = repeated(rt.alloc(), PLAIN_LINE, 2, OPEN_LINE)?;
    refused(
        &rt,
        read_text(&two, &mut [PLAIN; 1], &mut [OPEN; 1], &mut []),
        9,
        2,
        Layer::Table,
    )?;
    refused(
        &rt,
        read_text(&two, &mut [PLAIN; 2], &mut [], &mut []),
        9,
        3,
        Layer::Table,
    )
}

#[test]
fn whole_texts_are_refused(rt: HostRuntime) -> Result<(), Fail> {
    let longest = repeated(rt.alloc(), "\n", 16_384, "")?;
    refused(&rt, read(&longest), 23, 1, Layer::Frame)?;
    let longer = repeated(rt.alloc(), "\n", 16_385, "")?;
    refused(&rt, read(&longer), 25, 0, Layer::Text)?;
    let open_and_longer = repeated(rt.alloc(), "0", 16_385, "")?;
    refused(&rt, read(&open_and_longer), 25, 0, Layer::Text)?;
    refused(&rt, read(b"0"), 26, 0, Layer::Text)?;
    let open = repeated(rt.alloc(), PLAIN_LINE, 2, "0x")?;
    refused(&rt, read(&open), 26, 0, Layer::Text)
}

#[test]
fn rows_before_a_fault_stay(rt: HostRuntime) -> Result<(), Fail> {
    let mut plains = [PLAIN; 2];
    let mut opens = [OPEN; 2];
    let mut boundeds = [BOUNDED; 1];
    let text = b"0101000500050001\n0202000A000100080001\n03\n0104000500050001\n";
    refused(
        &rt,
        read_text(text, &mut plains, &mut opens, &mut boundeds),
        24,
        3,
        Layer::Frame,
    )?;
    let first = PlainRow {
        name: 1,
        spacing: 5,
        due: 5,
        cost: 1,
    };
    let second = OpenRow {
        name: 2,
        spacing: 10,
        first: 1,
        wait: 8,
        second: 1,
    };
    assert_eq!(rt; plains, [first, PLAIN]);
    assert_eq!(rt; opens, [second, OPEN]);
    assert_eq!(rt; boundeds, [BOUNDED]);
    Ok(())
}

#[test]
fn texts_are_accepted(rt: HostRuntime) -> Result<(), Fail> {
    let none = read(b"").ok().ok_or("refused")?;
    let zeros = Counts {
        plains: 0,
        opens: 0,
        boundeds: 0,
    };
    assert_eq!(rt; none, zeros);
    let three = read(
        b"03FF271003E807D00BB80FA003E8\n0202000A000100080001\n0303001E0004000700090008000A\n",
    ).ok()
        .ok_or("refused")?;
    let counts = Counts {
        plains: 0,
        opens: 1,
        boundeds: 2,
    };
    assert_eq!(rt; three, counts);
    Ok(())
}
