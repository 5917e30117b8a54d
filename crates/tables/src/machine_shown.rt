//! The machine: the worked run, a miss, each refusal of its calls, and the size of its core.
use crate::rows_shown::show_answer;
use loads::load::Load;
use loads::pair::Pair;
use loads::table::Table;
use machine::answer::Ticked;
use machine::machine::Machine;
use model::refusal::Refusal;
use rows::bare::{PlainRow, SettledRow};
use std::io;

fn show_call(
    rt: &HostRuntime,
    title: &str,
    task: u64,
    answer: Result<(), Refusal>,
) -> io::Result<()> {
    match answer {
        Ok(()) => println!(rt; "  {title} {task}: done"),
        Err(refusal) => println!(rt; "  {title} {task}: {refusal}"),
    }
}

// What a tick answers is printed only here.
fn show_tick(rt: &HostRuntime, now: u64, answer: Result<Ticked, Refusal>) -> io::Result<()> {
    match answer {
        Ok(Ticked::Ran { task, piece }) => println!(rt;
            "  tick at {now}: task {task} piece {piece} ran"
        ),
        Ok(Ticked::Idle) => println!(rt; "  tick at {now}: idle"),
        Ok(Ticked::Missed(miss)) => println!(rt;
            "  tick at {now}: task {} piece {} missed at {}",
            miss.task, miss.piece, miss.instant
        ),
        Err(refusal) => println!(rt; "  tick at {now}: {refusal}"),
    }
}

fn tick<L: Load + Drop>(rt: &HostRuntime, machine: &mut Machine<L>) -> io::Result<()> {
    let now = machine.now();
    show_tick(rt, now, machine.tick())
}

fn wake<L: Load + Drop>(rt: &HostRuntime, machine: &mut Machine<L>, task: u64) -> io::Result<()> {
    show_call(rt, "wake", task, machine.wake(task))
}

fn end<L: Load + Drop>(rt: &HostRuntime, machine: &mut Machine<L>, task: u64) -> io::Result<()> {
    show_call(rt, "end", task, machine.end(task))
}

/// A plain and a settled table, one after the other.
pub type Tables<'a> = Pair<Table<'a, PlainRow>, Table<'a, SettledRow>>;

// Rows and not the pair go from function to function: that no pair can be made is shown too.

/// The two tables, if both are lawful.
pub fn paired<'a>(
    plains: &'a [PlainRow],
    settleds: &'a [SettledRow],
) -> Result<Tables<'a>, Refusal> {
    let first = Table::new(plains)?;
    let second = Table::new(settleds)?;
    Ok(Pair { first, second })
}

/// Whether a machine opens on the two tables at `start`.
fn opening(plains: &[PlainRow], settleds: &[SettledRow], start: u64) -> Result<(), Refusal> {
    let load = paired(plains, settleds)?;
    Machine::open(&load, start)?;
    Ok(())
}

/// Both tasks wake at 0; ten ticks, with a wake of task 1 at 9 and at 10.
fn show_worked_run<L: Load + Drop>(rt: &HostRuntime, machine: &mut Machine<L>) -> io::Result<()> {
    wake(rt, machine, 0)?;
    wake(rt, machine, 1)?;
    for _ in 0..9 {
        tick(rt, machine)?;
    }
    wake(rt, machine, 1)?;
    tick(rt, machine)?;
    wake(rt, machine, 1)?;
    let now = machine.now();
    println!(rt; "  now is {now}")
}

/// Two tasks that cannot both be in time, and what a stopped machine answers.
fn show_miss<L: Load + Drop>(rt: &HostRuntime, machine: &mut Machine<L>) -> io::Result<()> {
    wake(rt, machine, 0)?;
    wake(rt, machine, 1)?;
    wake(rt, machine, 1)?;
    for _ in 0..3 {
        tick(rt, machine)?;
    }
    wake(rt, machine, 0)?;
    end(rt, machine, 0)?;
    match machine.miss() {
        Some(miss) => println!(rt; "  the miss kept is task {}", miss.task),
        None => println!(rt; "  no miss is kept"),
    }
}

/// The refusals of calls that do not stop the machine.
fn show_refusals<L: Load + Drop>(rt: &HostRuntime, machine: &mut Machine<L>) -> io::Result<()> {
    wake(rt, machine, 2)?;
    end(rt, machine, 2)?;
    end(rt, machine, 0)?;
    wake(rt, machine, 0)?;
    wake(rt, machine, 0)?;
    end(rt, machine, 1)?;
    end(rt, machine, 0)
}

/// A job that outlives its spacing, which a late piece allows until the next tick.
fn show_open_job<L: Load + Drop>(rt: &HostRuntime, machine: &mut Machine<L>) -> io::Result<()> {
    wake(rt, machine, 0)?;
    wake(rt, machine, 1)?;
    tick(rt, machine)?;
    wake(rt, machine, 1)
}

/// The last instants: 300,000 idle ticks, and one that is refused.
fn show_last_instant<L: Load + Drop>(rt: &HostRuntime, machine: &mut Machine<L>) -> io::Result<()> {
    for _ in 0..300_000 {
        // Idle ticks: what they answer is not shown.
        let _ = machine.tick();
    }
    tick(rt, machine)
}

/// Opens a machine on the two tables at `start`, and shows a run of it.
// Never inlined: so the machines of all runs take the stack one after the other.
#[inline(never)]
fn show_run<'a, F: FnOnce(&HostRuntime, &mut Machine<Tables<'a>>) -> io::Result<()>>(
    rt: &HostRuntime,
    plains: &'a [PlainRow],
    settleds: &'a [SettledRow],
    start: u64,
    run: F,
) -> io::Result<()>
    requires { F.IsAlwaysCallable run }
{
    let Ok(load) = paired(plains, settleds) else {
        return println!(rt; "  no such tables");
    };
    let Ok(mut machine) = Machine::open(load, start) else {
        return println!(rt; "  no machine");
    };
    run(rt, &mut machine)
}

pub fn show_machine(rt: &HostRuntime) -> io::Result<()> {
    println!(rt; "== The machine")?;
    let plain = PlainRow {
        name: 1,
        spacing: 5,
        due: 5,
        cost: 1,
    };
    let page = SettledRow {
        name: 2,
        spacing: 10,
        first: 1,
        wait: 8,
        second: 1,
        split: 1,
    };
    println!(rt; "plain (5; 5, 1), settled (10; 1, 8, 1; split 1)")?;
    show_run(rt, &[plain], &[page], 0, show_worked_run)?;
    println!(rt; "the same, refused calls")?;
    show_run(rt, &[plain], &[page], 7, show_refusals)?;
    println!(rt; "the same, from the latest start")?;
    show_run(
        rt,
        &[plain],
        &[page],
        999_999_999_700_000,
        show_last_instant,
    )?;
    show_answer(
        rt,
        "a later start",
        opening(&[plain], &[page], 999_999_999_700_001),
    )?;
    show_answer(rt, "33 tasks", opening(&[plain; 32], &[page], 0))
}

pub fn show_misses(rt: &HostRuntime) -> io::Result<()> {
    let late = PlainRow {
        name: 1,
        spacing: 2,
        due: 2,
        cost: 2,
    };
    let tight = PlainRow {
        name: 2,
        spacing: 2,
        due: 1,
        cost: 1,
    };
    println!(rt; "plain (2; 2, 2), (2; 1, 1)")?;
    show_run(rt, &[late, tight], &[], 0, show_miss)?;
    let long = PlainRow {
        name: 1,
        spacing: 9,
        due: 1,
        cost: 1,
    };
    let short = PlainRow {
        name: 2,
        spacing: 1,
        due: 1,
        cost: 1,
    };
    println!(rt; "plain (9; 1, 1), (1; 1, 1)")?;
    show_run(rt, &[long, short], &[], 0, show_open_job)?;
    // a machine is its load and its core
    let bytes = size_of::<Machine<()>>();
    println!(rt; "the core takes {bytes} bytes")
}
