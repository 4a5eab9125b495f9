//! Runs stored cases of contact, leaf count, leaves, leaf order, refine, balance and conform, and prints every answer
//! with the row that was lent. `stdin` has the cases and `stdout` what the original answered. Both were written by
//!
//!     oracle/replays.sh
#![tactic(auto)]

use cases::stored::Stored;
use cases::{Cases, print};
use cell::border::Border;
use cell::rectangles::Rect;
use even::Evening;
use refusals::Refusal;
use std::alloc::{AllocError, Global};
use std::fmt::Write;
use std::io;
use table::Head;

const CONTACT: u64 = 1;

const LEAF_COUNT: u64 = 2;

const LEAVES: u64 = 3;

const LEAF_ORDER: u64 = 4;

const REFINE: u64 = 5;

const BALANCE: u64 = 6;

const CONFORM: u64 = 7;

const LEAVES_OF_ZEROS: u64 = 8;

const LEAVES_OF_PART: u64 = 9;

// The side's number and the length, or nothing.
fn print_border(out: &mut String, border: Option<Border>) -> Result<(), AllocError> {
    if let Some(Border { side, length }) = border {
        write!(out, " {} {}", side.number(), length)?;
    }
    writeln!(out)
}

fn print_evening(out: &mut String, evening: Evening) -> Result<(), AllocError> {
    write!(out, " {}", evening.splits)?;
    print::head(out, evening.head)
}

fn rectangle(cases: &mut Cases) -> Rect {
    let [x0, y0, x1, y1] = <[i64; 4]>::stored(cases);
    Rect { x0, y0, x1, y1 }
}

fn run_contact(cases: &mut Cases, out: &mut String) -> Result<(), AllocError> {
    let a = rectangle(cases);
    let b = rectangle(cases);
    write!(out, "contact")?;
    print::answered(out, cell::rectangles::between(a, b), print_border)
}

// What a call that lists leaves answered, and its list.
fn print_list(
    out: &mut String,
    call: &str,
    answer: Result<usize, Refusal>,
    ids: &[u64],
) -> Result<(), AllocError> {
    write!(out, "{call}")?;
    print::counted(out, answer)?;
    print::row(out, ids)
}

fn run_refine(out: &mut String, t: &mut [i64], head: Head, id: usize) -> Result<(), AllocError> {
    write!(out, "refine")?;
    print::answered(out, table::refine::refine(t, head, id), print::head)?;
    print::row(out, t)
}

// What balance or conform answered, and the table.
fn print_evened(
    out: &mut String,
    call: &str,
    answer: Result<Evening, Refusal>,
    t: &[i64],
) -> Result<(), AllocError> {
    write!(out, "{call}")?;
    print::answered(out, answer, print_evening)?;
    print::row(out, t)
}

fn run_leaves(out: &mut String, t: &[i64], head: Head, ids: &mut [u64]) -> Result<(), AllocError> {
    let answer = table::leaves::leaves(t, head, ids);
    print_list(out, "leaves", answer, ids)
}

// A table stands next, its head in front, and behind it what the call of this kind takes.
fn run_table(
    alloc: Global,
    cases: &mut Cases,
    kind: u64,
    out: &mut String,
) -> Result<(), AllocError> {
    let head = cases.head();
    let mut t: Vec<i64> = cases.row(alloc)?;
    match kind {
        REFINE => run_refine(out, &mut t, head, cases.index()),
        BALANCE => {
            let answer = even::balance(&mut t, head);
            print_evened(out, "balance", answer, &t)
        }
        CONFORM => {
            let answer = even::conform(&mut t, head);
            print_evened(out, "conform", answer, &t)
        }
        LEAF_COUNT => writeln!(out, "leaf_count {}", table::leaves::leaf_count(head)),
        LEAVES => {
            let mut ids: Vec<u64> = cases.row(alloc)?;
            run_leaves(out, &t, head, &mut ids)
        }
        LEAF_ORDER => {
            let mut ids: Vec<u64> = cases.row(alloc)?;
            let answer = table::leaves::leaf_order(&t, head, &mut ids);
            print_list(out, "leaf_order", answer, &ids)
        }
        _ => writeln!(out, "unknown {kind}"),
    }
}

// A row of zeros, which may be longer than a stream: its length stands behind the head.
fn run_zeros(alloc: Global, cases: &mut Cases, out: &mut String) -> Result<(), AllocError> {
    let head = cases.head();
    let zeros = vec![in alloc; 0i64; cases.index()]?;
    run_leaves(out, &zeros, head, &mut [])
}

// A length stands behind the head, then a table of which no more than that is lent: what stands behind could pass for a
// part of it.
fn run_part(alloc: Global, cases: &mut Cases, out: &mut String) -> Result<(), AllocError> {
    let head = cases.head();
    let length = cases.index();
    let t: Vec<i64> = cases.row(alloc)?;
    match t.get(..length) {
        Some(front) => run_leaves(out, front, head, &mut []),
        None => Ok(()),
    }
}

fn run(alloc: Global, cases: &mut Cases, out: &mut String) -> Result<(), AllocError> {
    match cases.word() {
        CONTACT => run_contact(cases, out),
        LEAVES_OF_ZEROS => run_zeros(alloc, cases, out),
        LEAVES_OF_PART => run_part(alloc, cases, out),
        kind => run_table(alloc, cases, kind, out),
    }
}

// As many cases as the stream says.
fn main(rt: HostRuntime) -> io::Result<()> {
    let mut cases = Cases::read(&rt)?;
    let mut out = String::new(rt.alloc());
    for _ in 0..cases.word() {
        run(rt.alloc(), &mut cases, &mut out)?;
    }
    rt.print(out)
}
