//! Runs stored cases of strips and build, and prints every answer with the row that was lent. `stdin` has the cases and
//! `stdout` what the original answered. Both were written by
//!
//!     oracle/replays.sh
#![tactic(auto)]

use build::Settings;
use build::outlines::Outlines;
use cases::{Cases, print};
use refusals::Refusal;
use std::alloc::{AllocError, Global};
use std::fmt::Write;
use std::io;
use table::Head;

const STRIPS: u64 = 1;

const BUILD: u64 = 2;

const BUILD_IN_ZEROS: u64 = 3;

// A ring and the row for its strips stand next.
fn run_strips(alloc: Global, cases: &mut Cases, out: &mut String) -> Result<(), AllocError> {
    let points: Vec<[i64; 2]> = cases.row(alloc)?;
    let mut row: Vec<[i64; 4]> = cases.row(alloc)?;
    write!(out, "strips")?;
    print::counted(out, strips::strips(&points, &mut row))?;
    print::rectangles(out, &row)
}

fn read_settings(cases: &mut Cases) -> Settings {
    let max_level = cases.word();
    let cap = cases.word();
    let target = cases.word();
    Settings {
        max_level,
        cap,
        target,
    }
}

// A board as it is stored: the settings, the layer list and the polygons' rows.
#[derive(Drop)]
struct Board {
    settings: Settings,
    list: Vec<[u64; 2]>,
    layers: Vec<u16>,
    components: Vec<u32>,
    sheets: Vec<f64>,
    counts: Vec<u64>,
    points: Vec<[i64; 2]>,
}

impl Board {
    fn read(alloc: Global, cases: &mut Cases) -> Result<Board, AllocError> {
        Ok(Board {
            settings: read_settings(cases),
            list: cases.row(alloc)?,
            layers: cases.row(alloc)?,
            components: cases.row(alloc)?,
            sheets: cases.row(alloc)?,
            counts: cases.row(alloc)?,
            points: cases.row(alloc)?,
        })
    }

    fn build(&self, table: &mut [i64]) -> Result<Head, Refusal> {
        let outlines = Outlines {
            layers: &self.layers,
            components: &self.components,
            sheets: &self.sheets,
            counts: &self.counts,
            points: &self.points,
        };
        build::build(self.settings, &self.list, &outlines, table)
    }
}

// A board and the table stand next.
fn run_build(alloc: Global, cases: &mut Cases, out: &mut String) -> Result<(), AllocError> {
    let board = Board::read(alloc, cases)?;
    let mut table: Vec<i64> = cases.row(alloc)?;
    write!(out, "build")?;
    print::answered(out, board.build(&mut table), print::head)?;
    print::row(out, &table)
}

// A table of zeros, which may be longer than a stream: its length stands behind the board.
fn run_build_in_zeros(
    alloc: Global,
    cases: &mut Cases,
    out: &mut String,
) -> Result<(), AllocError> {
    let board = Board::read(alloc, cases)?;
    let mut table = vec![in alloc; 0i64; cases.index()]?;
    write!(out, "build")?;
    print::answered(out, board.build(&mut table), print::head)
}

// As many cases as the stream says.
fn main(rt: HostRuntime) -> io::Result<()> {
    let mut cases = Cases::read(&rt)?;
    let mut out = String::new(rt.alloc());
    for _ in 0..cases.word() {
        match cases.word() {
            STRIPS => run_strips(rt.alloc(), &mut cases, &mut out)?,
            BUILD => run_build(rt.alloc(), &mut cases, &mut out)?,
            BUILD_IN_ZEROS => run_build_in_zeros(rt.alloc(), &mut cases, &mut out)?,
            kind => writeln!(out, "unknown {kind}")?,
        }
    }
    rt.print(out)
}
