//! The power of a net's cells from the potentials of its nodes: cell_grad (`Values::grad`) and cell_power of the Rust.
//! Lengths are in metres.
#![tactic(auto)]

ghost use Rattle.std.specs.Prelude.{◌≡◌, ◌^◌, ◌<◌, ◌≤◌, map, length};
ghost use Rattle.std.specs.List.{list_all};
ghost use Rattle.cell.specs.Ticks.{metres_of};
ghost use Rattle.floats.specs.Fractions.{in_sheet, in_potential};
ghost use Rattle.refusals.specs.Said.{written};
ghost use Rattle.net_rows.specs.Nets.{nth_cell};
ghost use Rattle.power.specs.Formulas.{slope_of, power_of};
ghost use Rattle.power.specs.Powers.{cell_values, cell_power, in_ranges, power_said, power_says, power_row};

pub mod laws;

use net_rows::{NetCell, NetRows, SoundNet};
use refusals::Refusal;

// What a cell's slope is worked out from: the potentials at SW, SE, NE, NW and the sides in ticks.
#[derive(Clone, Copy)]
pub struct Values {
    pub u0: f64,
    pub u1: f64,
    pub u2: f64,
    pub u3: f64,
    pub width: u64,
    pub height: u64,
}

impl Values {
    // A cell's slope and extents from its values. Internal: the sides are those of a sound cell.
    fn grad(self) -> Slope
        requires width { self.width < 2 ^ 53 }
        requires height { self.height < 2 ^ 53 }
        ensures { result ≡ slope_of self.u0 self.u1 self.u2 self.u3 (metres_of self.width) (metres_of self.height) }
    {
        let dx = cell::ticks::metres(self.width);
        let dy = cell::ticks::metres(self.height);
        Slope {
            gx: ((self.u1 + self.u2) - (self.u0 + self.u3)) / (2.0 * dx),
            gy: ((self.u2 + self.u3) - (self.u0 + self.u1)) / (2.0 * dy),
            dx,
            dy,
        }
    }
}

// A cell's slope and extents.
#[derive(Clone, Copy)]
pub struct Slope {
    pub gx: f64,
    pub gy: f64,
    pub dx: f64,
    pub dy: f64,
}

impl Slope {
    fn power(self, sheet: f64) -> f64
        ensures { result ≡ power_of self sheet }
    {
        (((self.gx * self.gx + self.gy * self.gy) * self.dx) * self.dy) / sheet
    }
}

// The values of cell c. Internal: the cell is one of the net, with a potential for each node.
#[tactic(auto, unfolding(crate::specs::Powers::cell_values))]
#[inline(always)]
fn cell_values(net: &SoundNet, potentials: &[f64], c: usize) -> Values
    requires inside { c < length net.now.rows.cells.now }
    requires a_potential_each { length potentials.now ≡ length net.now.rows.nodes.now }
    ensures values { result
        ≡ cell_values net.now.rows.nodes.now potentials.now (nth_cell net.now.rows.cells.now c) }
    ensures width_in_range { result.width < 2 ^ 53 }
    ensures height_in_range { result.height < 2 ^ 53 }
{
    let at = net.cell(c).corners;
    Values {
        u0: potentials[at.southwest],
        u1: potentials[at.southeast],
        u2: potentials[at.northeast],
        u3: potentials[at.northwest],
        width: net.width(c),
        height: net.height(c),
    }
}

// Tried `all`, which stops at the first: its like in C takes 10.6 microseconds for 5.3 at 10,000 potentials.
fn potentials_in_range(potentials: &[f64]) -> bool
    ensures { result ≡ list_all in_potential potentials.now }
{
    let mut good = true;
    for &u in potentials {
        good &= floats::potential_in_range(u);
    }
    good
}

// From the last to the first: the last ones were judged last, and the first are asked for next.
fn sheets_in_range(cells: &[NetCell]) -> bool
    ensures { result ≡ list_all (λ c. in_sheet c.sheet) cells.now }
{
    let mut good = true;
    for c in (0..cells.len()).rev() {
        good &= floats::sheet_in_range(cells[c].sheet);
    }
    good
}

// Puts the power of each cell in its answer, two cells a turn: both are loaded before either is divided, so that the
// divisions go together. Internal: there is a potential for each node, and room for the answers.
#[inline(always)]
fn fill(net: &SoundNet, potentials: &[f64], answers: &mut [f64])
    requires a_potential_each { length potentials.now ≡ length net.now.rows.nodes.now }
    requires room { length net.now.rows.cells.now ≤ length answers.old }
    ensures { answers.new
        ≡ written (map (cell_power net.now.rows.nodes.now potentials.now) net.now.rows.cells.now) answers.old }
{
    let cells = net.rows.cells;
    let mut c = 0usize;
    while c < cells.len() {
        let first = cell_values(net, potentials, c);
        // The last of an odd number.
        if c + 1 == cells.len() {
            answers[c] = first.grad().power(cells[c].sheet);
            return;
        }
        let second = cell_values(net, potentials, c + 1);
        let p = first.grad().power(cells[c].sheet);
        let q = second.grad().power(cells[c + 1].sheet);
        answers[c] = p;
        answers[c + 1] = q;
        c += 2;
    }
}

// Whether each value is one that the rules allow, and there is a potential for each node.
#[tactic(auto, unfolding(crate::specs::Powers::in_ranges))]
#[inline(always)]
fn in_ranges(net: &SoundNet, potentials: &[f64]) -> bool
    ensures { result ≡ in_ranges net.now.rows.nodes.now net.now.rows.cells.now potentials.now }
{
    let sheets = sheets_in_range(net.rows.cells);
    (potentials.len() == net.rows.nodes.len()) & potentials_in_range(potentials) & sheets
}

/// The rules' cell_power: refusal 7 for a bad net, 3 for a value out of range, 6 for fewer answers than cells.
#[tactic(auto, unfolding(crate::specs::Powers::power_says, crate::specs::Powers::power_row))]
#[inline(always)]
pub fn cell_power(rows: &NetRows, potentials: &[f64], answers: &mut [f64]) -> Result<(), Refusal>
    ensures answer { power_said result
        ≡ power_says rows.now.nodes.now rows.now.edges.now rows.now.cells.now potentials.now answers.old }
    ensures row { answers.new
        ≡ power_row rows.now.nodes.now rows.now.edges.now rows.now.cells.now potentials.now answers.old }
{
    let net = SoundNet::judge(rows).ok_or(Refusal::BadTable)?;
    if !in_ranges(&net, potentials) {
        return Err(Refusal::OutOfRange(0));
    }
    if answers.len() < net.rows.cells.len() {
        return Err(Refusal::NoRoom);
    }
    fill(&net, potentials, answers);
    Ok(())
}
