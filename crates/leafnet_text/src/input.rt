//! A record's board in rows of its own, as build, refine and network take it.
ghost use Rattle.std.specs.Prelude.{◌≡◌, ◌≤◌, IfErr, IfOk, IsOkAnd, length, take};
ghost use Rattle.leafnet_text.specs.declared.rooms.TheConstants.{POINTS, SPLITS};
ghost use Rattle.refusals.specs.declared.limits.TheConstants.{LAYERS, POLYGONS};
ghost use Rattle.leafnet_text.specs.Boards.{AreNarrow, column};

use crate::rooms::{LAYERS, POINTS, POLYGONS, SPLITS};
use arrayvec::ArrayVec;
use record::{BoardRowsMut, Read};
use refusals::Refusal;

// Of each polygon the layer, the component and the point count.
#[derive(Drop)]
struct Columns {
    layers: ArrayVec<u16, POLYGONS>,
    components: ArrayVec<u32, POLYGONS>,
    counts: ArrayVec<u64, POLYGONS>,
}

fn columns_of(polygons: &[[u64; 3]]) -> Columns
    requires few { length polygons.now ≤ POLYGONS }
    requires narrow { AreNarrow polygons.now }
    ensures layers { result.layers.items ≡ column 0 polygons.now }
    ensures components { result.components.items ≡ column 1 polygons.now }
    ensures counts { result.counts.items ≡ column 2 polygons.now }
{
    let mut layers = ArrayVec::new();
    let mut components = ArrayVec::new();
    let mut counts = ArrayVec::new();
    for polygon in polygons {
        layers.push(polygon[0] as u16);
        components.push(polygon[1] as u32);
        counts.push(polygon[2]);
    }
    Columns {
        layers,
        components,
        counts,
    }
}

/// A record's rows as the reader fills them, each with as many items as the record has of them.
#[derive(Clone, Copy)]
pub struct Rows {
    read: Read,
    list: [[u64; 2]; LAYERS],
    polygons: [[u64; 3]; POLYGONS],
    sheets: [f64; POLYGONS],
    points: [[i64; 2]; POINTS],
    splits: [u64; SPLITS],
    ghost few_layers: { read.counts.layers ≤ LAYERS },
    ghost few_polygons: { read.counts.polygons ≤ POLYGONS },
    ghost few_points: { read.counts.points ≤ POINTS },
    ghost few_splits: { read.counts.splits ≤ SPLITS },
    ghost narrow: { AreNarrow (take read.counts.polygons polygons) },
}

impl Rows {
    ghost use Rattle.leafnet_text.specs.Boards.{board_in, given_by};
    ghost use Rattle.leafnet_text.specs.Held.{given_in, given_of};
    ghost use Rattle.leafnet_text.specs.Output.{Prints, board_says, record_says};

    fn read(bytes: &[u8]) -> Result<Rows, Refusal>
        ensures says { Prints result (λ r. board_says (given_in r)) (record_says (board_in bytes.now)) }
        ensures board { IfOk result (λ r. IsOkAnd (board_in bytes.now) (λ b. given_in r ≡ given_by b)) }
        ensures refusal { IfErr result (λ why. board_in bytes.now ≡ Err why) }
    {
        let mut list = [[0u64; 2]; LAYERS];
        let mut polygons = [[0u64; 3]; POLYGONS];
        let mut sheets = [0f64; POLYGONS];
        let mut points = [[0i64; 2]; POINTS];
        let mut splits = [0u64; SPLITS];
        let rows = BoardRowsMut {
            layers: &mut list,
            polygons: &mut polygons,
            sheets: &mut sheets,
            points: &mut points,
            splits: &mut splits,
        };
        let read = record::read(bytes, rows)?;
        Ok(Rows {
            read,
            list,
            polygons,
            sheets,
            points,
            splits,
        })
    }

    fn board(self) -> Board
        ensures { given_of result ≡ given_in self }
    {
        let Columns {
            layers,
            components,
            counts,
        } = columns_of(&self.polygons[..self.read.counts.polygons]);
        Board {
            rows: self,
            layers,
            components,
            counts,
        }
    }
}

/// A board in rows with room for the largest.
#[derive(Drop)]
pub struct Board {
    rows: Rows,
    layers: ArrayVec<u16, POLYGONS>,
    components: ArrayVec<u32, POLYGONS>,
    counts: ArrayVec<u64, POLYGONS>,
}

impl Board {
    ghost use Rattle.leafnet_text.specs.Boards.{board_in, given_by};
    ghost use Rattle.leafnet_text.specs.Held.{given_of};
    ghost use Rattle.leafnet_text.specs.Output.{Prints, board_says, record_says};

    /// The board of a record that fits the program's room.
    pub fn read(bytes: &[u8]) -> Result<Board, Refusal>
        ensures says { Prints result (λ b. board_says (given_of b)) (record_says (board_in bytes.now)) }
        ensures board { IfOk result (λ b. IsOkAnd (board_in bytes.now) (λ r. given_of b ≡ given_by r)) }
        ensures refusal { IfErr result (λ why. board_in bytes.now ≡ Err why) }
    {
        let rows = Rows::read(bytes)?;
        Ok(rows.board())
    }

    pub fn settings(&self) -> build::Settings
        ensures { result ≡ (given_of self.now).board.settings }
    {
        let settings = self.rows.read.settings;
        build::Settings {
            max_level: settings.level,
            cap: settings.cap,
            target: settings.target,
        }
    }

    /// The layer list: layer and cell in each entry.
    pub fn list(&self) -> &[[u64; 2]]
        ensures { result.now ≡ (given_of self.now).board.list }
    {
        &self.rows.list[..self.rows.read.counts.layers]
    }

    pub fn layers(&self) -> &[u16]
        ensures { result.now ≡ (given_of self.now).board.layers }
    {
        self.layers.as_slice()
    }

    pub fn components(&self) -> &[u32]
        ensures { result.now ≡ (given_of self.now).components }
    {
        self.components.as_slice()
    }

    pub fn sheets(&self) -> &[f64]
        ensures { result.now ≡ (given_of self.now).sheets }
    {
        &self.rows.sheets[..self.rows.read.counts.polygons]
    }

    /// How many points each polygon has.
    pub fn counts(&self) -> &[u64]
        ensures { result.now ≡ (given_of self.now).board.counts }
    {
        self.counts.as_slice()
    }

    /// The points of all polygons, one after another.
    pub fn points(&self) -> &[[i64; 2]]
        ensures { result.now ≡ (given_of self.now).board.points }
    {
        &self.rows.points[..self.rows.read.counts.points]
    }

    /// The ids of the leaves to be split.
    pub fn splits(&self) -> &[u64]
        ensures { result.now ≡ (given_of self.now).splits }
    {
        &self.rows.splits[..self.rows.read.counts.splits]
    }
}
