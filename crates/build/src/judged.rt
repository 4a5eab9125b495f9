//! A board that was judged.
ghost use Rattle.std.specs.Prelude.{◌≡◌};
ghost use Rattle.build.specs.Grid.{size_of};
ghost use Rattle.build.specs.Board.{board_of, unit};
ghost use Rattle.build.specs.Steps.{Fit};

use crate::grid::Cutter;
use crate::outlines::Outlines;
use crate::{Settings, grid};
use table::formed;

/// A board whose rows fit together and whose settings and rings are in range.
#[derive(Clone, Copy)]
pub struct Judged<'a> {
    pub settings: Settings,
    /// Layer and cell of each layer that has a cell of its own.
    pub list: &'a [[u64; 2]],
    pub outlines: Outlines<'a>,
    ghost fit: { Fit (board_of settings list.now outlines) },
}

impl<'a> Judged<'a> {
    /// How a polygon of this layer is cut.
    pub fn cutter(&self, layer: u16) -> Cutter
        ensures cell { result.cell ≡ size_of self.now.list.now layer self.now.settings.target }
        ensures cap { result.cap ≡ self.now.settings.cap }
        ensures unit { result.unit ≡ unit (board_of self.now.settings self.now.list.now self.now.outlines) }
    {
        Cutter {
            cell: grid::size_of(self.list, u64::from(layer), self.settings.target),
            cap: self.settings.cap,
            unit: formed::root_unit(self.settings.max_level),
        }
    }
}
