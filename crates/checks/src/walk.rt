// The one walk of both checks over the leaves, whatever way nodes and edges are found.
ghost use Rattle.std.specs.Prelude.{◌≡◌, ℕ, ◌<◌, Some, IsTrue};
ghost use Rattle.table.specs.Slots.{cell_at};
ghost use Rattle.checks.specs.declared.asked.Class.TheVariants.{Of};
ghost use Rattle.checks.specs.Sides.{NearSide, NearCell};
ghost use Rattle.checks.specs.Scopes.{class_of, Holds};
ghost use Rattle.checks.specs.Walks.{have, GoesAlong, side_found, leaf_found, first_found, fault_of, earlier};

use crate::asked::{Class, Hanging, Scope, Side};
use crate::lookup::Lookup;
use crate::side::side_fault;
use cell::Cell;
use net_rows::Axis;
use table::Table;

/// Which sides of the leaves a walk looks at.
#[derive(Clone, Copy, Debug, PartialEq, Eq)]
pub enum Sides {
    All,
    Along(Axis),
}

/// What a walk found, and where: the leaf, and which of its sides (0 to 3: south, east, north, west).
#[derive(Clone, Copy, Debug, PartialEq, Eq)]
pub struct Found {
    pub leaf: usize,
    pub side: usize,
    pub fault: Hanging,
}

impl Sides {
    #[inline(always)]
    fn have(self, axis: Axis) -> bool
        ensures { result ≡ have self axis }
    {
        match self {
            Sides::All => true,
            Sides::Along(own) => own == axis,
        }
    }
}

impl Scope<'_> {
    ghost use Rattle.checks.specs.Walks.{sides_along};

    /// The sides that a walk looks at whose nodes are in order along an axis: by place it asks for middles alone, and
    /// looks at all.
    pub fn sides(self, axis: Axis) -> Sides
        ensures { result ≡ sides_along self.entry axis }
    {
        match self {
            Scope::Everywhere => Sides::All,
            Scope::ByLayer(_) => Sides::Along(axis),
        }
    }
}

// What a side lacks, if it is looked at.
#[inline(always)]
#[tactic(auto, unfolding(crate::specs::Walks::side_found))]
fn side_found<L: Lookup>(net: &L, class: Class, sides: Sides, side: Side) -> Option<Hanging>
    requires served { L.serves net.now class }
    requires goes { GoesAlong (L.goes net.now) class sides }
    requires near { NearSide side }
    ensures { result ≡ side_found (L.nodes net.now) (L.edges net.now) class sides side }
{
    if !sides.have(side.axis) {
        return None;
    }
    side_fault(net, class, side)
}

// The first of what the sides of a leaf lack, and which side that is. Each closure of an `or_else` would have to ask
// for all that is asked for here.
#[inline(always)]
#[tactic(auto, unfolding(crate::specs::Walks::leaf_found))]
fn leaf_found<L: Lookup>(net: &L, class: Class, sides: Sides, c: Cell) -> Option<(usize, Hanging)>
    requires served { L.serves net.now class }
    requires goes { GoesAlong (L.goes net.now) class sides }
    requires near { NearCell c }
    ensures { result ≡ leaf_found (L.nodes net.now) (L.edges net.now) class sides c }
{
    if let Some(fault) = side_found(net, class, sides, Side::south(c)) {
        return Some((0, fault));
    }
    if let Some(fault) = side_found(net, class, sides, Side::east(c)) {
        return Some((1, fault));
    }
    if let Some(fault) = side_found(net, class, sides, Side::north(c)) {
        return Some((2, fault));
    }
    let fault = side_found(net, class, sides, Side::west(c))?;
    Some((3, fault))
}

/// The first of what the leaves lack, by id. Internal: the polygons of the cells stand in the rows.
// The closure of a `find_map` would have to ask for all that is asked for here. That the scope has each cell's polygon
// is asked for in `room`, too: a struct of table and scope would be made there only to be taken apart here.
pub fn first_found<L: Lookup>(net: &L, table: &Table, scope: Scope, sides: Sides) -> Option<Found>
    requires served { (p : ℕ) → L.serves net.now (class_of scope p) }
    requires goes { (p : ℕ) → GoesAlong (L.goes net.now) (class_of scope p) sides }
    requires polygons_there { (i : ℕ) → i < table.now.head.count
        → Holds scope (cell_at table.now.row.now i).poly }
    ensures { result
        ≡ first_found (class_of scope.entry) sides table.now.row.now table.now.head (L.nodes net.now)
        (L.edges net.now) }
{
    for id in table.leaves() {
        let leaf = table::slots::cell_at(table.row, id);
        let found = leaf_found(net, scope.class_of(leaf.poly as usize), sides, leaf);
        if let Some((side, fault)) = found {
            return Some(Found {
                leaf: id,
                side,
                fault,
            });
        }
    }
    None
}

/// What was found, without where.
pub fn fault_of(found: Option<Found>) -> Option<Hanging>
    ensures { result ≡ fault_of found }
{
    Some(found?.fault)
}

/// The earlier of two finds: by leaf, then by side.
pub fn earlier(one: Option<Found>, other: Option<Found>) -> Option<Found>
    ensures { result ≡ earlier one other }
{
    match (one, other) {
        (Some(a), Some(b)) => {
            if (b.leaf < a.leaf) | ((b.leaf == a.leaf) & (b.side < a.side)) {
                other
            } else {
                one
            }
        }
        (None, found) => found,
        (found, _) => found,
    }
}
