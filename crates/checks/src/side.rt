// One side of a leaf: by place its middle is asked for, and by layer every node between its ends.
ghost use Rattle.std.specs.Prelude.{◌≡◌, ℕ, Some};
ghost use Rattle.checks.specs.declared.asked.Class.TheVariants.{Of};
ghost use Rattle.checks.specs.Nodes.{node_at, next_place};
ghost use Rattle.checks.specs.Sides.{Near, NearSide};
ghost use Rattle.checks.specs.Checks.{fault, middle_fault, chain_fault, side_fault};

use crate::asked::{Class, Hanging, Place, Side};
use crate::lookup::Lookup;

// Whether the node at the middle of a side lacks a half. A side without a node at both ends is passed over. This isn't
// laid into the walk: few sides have such a node.
#[inline(never)]
#[tactic(auto, unfolding(crate::specs::Checks::fault))]
fn half_fault<L: Lookup>(
    net: &L,
    class: Class,
    start: Place,
    end: Place,
    node: usize,
) -> Option<Hanging>
    requires served { L.serves net.now class }
    requires near_start { Near start }
    requires near_end { Near end }
    ensures { let nodes = L.nodes net.now in
        result ≡ fault (L.edges net.now) (Some node) (node_at nodes class start) (node_at nodes class end) }
{
    let start = net.node_at(class, start)?;
    let end = net.node_at(class, end)?;
    if net.are_joined(start, node) & net.are_joined(node, end) {
        return None;
    }
    Some(Hanging { node, start, end })
}

// A side without a node at both ends and at its middle is passed over.
#[inline(always)]
#[tactic(auto, unfolding(crate::specs::Checks::middle_fault, crate::specs::Checks::fault))]
fn middle_fault<L: Lookup>(net: &L, class: Class, side: Side) -> Option<Hanging>
    requires served { L.serves net.now class }
    requires near { NearSide side }
    ensures { result ≡ middle_fault (L.nodes net.now) (L.edges net.now) class side }
{
    let node = net.node_at(class, side.middle)?;
    half_fault(net, class, side.start, side.end, node)
}

// The first of the nodes between the ends of a side that lacks an edge to the point before or after it. `first` is the
// first place between them that has a node. Each pair is asked once: a node's edge to the point before it was asked for
// at that point. This isn't laid into the walk: few sides have such a place.
#[inline(never)]
fn unjoined_from<L: Lookup>(net: &L, class: Class, side: Side, first: Place) -> Option<Hanging>
    requires served { L.serves net.now class }
    requires goes { L.goes net.now side.axis }
    requires near { NearSide side }
    requires first { next_place (L.nodes net.now) class side.start side.end ≡ Some first }
    ensures { result ≡ chain_fault (L.nodes net.now) (L.edges net.now) class side }
{
    let start = net.node_at(class, side.start)?;
    let end = net.node_at(class, side.end)?;
    let mut node = net.node_at(class, first)?;
    if !net.are_joined(start, node) {
        return Some(Hanging { node, start, end });
    }
    let mut here = Some(first);
    while let Some(place) = here {
        here = net.next_place(class, side.axis, place, side.end);
        let after = match here {
            Some(next) => net.node_at(class, next)?,
            None => end,
        };
        if !net.are_joined(node, after) {
            return Some(Hanging { node, start, end });
        }
        node = after;
    }
    None
}

// A side without a node at both ends, or with none between them, is passed over.
#[inline(always)]
#[tactic(auto, using(crate::proofs::Chains::none_between))]
fn chain_fault<L: Lookup>(net: &L, class: Class, side: Side) -> Option<Hanging>
    requires served { L.serves net.now class }
    requires goes { L.goes net.now side.axis }
    requires near { NearSide side }
    ensures { result ≡ chain_fault (L.nodes net.now) (L.edges net.now) class side }
{
    let first = net.next_place(class, side.axis, side.start, side.end)?;
    unjoined_from(net, class, side, first)
}

/// What a side lacks. Internal: by layer the net can go along it.
#[inline(always)]
#[tactic(auto, unfolding(crate::specs::Checks::side_fault))]
pub fn side_fault<L: Lookup>(net: &L, class: Class, side: Side) -> Option<Hanging>
    requires served { L.serves net.now class }
    requires goes { (layer component : ℕ) → class ≡ Of layer component → L.goes net.now side.axis }
    requires near { NearSide side }
    ensures { result ≡ side_fault (L.nodes net.now) (L.edges net.now) class side }
{
    match class {
        Class::Any => middle_fault(net, class, side),
        Class::Of { .. } => chain_fault(net, class, side),
    }
}
