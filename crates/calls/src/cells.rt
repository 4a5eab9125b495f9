//! Cells by value, and coordinates.
use cell::border::{Border, Side};
use cell::ticks::{in_range, metres, offset, ticks};
use cell::{Cell, Quadrant};

#[test]
fn a_root_and_its_children(rt: HostRuntime) {
    let root = Cell::root(0, 0, 8, 8, 2);
    let middle = root.midpoint();
    assert_eq!(rt; middle.x0, 4);
    assert_eq!(rt; middle.y1, 4);
    assert_eq!(rt;
        root.quadrant(Quadrant::SouthEast),
        Cell {
            x0: 4,
            y1: 4,
            ..root
        }
    );
    let child = root.child(7, Quadrant::NorthWest);
    assert_eq!(rt;
        child,
        Cell {
            x1: 4,
            y0: 4,
            level: 1,
            parent: 7,
            ..root
        }
    );
}

// Across a corner there is no border; along a piece of one there is, on the other side from the other cell.
#[test]
fn borders(rt: HostRuntime) {
    let a = Cell::root(0, 0, 4, 4, 0);
    assert_eq!(rt; a.border(Cell::root(4, 4, 8, 8, 0)), None);
    let b = Cell::root(4, 3, 8, 8, 0);
    let border = |side, length| Some(Border { side, length });
    assert_eq!(rt; a.border(b), border(Side::East, 1));
    assert_eq!(rt; b.border(a), border(Side::West, 1));
    let c = Cell::root(0, 4, 8, 8, 0);
    assert_eq!(rt; a.border(c), border(Side::North, 4));
    assert_eq!(rt; c.border(a), border(Side::South, 4));
    assert_eq!(rt; Side::West.number(), 3);
}

#[test]
fn ends_of_the_range(rt: HostRuntime) {
    assert!(rt; in_range(-68719476736));
    assert!(rt; !in_range(-68719476737));
    assert!(rt; in_range(68719476736));
    assert!(rt; !in_range(68719476737));
    assert_eq!(rt; offset(-68719476736), 0);
    assert_eq!(rt; offset(i64::MAX), 137438953472);
    assert_eq!(rt; ticks(offset(-5)), -5);
}

#[test]
fn a_metre(rt: HostRuntime) {
    assert_eq!(rt; metres(274877906944), 1.0);
}
