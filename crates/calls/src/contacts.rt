//! Contact of two rectangles.
use cell::border::{Border, Side};
use cell::rectangles::{Rect, between};
use refusals::Refusal;

// The border of the rectangle from (0, 0) to (4, 4) with the one from (x0, y0) to (8, 8).
fn beside(x0: i64, y0: i64) -> Result<Option<Border>, Refusal> {
    let a = Rect {
        x0: 0,
        y0: 0,
        x1: 4,
        y1: 4,
    };
    let b = Rect {
        x0,
        y0,
        x1: 8,
        y1: 8,
    };
    between(a, b)
}

fn border(side: Side, length: u64) -> Result<Option<Border>, Refusal> {
    Ok(Some(Border { side, length }))
}

#[test]
fn a_corner_and_an_edge(rt: HostRuntime) {
    assert_eq!(rt; beside(4, 4), Ok(None));
    assert_eq!(rt; beside(4, 3), border(Side::East, 1));
    assert_eq!(rt; beside(-2, 4), border(Side::North, 4));
}

#[test]
fn refusals_of_a_side(rt: HostRuntime) {
    assert_eq!(rt; beside(8, 3), Err(Refusal::OutOfRange(0)));
    assert_eq!(rt; beside(-68719476736, 3), Ok(None));
    assert_eq!(rt; beside(-68719476737, 3), Err(Refusal::OutOfRange(0)));
}
