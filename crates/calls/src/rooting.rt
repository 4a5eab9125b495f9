//! The roots of one ring.
use build::alone::cut_alone;
use build::grid::Cutter;
use refusals::limits::RING_POINTS;
use strips::walk::WorkRoom;

const SQUARE: [[i64; 2]; 4] = [[0, 0], [3, 0], [3, 3], [0, 3]];

#[test]
fn a_ring_cut_to_single_ticks(rt: HostRuntime) {
    let mut room = WorkRoom {
        heights: [0; RING_POINTS],
        edges: [0; RING_POINTS],
    };
    let mut table = [9; 8];
    let whole = Cutter {
        cell: 3,
        cap: 1,
        unit: 1,
    };
    assert_eq!(rt; cut_alone(&SQUARE, whole, &mut room, &mut table), Ok(1));
}
