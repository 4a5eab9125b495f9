//! The power of a net's cells.
use net_rows::{Corners, Edge, NetCell, NetRows, Node};
use power::cell_power;
use refusals::Refusal;

fn node(x: i64, y: i64) -> Node {
    Node {
        layer: 1,
        component: 0,
        x,
        y,
    }
}

const EDGES: [Edge; 1] = [Edge {
    from: 0,
    to: 1,
    conductance: 0.5,
}];

fn cell(northwest: usize) -> NetCell {
    NetCell {
        corners: Corners {
            southwest: 0,
            southeast: 1,
            northeast: 2,
            northwest,
        },
        sheet: 1.0,
    }
}

// A square of 4 ticks.
fn power_of(northwest: usize, potentials: &[f64], answers: &mut [f64]) -> Result<(), Refusal> {
    let rows = NetRows {
        nodes: &[node(0, 0), node(4, 0), node(4, 4), node(0, 4)],
        edges: &EDGES,
        cells: &[cell(northwest)],
    };
    cell_power(&rows, potentials, answers)
}

#[test]
fn one_square(rt: HostRuntime) {
    let mut answers = [7.0, 7.0];
    assert_eq!(rt; power_of(3, &[0.0, 1.0, 1.0, 0.0], &mut answers), Ok(()));
    assert_eq!(rt; answers, [1.0, 7.0]);
}

#[test]
fn refusals_in_their_order(rt: HostRuntime) {
    assert_eq!(rt; power_of(2, &[], &mut []), Err(Refusal::BadTable));
    assert_eq!(rt; power_of(3, &[0.0], &mut []), Err(Refusal::OutOfRange(0)));
    assert_eq!(rt; power_of(3, &[0.0; 4], &mut []), Err(Refusal::NoRoom));
}

#[test]
fn ends_of_a_potential(rt: HostRuntime) {
    let mut answers = [7.0];
    for far in [f64::NAN, -1048577.0, 1048577.0] {
        let potentials = [0.0, far, 0.0, 0.0];
        assert_eq!(rt;
            power_of(3, &potentials, &mut answers),
            Err(Refusal::OutOfRange(0))
        );
    }
    assert_eq!(rt; answers, [7.0]);
    assert_eq!(rt; power_of(3, &[-1048576.0; 4], &mut answers), Ok(()));
    assert_eq!(rt; power_of(3, &[1048576.0; 4], &mut answers), Ok(()));
    assert_eq!(rt; answers, [0.0]);
}

#[test]
fn ends_of_a_sheet(rt: HostRuntime) {
    let end = 1.0 / 1099511627776.0;
    let nodes = [node(0, 0), node(4, 0), node(4, 4), node(0, 4)];
    let wanted = [
        (end, Ok(())),
        (1.0 / end, Ok(())),
        (end / 2.0, Err(Refusal::OutOfRange(0))),
        (f64::NAN, Err(Refusal::OutOfRange(0))),
    ];
    for (sheet, answer) in wanted {
        let rows = NetRows {
            nodes: &nodes,
            edges: &EDGES,
            cells: &[NetCell { sheet, ..cell(3) }],
        };
        assert_eq!(rt; cell_power(&rows, &[0.0; 4], &mut [7.0]), answer);
    }
}
