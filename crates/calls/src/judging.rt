//! A net's rows, judged.
use net_rows::{Corners, Edge, NetCell, NetRows, Node, SoundNet};
use std::test::Fail;

fn node(x: i64, y: i64) -> Node {
    Node {
        layer: 1,
        component: 7,
        x,
        y,
    }
}

// Those of a rectangle, 4 ticks wide and 8 high.
fn nodes() -> [Node; 4] {
    [node(-2, 0), node(2, 0), node(2, 8), node(-2, 8)]
}

fn edge(from: usize, to: usize) -> Edge {
    Edge {
        from,
        to,
        conductance: 0.5,
    }
}

fn cell(southwest: usize, southeast: usize, northeast: usize, northwest: usize) -> NetCell {
    NetCell {
        corners: Corners {
            southwest,
            southeast,
            northeast,
            northwest,
        },
        sheet: 1.0,
    }
}

fn is_sound(edge: Edge, cell: NetCell) -> bool {
    let rows = NetRows {
        nodes: &nodes(),
        edges: &[edge],
        cells: &[cell],
    };
    rows.are_sound()
}

#[test]
fn a_rectangle_is_sound(rt: HostRuntime) -> Result<(), Fail> {
    let rows = NetRows {
        nodes: &nodes(),
        edges: &[edge(1, 2)],
        cells: &[cell(0, 1, 2, 3)],
    };
    let net = SoundNet::judge(&rows).ok_or("sound")?;
    assert_eq!(rt; net.rows.nodes[2].in_mesh().x, 68719476738);
    assert_eq!(rt; net.cell(0).corners.northwest, 3);
    assert_eq!(rt; net.width(0), 4);
    assert_eq!(rt; net.height(0), 8);
    Ok(())
}

#[test]
fn ends_and_corners_are_judged(rt: HostRuntime) {
    assert!(rt; !is_sound(edge(1, 4), cell(0, 1, 2, 3)));
    assert!(rt; !is_sound(edge(1, 2), cell(0, 1, 3, 2)));
}
