//! The two checks of a net.
use checks::{Hanging, check_by_layer, check_network_conforming};
use net_rows::{Corners, Edge, NetCell, NetRows, Node, Polygons};
use refusals::Refusal;
use table::Head;
use table::slots::NO_CELL;

// One leaf of 8 by 8 ticks.
const LEAF: [i64; 8] = [0, 0, 8, 8, 0, NO_CELL, NO_CELL, 0];

const HEAD: Head = Head {
    count: 1,
    leaves: 1,
    max_level: 2,
};

fn node(component: u32, x: i64, y: i64) -> Node {
    Node {
        layer: 1,
        component,
        x,
        y,
    }
}

// Its corners, and a fifth node at the middle of its south side, of another component.
fn nodes() -> [Node; 5] {
    [
        node(0, 0, 0),
        node(0, 8, 0),
        node(0, 8, 8),
        node(0, 0, 8),
        node(3, 4, 0),
    ]
}

// One half is there.
const EDGES: [Edge; 1] = [Edge {
    from: 4,
    to: 0,
    conductance: 0.5,
}];

const CELLS: [NetCell; 1] = [NetCell {
    corners: Corners {
        southwest: 0,
        southeast: 1,
        northeast: 2,
        northwest: 3,
    },
    sheet: 1.0,
}];

fn rows(nodes: &[Node]) -> NetRows<'_> {
    NetRows {
        nodes,
        edges: &EDGES,
        cells: &CELLS,
    }
}

const POLYGONS: Polygons<'static> = Polygons {
    layers: &[1],
    components: &[0],
};

// What is asked for five nodes and an edge.
const ROOM: usize = 48;

#[test]
fn a_half_is_missing(rt: HostRuntime) {
    let hanging = Hanging {
        node: 4,
        start: 0,
        end: 1,
    };
    let mut work = [7; ROOM];
    assert_eq!(rt;
        check_network_conforming(&LEAF, HEAD, &rows(&nodes()), &mut []),
        Ok(Some(hanging))
    );
    assert_eq!(rt;
        check_network_conforming(&LEAF, HEAD, &rows(&nodes()), &mut work),
        Ok(Some(hanging))
    );
    assert_eq!(rt; work, [0; ROOM]);
}

#[test]
fn another_component_does_not_count(rt: HostRuntime) {
    let mut work = [7; ROOM];
    assert_eq!(rt;
        check_by_layer(&LEAF, HEAD, &rows(&nodes()), &POLYGONS, &mut []),
        Ok(None)
    );
    assert_eq!(rt;
        check_by_layer(&LEAF, HEAD, &rows(&nodes()), &POLYGONS, &mut work),
        Ok(None)
    );
    assert_eq!(rt; work, [0; ROOM]);
}

#[test]
fn a_refused_call_leaves_the_room(rt: HostRuntime) {
    let none = Polygons {
        layers: &[],
        components: &[],
    };
    let mut work = [7; ROOM];
    assert_eq!(rt;
        check_by_layer(&LEAF, HEAD, &rows(&nodes()), &none, &mut work),
        Err(Refusal::BadTable)
    );
    assert_eq!(rt; work, [7; ROOM]);
}

#[test]
fn a_wrong_number_of_leaves(rt: HostRuntime) {
    let more = Head { leaves: 2, ..HEAD };
    let mut work = [7; ROOM];
    assert_eq!(rt;
        check_network_conforming(&LEAF, more, &rows(&nodes()), &mut work),
        Err(Refusal::BadTable)
    );
    assert_eq!(rt;
        check_by_layer(&LEAF, more, &rows(&nodes()), &POLYGONS, &mut work),
        Err(Refusal::BadTable)
    );
    assert_eq!(rt; work, [7; ROOM]);
}

// Its corners, and a fifth node of its own component a quarter of the way along its south side.
fn quarter() -> [Node; 5] {
    [
        node(0, 0, 0),
        node(0, 8, 0),
        node(0, 8, 8),
        node(0, 0, 8),
        node(0, 2, 0),
    ]
}

#[test]
fn a_node_off_the_middle_is_named_by_layer_alone(rt: HostRuntime) {
    let loose = Hanging {
        node: 4,
        start: 0,
        end: 1,
    };
    let mut work = [7; ROOM];
    assert_eq!(rt;
        check_by_layer(&LEAF, HEAD, &rows(&quarter()), &POLYGONS, &mut []),
        Ok(Some(loose))
    );
    assert_eq!(rt;
        check_by_layer(&LEAF, HEAD, &rows(&quarter()), &POLYGONS, &mut work),
        Ok(Some(loose))
    );
    assert_eq!(rt; work, [0; ROOM]);
    assert_eq!(rt;
        check_network_conforming(&LEAF, HEAD, &rows(&quarter()), &mut []),
        Ok(None)
    );
}
