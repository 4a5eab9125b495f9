//! Leaves and splits of a lent table.
use refusals::Refusal;
use std::test::Fail;
use table::Head;
use table::leaves::{leaf_count, leaf_order, leaves};
use table::refine::refine;
use table::slots::NO_CELL;

// Two roots side by side, of polygons 1 and 0, in a row of six slots.
fn two_roots() -> [i64; 48] {
    let mut row = [0; 48];
    row[..16].copy_from_slice(&[
        0, 0, 8, 8, 0, NO_CELL, NO_CELL, 1, 8, 0, 16, 8, 0, NO_CELL, NO_CELL, 0,
    ]);
    row
}

const HEAD: Head = Head {
    count: 2,
    leaves: 2,
    max_level: 2,
};

#[test]
fn leaves_by_id_and_by_polygon(rt: HostRuntime) -> Result<(), Fail> {
    let row = two_roots();
    let mut out = [9; 3];
    assert_eq!(rt; leaf_count(HEAD), 2);
    assert_eq!(rt; leaves(&row, HEAD, &mut out), Ok(2));
    assert_eq!(rt; out, [0, 1, 9]);
    assert_eq!(rt; leaf_order(&row, HEAD, &mut out), Ok(2));
    assert_eq!(rt; out, [1, 0, 9]);
    Ok(())
}

#[test]
fn refusals(rt: HostRuntime) -> Result<(), Fail> {
    let row = two_roots();
    let mut short = [9; 1];
    assert_eq!(rt; leaves(&row, HEAD, &mut short), Err(Refusal::NoRoom));
    assert_eq!(rt; short, [9]);
    let deeper = Head {
        max_level: 13,
        ..HEAD
    };
    assert_eq!(rt; leaves(&row, deeper, &mut short), Err(Refusal::BadTable));
    Ok(())
}

#[test]
fn a_wrong_number_of_leaves(rt: HostRuntime) -> Result<(), Fail> {
    let mut row = two_roots();
    let mut out = [9; 3];
    for leaves_told in [1, 3] {
        let head = Head {
            leaves: leaves_told,
            ..HEAD
        };
        assert_eq!(rt; leaf_count(head), leaves_told);
        assert_eq!(rt; leaves(&row, head, &mut out), Err(Refusal::BadTable));
        assert_eq!(rt; leaf_order(&row, head, &mut out), Err(Refusal::BadTable));
        assert_eq!(rt; refine(&mut row, head, 1), Err(Refusal::BadTable));
    }
    assert_eq!(rt; out, [9; 3]);
    assert!(rt; row == two_roots());
    Ok(())
}

#[test]
fn a_split(rt: HostRuntime) -> Result<(), Fail> {
    let mut row = two_roots();
    let head = refine(&mut row, HEAD, 1)?;
    assert_eq!(rt; head.count, 6);
    assert_eq!(rt; head.leaves, 5);
    assert_eq!(rt; row[14], 2);
    assert_eq!(rt; &row[24..32], [12, 0, 16, 4, 1, 1, NO_CELL, 0].as_slice());
    assert_eq!(rt; refine(&mut row, head, 6), Err(Refusal::NoSuchCell(6)));
    assert_eq!(rt; refine(&mut row, head, 1), Err(Refusal::AlreadySplit(1)));
    assert_eq!(rt; refine(&mut row, head, 0), Err(Refusal::NoRoom));
    Ok(())
}

#[test]
fn a_child_that_is_split_is_no_leaf(rt: HostRuntime) -> Result<(), Fail> {
    let mut row = [0; 96];
    row[..48].copy_from_slice(&two_roots());
    let once = refine(&mut row, HEAD, 1)?;
    let head = refine(&mut row, once, 3)?;
    let mut out = [9; 12];
    assert_eq!(rt; leaves(&row, head, &mut out), Ok(8));
    assert_eq!(rt; out, [0, 2, 4, 5, 6, 7, 8, 9, 9, 9, 9, 9]);
    Ok(())
}
