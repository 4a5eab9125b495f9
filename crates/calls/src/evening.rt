//! Balance and conform.
use even::{balance, conform};
use refusals::Refusal;
use std::test::Fail;
use table::Head;
use table::refine::refine;
use table::slots::NO_CELL;

const ROOTS: [i64; 16] = [
    0, 0, 8, 8, 0, NO_CELL, NO_CELL, 0, 8, 0, 16, 8, 0, NO_CELL, NO_CELL, 1,
];

// Two roots side by side; the left one is split, and then its lower right quarter, cell 3.
fn split_twice(row: &mut [i64]) -> Option<Head> {
    row.get_mut(..ROOTS.len())?.copy_from_slice(&ROOTS);
    let head = Head {
        count: 2,
        leaves: 2,
        max_level: 2,
    };
    let once = refine(row, head, 0).ok()?;
    refine(row, once, 3).ok()
}

#[test]
fn an_empty_table_has_nothing_to_split(rt: HostRuntime) -> Result<(), Fail> {
    let head = Head {
        count: 0,
        leaves: 0,
        max_level: 2,
    };
    let done = balance(&mut [], head).ok().ok_or("refused")?;
    assert_eq!(rt; done.splits, 0);
    assert_eq!(rt; done.head.count, 0);
    assert_eq!(rt; done.head.leaves, 0);
    Ok(())
}

#[test]
fn balance_splits_the_other_root_alone(rt: HostRuntime) -> Result<(), Fail> {
    let mut row = [0i64; 112];
    let head = split_twice(&mut row).ok_or("refused")?;
    let done = balance(&mut row, head).ok().ok_or("refused")?;
    assert_eq!(rt; done.splits, 1);
    assert_eq!(rt; done.head.count, 14);
    assert_eq!(rt; done.head.leaves, 11);
    assert_eq!(rt; row[14], 10);
    Ok(())
}

#[test]
fn conform_splits_all_down_to_the_finest(rt: HostRuntime) -> Result<(), Fail> {
    let mut row = [0i64; 336];
    let head = split_twice(&mut row).ok_or("refused")?;
    let done = conform(&mut row, head).ok().ok_or("refused")?;
    assert_eq!(rt; done.splits, 8);
    assert_eq!(rt; done.head.count, 42);
    assert_eq!(rt; done.head.leaves, 32);
    Ok(())
}

#[test]
fn one_slot_too_few_leaves_the_row_as_it_was(rt: HostRuntime) -> Result<(), Fail> {
    let mut row = [0i64; 104];
    let head = split_twice(&mut row).ok_or("refused")?;
    let before = row;
    assert!(rt; matches!(balance(&mut row, head), Err(Refusal::NoRoom)));
    assert!(rt; row == before);
    Ok(())
}

#[test]
fn a_wrong_number_of_leaves(rt: HostRuntime) -> Result<(), Fail> {
    let mut row = [0i64; 336];
    let head = split_twice(&mut row).ok_or("refused")?;
    let more = Head { leaves: 9, ..head };
    let before = row;
    assert!(rt; matches!(balance(&mut row, more), Err(Refusal::BadTable)));
    assert!(rt; matches!(conform(&mut row, more), Err(Refusal::BadTable)));
    assert!(rt; row == before);
    Ok(())
}

// Two roots that have a corner in common; the first is split there twice.
#[test]
fn a_corner_asks_nobody(rt: HostRuntime) -> Result<(), Fail> {
    let mut row = [0i64; 112];
    row[..ROOTS.len()].copy_from_slice(&ROOTS);
    row[9] = 8;
    row[11] = 16;
    let head = Head {
        count: 2,
        leaves: 2,
        max_level: 2,
    };
    let once = refine(&mut row, head, 0)?;
    let twice = refine(&mut row, once, 5)?;
    let done = balance(&mut row, twice).ok().ok_or("refused")?;
    assert_eq!(rt; done.splits, 0);
    assert_eq!(rt; done.head, twice);
    Ok(())
}

#[test]
fn conform_of_roots_splits_none(rt: HostRuntime) -> Result<(), Fail> {
    let mut row = [0i64; 336];
    row[..ROOTS.len()].copy_from_slice(&ROOTS);
    let head = Head {
        count: 2,
        leaves: 2,
        max_level: 2,
    };
    let done = conform(&mut row, head).ok().ok_or("refused")?;
    assert_eq!(rt; done.splits, 0);
    assert_eq!(rt; done.head, head);
    Ok(())
}
