//! Strips of rings.
use refusals::Refusal;
use strips::strips;

// A rectangle of 4 by 2 ticks, and on it a line that goes up 2 ticks and back: a ring that meets itself there.
const SPIKE: [[i64; 2]; 7] = [[0, 0], [4, 0], [4, 2], [2, 2], [2, 4], [2, 2], [0, 2]];

// A step: two strips.
const STEP: [[i64; 2]; 6] = [[0, 0], [4, 0], [4, 2], [2, 2], [2, 4], [0, 4]];

#[test]
fn a_spike_is_no_strip(rt: HostRuntime) {
    let mut out = [[9; 4]; 2];
    assert_eq!(rt; strips(&SPIKE, &mut out), Ok(1));
    assert_eq!(rt; out, [[0, 0, 4, 2], [9; 4]]);
}

#[test]
fn a_row_too_short_stays_as_it_is(rt: HostRuntime) {
    let mut out = [[9; 4]; 2];
    assert_eq!(rt; strips(&STEP, &mut out[..1]), Err(Refusal::NoRoom));
    assert_eq!(rt; out, [[9; 4]; 2]);
    assert_eq!(rt; strips(&STEP, &mut out), Ok(2));
    assert_eq!(rt; out, [[0, 0, 4, 2], [0, 2, 2, 4]]);
}
