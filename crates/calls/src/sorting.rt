//! Entries in order, whatever is said of their columns, and however wide these are.
ghost use Rattle.std.specs.Prelude.{[], length, slice_index_or};

use sorted::{Entries, Span, sort_entries, sort_entries_within};

#[derive(Clone, Copy)]
struct Rows<'a> {
    rows: &'a [[u64; 3]],
}

impl Entries<3> for Rows<'_> {
    ghost count = { λ s. length s.rows.now };

    ghost entry = { λ s i. slice_index_or s.rows.now i [] };

    fn entry(&self, i: usize) -> [u64; 3] {
        self.rows[i]
    }
}

#[test]
fn spans_of_no_value(rt: HostRuntime) {
    let rows = [[0, 7, 0], [1, 0, 1]];
    let mut out = [[9; 3]; 2];
    sort_entries_within(
        &Rows { rows: &rows },
        &[Span::EMPTY; 3],
        &mut [0; 2],
        &mut out,
    );
    assert_eq!(rt; out, rows);
}

// Together the first two columns have more bits than a key, so that the lowest of each are left out of it.
#[test]
fn columns_too_wide_for_a_key(rt: HostRuntime) {
    let wide = 1 << 40;
    let rows = [[1, 0, 0], [0, wide, 1], [wide, 0, 2]];
    let mut out = [[9; 3]; 3];
    sort_entries(&Rows { rows: &rows }, &mut [0; 3], &mut out);
    assert_eq!(rt; out, [[0, wide, 1], [1, 0, 0], [wide, 0, 2]]);
}
