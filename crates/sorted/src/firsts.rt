//! Of entries that are equal but for their numbers, the first.
ghost use Rattle.std.specs.Prelude.{◌≡◌, ◌-◌, ◌<◌, ◌↔◌, length, take, slice_index_or, IsTrue};
ghost use Rattle.sorted.specs.Firsts.{IsInOrder, EndInNumbers, AreFirsts};

use crate::Entries;

// Whether an entry is equal to another but for its number, its last column.
fn are_alike<const N: usize>(a: &[u64; N], b: &[u64; N]) -> bool
    requires some_columns { 0 < N }
    requires few_columns { N < 16 }
    ensures { IsTrue result ↔ (take (N - 1) a.now ≡ take (N - 1) b.now) }
{
    a[..N - 1] == b[..N - 1]
}

/// Of each entry, by its number, which is its last column, the number of the first that is equal but for it. Those that
/// are stand together in the row of all entries, the first in front. By index: each is held against the one before.
pub fn write_firsts<const N: usize, E: Entries<N>>(
    from: &E,
    entries: &[[u64; N]],
    firsts: &mut [u64],
)
    requires some_columns { 0 < N }
    requires few_columns { N < 16 }
    requires in_order { IsInOrder (E.entry from.now) (length firsts.old) entries.now }
    requires numbered { EndInNumbers (E.entry from.now) (N - 1) (length firsts.old) }
    ensures { AreFirsts (λ i. take (N - 1) (E.entry from.now i)) firsts.new }
{
    let mut first = 0;
    for k in 0..entries.len() {
        let number = entries[k][N - 1];
        if k == 0 || !are_alike(&entries[k - 1], &entries[k]) {
            first = number;
        }
        firsts[number as usize] = first;
    }
}
