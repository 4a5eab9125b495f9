//! Sorted rows, each in place of a map from keys to entries. Who has such a row knows more of it than its order, mostly
//! whose entries it holds, and that in one fact; so the order is asked for as a fact, too, and is no type of its own.
ghost use Rattle.std.specs.Prelude.{◌≡◌, ◌-◌, ◌<◌, ◌≤◌, true, false, length, nat_eq, filter, slice_get, IsSorted};
ghost use Rattle.std.specs.Ordering.{is_lt, nat_cmp};
ghost use Rattle.std.specs.Option.{option_copied};
ghost use Rattle.std.specs.List.{starts_with};
ghost use Rattle.std.specs.List.Sorted.{IsPartitionedBy, IsPartitionPoint};
ghost use Rattle.std.specs.Cmp.Lexicographic.{slice_cmp};
ghost use Rattle.sorted.specs.Upto.{is_upto};

// Whether an entry is below a key. No branch hangs on their numbers: few columns are compared, and each key is another.
#[inline(always)]
fn is_below<const N: usize>(entry: &[u64; N], key: &[u64]) -> bool
    requires few_columns { N < 16 }
    requires key_fits { length key.now ≤ N }
    ensures { result ≡ is_lt (slice_cmp nat_cmp entry.now key.now) }
{
    let mut below = false;
    let mut equal = true;
    for c in 0..key.len() {
        below = below | (equal & (entry[c] < key[c]));
        equal = equal & (entry[c] == key[c]);
    }
    below
}

// Whether an entry is below a key or begins with it. The first column that differs ends it: there are many, and most
// are equal. std's `<=` of slices says the same, and makes a search a third slower.
#[inline(always)]
fn is_upto<const N: usize>(entry: &[u64; N], key: &[u64]) -> bool
    requires few_columns { N < 16 }
    requires key_fits { length key.now ≤ N }
    ensures { result ≡ is_upto key.now entry.now }
{
    for c in 0..key.len() {
        if entry[c] != key[c] {
            return entry[c] < key[c];
        }
    }
    true
}

/// How many entries are below a key, which stand in front.
#[inline(always)]
pub fn count_below<const N: usize>(row: &[[u64; N]], key: &[u64]) -> usize
    requires few_columns { N < 16 }
    requires key_fits { length key.now ≤ N }
    requires sorted { IsSorted (slice_cmp nat_cmp) row.now }
    ensures parted { IsPartitionPoint (λ e. is_lt (slice_cmp nat_cmp e key.now) ≡ true)
        (λ e. is_lt (slice_cmp nat_cmp e key.now) ≡ false) row.now result }
    ensures bound { result ≤ length row.now }
{
    row.partition_point(
        |e| -> bool
            requires few_columns { N < 16 }
            requires key_fits { length key.now ≤ N }
            ensures { result ≡ is_lt (slice_cmp nat_cmp e.now key.entry.now) }
        { is_below(e, key) },
    )
}

/// How many entries are below a key or begin with it, which stand in front.
#[inline(always)]
pub fn count_upto<const N: usize>(row: &[[u64; N]], key: &[u64]) -> usize
    requires few_columns { N < 16 }
    requires key_fits { length key.now ≤ N }
    requires sorted { IsSorted (slice_cmp nat_cmp) row.now }
    ensures parted { IsPartitionPoint (λ e. is_upto key.now e ≡ true) (λ e. is_upto key.now e ≡ false) row.now result }
    ensures bound { result ≤ length row.now }
{
    row.partition_point(
        |e| -> bool
            requires few_columns { N < 16 }
            requires key_fits { length key.now ≤ N }
            ensures { result ≡ is_upto key.entry.now e.now }
        { is_upto(e, key) },
    )
}

// How many entries in front begin with a key.
fn count_beginning<const N: usize>(row: &[[u64; N]], key: &[u64]) -> usize
    requires { IsPartitionedBy (λ e. starts_with nat_eq e key.now) row.now }
    ensures parted { IsPartitionPoint (λ e. starts_with nat_eq e key.now ≡ true)
        (λ e. starts_with nat_eq e key.now ≡ false) row.now result }
    ensures bound { result ≤ length row.now }
{
    row.partition_point(
        |e| -> bool
            ensures { result ≡ starts_with nat_eq e.now key.entry.now }
        { e.starts_with(key) },
    )
}

/// The first entry that begins with a key.
#[inline(always)]
pub fn first<'a, const N: usize>(row: &'a [[u64; N]], key: &[u64]) -> Option<&'a [u64; N]>
    requires few_columns { N < 16 }
    requires key_fits { length key.now ≤ N }
    requires sorted { IsSorted (slice_cmp nat_cmp) row.now }
    ensures { option_copied result ≡ slice_get (filter (λ e. starts_with nat_eq e key.now) row.now) 0 }
{
    let rest = &row[count_below(row, key)..];
    let entry = rest.first()?;
    entry.starts_with(key).then_some(entry)
}

/// The last entry that begins with a key.
#[inline(always)]
pub fn last<'a, const N: usize>(row: &'a [[u64; N]], key: &[u64]) -> Option<&'a [u64; N]>
    requires few_columns { N < 16 }
    requires key_fits { length key.now ≤ N }
    requires sorted { IsSorted (slice_cmp nat_cmp) row.now }
    ensures { let run = filter (λ e. starts_with nat_eq e key.now) row.now in
        option_copied result ≡ slice_get run (length run - 1) }
{
    let front = &row[..count_upto(row, key)];
    let entry = front.last()?;
    entry.starts_with(key).then_some(entry)
}

/// The entries that begin with a key: a run of the row, handed back and not copied, as a map's `range`. `first` and
/// `last` are its ends, each by one search.
#[inline]
pub fn run<'a, const N: usize>(row: &'a [[u64; N]], key: &[u64]) -> &'a [[u64; N]]
    requires few_columns { N < 16 }
    requires key_fits { length key.now ≤ N }
    requires sorted { IsSorted (slice_cmp nat_cmp) row.now }
    ensures { result.now ≡ filter (λ e. starts_with nat_eq e key.now) row.now }
{
    let rest = &row[count_below(row, key)..];
    // Most keys are asked for in vain.
    let Some(entry) = rest.first() else {
        return rest;
    };
    if !entry.starts_with(key) {
        return &rest[..0];
    }
    &rest[..count_beginning(rest, key)]
}
