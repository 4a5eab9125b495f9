//! What is judged of the settings.
ghost use Rattle.std.specs.Prelude.{◌≡◌, nat_lt, slice_index};
ghost use Rattle.std.specs.List.{list_all, IsAllAdjacentAnswer};
ghost use Rattle.build.specs.Says.{entry_in_range, list_ok, numbers_ok};

use crate::Settings;
use refusals::limits;

// Whether each entry's layer has 16 bits and its cell is in range.
fn in_range(list: &[[u64; 2]]) -> bool
    ensures { result ≡ list_all entry_in_range list.now }
{
    list.iter()
        .all(|entry| (entry[0] < 65536) & (entry[1] <= limits::CELL))
}

// Whether each layer is above the one before.
fn rising(list: &[[u64; 2]]) -> bool
    ensures { IsAllAdjacentAnswer (λ x y rises. rises ≡ nat_lt (slice_index x 0) (slice_index y 0)) list.now result }
{
    list.is_sorted_by(|a, b| a[0] < b[0])
}

#[tactic(auto, unfolding(crate::specs::Says::list_ok))]
pub fn list_ok(list: &[[u64; 2]]) -> bool
    ensures { result ≡ list_ok list.now }
{
    (list.len() <= limits::LAYERS) & (in_range(list) & rising(list))
}

pub fn numbers_ok(s: Settings, polygons: usize) -> bool
    ensures { result ≡ numbers_ok s polygons }
{
    ((s.max_level <= limits::MAX_LEVEL) & (polygons <= limits::POLYGONS))
        & ((1 <= s.cap) & (s.cap <= limits::CAP))
        & ((1 <= s.target) & (s.target <= limits::CELL))
}
