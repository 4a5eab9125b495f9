//! The public calls for programs in other languages: the C names of the static library, and nothing else.
//!
//! A slice is passed as a pointer and a length. An answer is a struct by value.
#![tactic(auto)]

ghost use Rattle.std.specs.Prelude.{◌≡◌, ℕ, List, [], ◌∷◌, slice_index};
ghost use Rattle.refusals.specs.Said.{accepted, refusal, said};
ghost use Rattle.cell.specs.Contact.{contact_says, contact_said};
ghost use Rattle.table.specs.Rows.{head_of, head_values, leaves_in, order_in};
ghost use Rattle.table.specs.Leaves.{list_says, listed_row};
ghost use Rattle.table.specs.Refine.{refined_said, refine_says, refined_row};
ghost use Rattle.coarsest.specs.declared.Engine.TheVariants.{Balancing, Conforming};
ghost use Rattle.even.specs.Even.{evening_said, even_says, even_row};
ghost use Rattle.leafmesh.specs.Outcome.{outcome_of, border_outcome_of, head_outcome_of, evening_outcome_of, rect_of};

pub mod boards;
pub mod laws;
pub mod nets;

use cell::border::Border;
use cell::rectangles::{self, Rect};
use even::Evening;
use refusals::Refusal;
use table::Head;

/// What a call answers: number is 0 where it was accepted, and value then its answer; otherwise number and place are
/// those of the refusal. In every answer of this library a field that does not apply is 0.
#[repr(C)]
#[derive(Clone, Copy)]
pub struct Outcome {
    pub number: u64,
    pub place: u64,
    pub value: u64,
}

/// What an accepted call found.
pub trait Found {
    ghost values: { Self → List ℕ };

    /// The one of its values that an Outcome shows, 0 where it has none.
    fn value(self) -> u64
        ensures { result ≡ slice_index (values self) 0 };
}

impl Found for usize {
    ghost values = { λ count. count ∷ [] };

    fn value(self) -> u64 {
        self as u64
    }
}

impl Found for () {
    ghost values = { λ _. [] };

    fn value(self) -> u64 {
        0
    }
}

impl<T: Found> From<Result<T, Refusal>> for Outcome {
    ghost from_gives = { λ answer outcome. outcome ≡ outcome_of (said T.values answer) };

    fn from(answer: Result<T, Refusal>) -> Outcome {
        match answer {
            Ok(found) => Outcome {
                number: 0,
                place: 0,
                value: found.value(),
            },
            Err(why) => {
                let code = why.code();
                Outcome {
                    number: code.number,
                    place: code.place as u64,
                    value: 0,
                }
            }
        }
    }
}

/// What contact answers: the side of the first rectangle that touches the second (0 to 3: south, east, north, west),
/// and the length of the border in ticks. A length of 0 says that they have none.
#[repr(C)]
#[derive(Clone, Copy)]
pub struct BorderOutcome {
    pub number: u64,
    pub place: u64,
    pub side: u64,
    pub length: u64,
}

impl From<Result<Option<Border>, Refusal>> for BorderOutcome {
    ghost from_gives = { λ answer outcome. outcome ≡ border_outcome_of (contact_said answer) };

    fn from(answer: Result<Option<Border>, Refusal>) -> BorderOutcome {
        let none = BorderOutcome {
            number: 0,
            place: 0,
            side: 0,
            length: 0,
        };
        match answer {
            Ok(None) => none,
            Ok(Some(border)) => BorderOutcome {
                side: border.side.number() as u64,
                length: border.length,
                ..none
            },
            Err(why) => {
                let code = why.code();
                BorderOutcome {
                    number: code.number,
                    place: code.place as u64,
                    ..none
                }
            }
        }
    }
}

/// What a call that makes or changes a table answers: how many splits balance or conform made, and the table's new
/// head.
#[repr(C)]
#[derive(Clone, Copy)]
pub struct TableOutcome {
    pub number: u64,
    pub place: u64,
    pub splits: u64,
    pub count: u64,
    pub leaves: u64,
    pub max_level: u64,
}

fn changed(splits: usize, head: Head) -> TableOutcome
    ensures { result ≡ evening_outcome_of (accepted (splits ∷ head_values head)) }
{
    TableOutcome {
        number: 0,
        place: 0,
        splits: splits as u64,
        count: head.count as u64,
        leaves: head.leaves as u64,
        max_level: head.max_level,
    }
}

fn unchanged(why: Refusal) -> TableOutcome
    ensures head { result ≡ head_outcome_of (refusal why) }
    ensures evening { result ≡ evening_outcome_of (refusal why) }
{
    let code = why.code();
    TableOutcome {
        number: code.number,
        place: code.place as u64,
        splits: 0,
        count: 0,
        leaves: 0,
        max_level: 0,
    }
}

impl From<Result<Head, Refusal>> for TableOutcome {
    ghost from_gives = { λ answer outcome. outcome ≡ head_outcome_of (refined_said answer) };

    fn from(answer: Result<Head, Refusal>) -> TableOutcome {
        match answer {
            Ok(head) => changed(0, head),
            Err(why) => unchanged(why),
        }
    }
}

impl From<Result<Evening, Refusal>> for TableOutcome {
    ghost from_gives = { λ answer outcome. outcome ≡ evening_outcome_of (evening_said answer) };

    fn from(answer: Result<Evening, Refusal>) -> TableOutcome {
        match answer {
            Ok(evening) => changed(evening.splits, evening.head),
            Err(why) => unchanged(why),
        }
    }
}

// The head that stands beside a table's row.
fn head_of(count: usize, leaves: usize, max_level: u64) -> Head
    ensures { result ≡ head_of count leaves max_level }
{
    Head {
        count,
        leaves,
        max_level,
    }
}

/// The border that two rectangles share, as the first of them sees it.
#[unsafe(no_mangle)]
pub extern "C" fn leafmesh_contact(
    ax0: i64,
    ay0: i64,
    ax1: i64,
    ay1: i64,
    bx0: i64,
    by0: i64,
    bx1: i64,
    by1: i64,
) -> BorderOutcome
    ensures { result ≡ border_outcome_of (contact_says (rect_of ax0 ay0 ax1 ay1) (rect_of bx0 by0 bx1 by1)) }
{
    let a = Rect {
        x0: ax0,
        y0: ay0,
        x1: ax1,
        y1: ay1,
    };
    let b = Rect {
        x0: bx0,
        y0: by0,
        x1: bx1,
        y1: by1,
    };
    BorderOutcome::from(rectangles::between(a, b))
}

/// How many leaves a table has, as its head says: the table itself is not looked at, and nothing is refused.
#[unsafe(no_mangle)]
pub extern "C" fn leafmesh_leaf_count(count: usize, leaves: usize, max_level: u64) -> usize
    ensures { result ≡ leaves }
{
    let head = head_of(count, leaves, max_level);
    table::leaves::leaf_count(head)
}

/// The leaves' ids, rising, into the front of out: value is how many.
#[unsafe(no_mangle)]
pub extern "C" fn leafmesh_leaves(
    table: &[i64],
    count: usize,
    leaves: usize,
    max_level: u64,
    out: &mut [u64],
) -> Outcome
    ensures value { let head = head_of count leaves max_level in
        result ≡ outcome_of (list_says table.now head (leaves_in table.now head) out.old) }
    ensures out_after { let head = head_of count leaves max_level in
        out.new ≡ listed_row table.now head (leaves_in table.now head) out.old }
{
    let head = head_of(count, leaves, max_level);
    Outcome::from(table::leaves::leaves(table, head, out))
}

/// The same by polygon, then id.
#[unsafe(no_mangle)]
pub extern "C" fn leafmesh_leaf_order(
    table: &[i64],
    count: usize,
    leaves: usize,
    max_level: u64,
    out: &mut [u64],
) -> Outcome
    ensures value { let head = head_of count leaves max_level in
        result ≡ outcome_of (list_says table.now head (order_in table.now head) out.old) }
    ensures out_after { let head = head_of count leaves max_level in
        out.new ≡ listed_row table.now head (order_in table.now head) out.old }
{
    let head = head_of(count, leaves, max_level);
    Outcome::from(table::leaves::leaf_order(table, head, out))
}

/// Splits the leaf with this id.
#[unsafe(no_mangle)]
pub extern "C" fn leafmesh_refine(
    table: &mut [i64],
    count: usize,
    leaves: usize,
    max_level: u64,
    id: usize,
) -> TableOutcome
    ensures value { result ≡ head_outcome_of (refine_says table.old (head_of count leaves max_level) id) }
    ensures table_after { table.new ≡ refined_row table.old (head_of count leaves max_level) id }
{
    let head = head_of(count, leaves, max_level);
    TableOutcome::from(table::refine::refine(table, head, id))
}

/// Balances the table.
#[unsafe(no_mangle)]
pub extern "C" fn leafmesh_balance(
    table: &mut [i64],
    count: usize,
    leaves: usize,
    max_level: u64,
) -> TableOutcome
    ensures value { result ≡ evening_outcome_of (even_says Balancing table.old (head_of count leaves max_level)) }
    ensures table_after { table.new ≡ even_row Balancing table.old (head_of count leaves max_level) }
{
    let head = head_of(count, leaves, max_level);
    TableOutcome::from(even::balance(table, head))
}

/// The same until no two neighbours differ in level.
#[unsafe(no_mangle)]
pub extern "C" fn leafmesh_conform(
    table: &mut [i64],
    count: usize,
    leaves: usize,
    max_level: u64,
) -> TableOutcome
    ensures value { result ≡ evening_outcome_of (even_says Conforming table.old (head_of count leaves max_level)) }
    ensures table_after { table.new ≡ even_row Conforming table.old (head_of count leaves max_level) }
{
    let head = head_of(count, leaves, max_level);
    TableOutcome::from(even::conform(table, head))
}
