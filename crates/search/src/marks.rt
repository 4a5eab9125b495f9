//! Marks on ids, one for each eight of them: the leaves that a pass of balance or conform has to look at.
ghost use Rattle.std.specs.Prelude.{◌≡◌, ℕ, ◌+◌, ◌<◌, ◌≤◌, IsTrue, IsFalse};
ghost use Rattle.refusals.specs.Limits.{max_slots};
ghost use Rattle.search.specs.Marks.{MarksEach, IsOfFour, Unmarked, mark_at};

use refusals::limits::SLOTS;

/// One mark for each eight ids of the most slots that a table can have.
pub const GROUPS: usize = SLOTS / 8;

/// A mark stands for eight ids.
#[derive(Drop)]
pub struct Marks {
    pub groups: [bool; GROUPS],
}

impl Marks {
    /// Every id is marked.
    pub fn all() -> Marks
        ensures { (a : ℕ) → a < max_slots → IsTrue (mark_at result a) }
    {
        Marks {
            groups: [true; GROUPS],
        }
    }

    /// Takes all marks away.
    pub fn clear(&mut self)
        ensures { (a : ℕ) → IsFalse (mark_at self.new a) }
    {
        self.groups.fill(false);
    }

    /// Marks the four ids from `first` on.
    pub fn mark_four(&mut self, first: usize)
        requires { first + 3 < max_slots }
        ensures { MarksEach (IsOfFour first) self.old self.new }
    {
        self.groups[first / 8] = true;
        self.groups[(first + 3) / 8] = true;
    }

    /// Marks one id.
    pub fn mark(&mut self, id: usize)
        requires { id < max_slots }
        ensures { MarksEach (λ a. id ≡ a) self.old self.new }
    {
        self.groups[id / 8] = true;
    }

    /// The first id from `from` below `stop` that has a mark; `stop`, where there is none.
    pub fn next(&self, from: usize, stop: usize) -> usize
        requires order { from ≤ stop }
        requires few { stop ≤ max_slots }
        ensures past { from ≤ result }
        ensures within { result ≤ stop }
        ensures skipped { Unmarked self.now from result }
        ensures found { result < stop → IsTrue (mark_at self.now result) }
    {
        let mut id = from;
        while id < stop {
            if self.groups[id / 8] {
                return id;
            }
            id = id / 8 * 8 + 8;
        }
        stop
    }
}

/// A range of levels, both ends in it.
#[derive(Clone, Copy)]
pub struct Levels {
    pub low: u64,
    pub high: u64,
}
