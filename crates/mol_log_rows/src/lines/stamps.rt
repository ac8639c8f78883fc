//! The stamps of a log's entries, one after the other.
ghost use Rattle.std.specs.Prelude.{◌≡◌, true, length, vec_len};
ghost use Rattle.mol_log_rows.specs.lines.Headers.{ascend};

use mol_base::{OutOfMemory, Stamp, Tag};
use std::alloc::Global;

/// The last number of each tag of a header.
#[derive(Drop)]
pub struct LastNumbers<'a> {
    /// Ascending.
    tags: &'a [Tag],
    /// At the place of each tag, or 0 where no stamp had it.
    numbers: Vec<u32>,
    ghost ascending: { ascend tags.now ≡ true },
    ghost one_each: { vec_len numbers ≡ length tags.now },
}

impl<'a> LastNumbers<'a> {
    ghost use Rattle.std.specs.Prelude.{◌≡◌, true, [], ◌∷◌, List, ℕ, IfOk};
    ghost use Rattle.mol_base.specs.declared.ident.Stamp.{Stamp as Stamped};
    ghost use Rattle.mol_log_rows.specs.lines.Headers.{ascend};
    ghost use Rattle.mol_log_rows.specs.lines.Stamps.{Knows, may_follow as follows};

    /// Those of no stamp. The tags ascend. `Err` is want of memory.
    pub fn new(alloc: Global, tags: &'a [Tag]) -> Result<LastNumbers<'a>, OutOfMemory>
        requires { ascend tags.now ≡ true }
        ensures { IfOk result (λ last. Knows last tags.now []) }
    {
        let numbers = vec![in alloc; 0; tags.len()]?;
        Ok(LastNumbers { tags, numbers })
    }

    /// Whether the stamp may follow: its tag is one of the header's, and its number is greater than the last
    /// one of its tag. The time grows with the logarithm of the number of tags.
    pub fn may_follow(&self, stamp: &Stamp) -> bool
        ensures { (tags : List (List ℕ)) (earlier : List Stamped) → Knows self.now tags earlier → result ≡ follows tags earlier stamp.now }
    {
        match self.tags.binary_search(&stamp.tag) {
            Ok(place) => self.numbers[place] < stamp.seq,
            Err(_) => false,
        }
    }

    /// Takes a stamp. One of a tag that is none of the header's changes nothing.
    pub fn take(&mut self, stamp: &Stamp)
        ensures { (tags : List (List ℕ)) (earlier : List Stamped) → Knows self.old tags earlier → Knows self.new tags (stamp.now ∷ earlier) }
    {
        if let Ok(place) = self.tags.binary_search(&stamp.tag) {
            self.numbers[place] = stamp.seq;
        }
    }
}
