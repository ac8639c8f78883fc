//! Paths that lead down through the classes of a table.
ghost use Rattle.std.specs.Prelude.{◌≡◌, suc, IfSome, IsTrue, OnOk, Some};
ghost use Rattle.mol_scope_classes.specs.hierarchy.Paths.{AreDrawn, CanFollow, Follows, IsNext, last_in, place_on, position_in};
ghost use Rattle.mol_table_rules.specs.Heights.{upward};
ghost use Rattle.mol_table_rules.specs.Program.{Program};

use crate::hierarchy::position::Position;
use indexmap::IndexMap;
use mol_base::{Id, OutOfMemory};
use std::alloc::Global;

/// Classes by paths. Each class of a path but the first extends the one before it.
#[derive(Drop)]
pub struct Paths {
    /// The positions of those that are not first on their paths.
    pub positions: IndexMap<Id, Position>,
}

impl Paths {
    /// Where a class stands. It takes no memory, and about the same time however many classes there are.
    pub fn position(&self, class: &Id) -> Position
        ensures { result ≡ position_in self.now.positions.entries class.now }
    {
        position_in(&self.positions, class)
    }
}

/// Where a class stands, by what is noted. One of which nothing is noted stands first on a path of its own.
fn position_in(positions: &IndexMap<Id, Position>, class: &Id) -> Position
    ensures { result ≡ position_in positions.now.entries class.now }
{
    match positions.get(class) {
        Some(position) => *position,
        None => Position {
            top: *class,
            depth: 0,
        },
    }
}

/// The next place of a path.
fn behind(position: &Position) -> Option<Position>
    ensures { IfSome result (λ place. place ≡ place_on position.now.top (suc position.now.depth)) }
{
    match position.depth.checked_add(1) {
        Some(depth) => Some(Position {
            top: position.top,
            depth,
        }),
        None => None,
    }
}

/// Paths while classes are added to them.
#[derive(Drop)]
pub(crate) struct Drawing {
    pub positions: IndexMap<Id, Position>,
    /// The depths of the last classes of paths, by the first ones.
    pub lasts: IndexMap<Id, usize>,
}

impl Drawing {
    /// Each class on a path of its own.
    pub(crate) fn new(alloc: Global) -> Drawing
        ensures { (program : Program) → AreDrawn program result.positions.entries result.lasts.entries }
    {
        Drawing {
            positions: IndexMap::new(alloc),
            lasts: IndexMap::new(alloc),
        }
    }

    /// Adds a class to the path of its superclass, if it stands first on a path without others, and the superclass last on another one.
    pub(crate) fn add(&mut self, class: &Id, above: &Id) -> Result<(), OutOfMemory>
        ensures { (program : Program) → upward program (Some class.now) ≡ Some above.now
            → AreDrawn program self.old.positions.entries self.old.lasts.entries
            → OnOk result (AreDrawn program self.new.positions.entries self.new.lasts.entries) }
    {
        match self.next_place(class, above) {
            Some(place) => self.follow(*class, place),
            None => Ok(()),
        }
    }

    /// Notes that a class stands at this place, which is the last of its path.
    fn follow(&mut self, class: Id, place: Position) -> Result<(), OutOfMemory>
        ensures { OnOk result (Follows self.old.positions.entries self.old.lasts.entries class place
            self.new.positions.entries self.new.lasts.entries) }
    {
        let _ = self.lasts.insert(place.top, place.depth)?;
        let _ = self.positions.insert(class, place)?;
        Ok(())
    }

    /// The place behind a superclass, where a class may stand there.
    fn next_place(&self, class: &Id, above: &Id) -> Option<Position>
        ensures { IfSome result (λ place. IsNext self.now.positions.entries self.now.lasts.entries class.now above.now place) }
    {
        let position = position_in(&self.positions, above);
        if self.can_follow(class, &position) {
            behind(&position)
        } else {
            None
        }
    }

    /// Whether a class may come next after this position: it stands first on a path without others, and the position is the last of another
    /// one.
    fn can_follow(&self, class: &Id, position: &Position) -> bool
        ensures { IsTrue result → CanFollow self.now.positions.entries self.now.lasts.entries class.now position.now }
    {
        position_in(&self.positions, class).depth == 0
            && self.last(class) == 0
            && position.top != *class
            && self.last(&position.top) == position.depth
    }

    /// The depth of the last class of a path, by the first one.
    fn last(&self, top: &Id) -> usize
        ensures { result ≡ last_in self.now.lasts.entries top.now }
    {
        match self.lasts.get(top) {
            Some(depth) => *depth,
            None => 0,
        }
    }
}
