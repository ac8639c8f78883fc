//! The forest of classes.
ghost use Rattle.std.specs.Prelude.{◌≡◌, ◌+◌, ◌<◌, ◌≤◌, ◌∷◌, [], IsTrue, ◌↔◌, IsSome, IfOk, OnOk, length, take, drop};
ghost use Rattle.std.specs.FinMap as map;
ghost use Rattle.indexmap.specs.IndexSet.{index_set_len};
ghost use Rattle.mol_table_rules.specs.Rules.{IsProgram};
ghost use Rattle.mol_scope_classes.specs.hierarchy.Forest.{IsUp, ArePlaces, IsBelow, LeadsOn, top_place};
ghost use Rattle.mol_scope_classes.specs.hierarchy.Placed.{number_in, ArePlaced, IsLine, AreNew, Adds, AddsBelow, Keeps};

use crate::hierarchy::line::Line;
use crate::hierarchy::parents::living_parent;
use crate::hierarchy::place::Place;
use indexmap::{IndexMap, IndexSet};
use mol_base::{Id, OutOfMemory};
use mol_table::Table;
use std::alloc::Global;

/// Classes with their places. The classes of a circle of superclasses have one place together.
#[derive(Drop)]
pub(crate) struct Forest {
    /// The numbers of the places of classes.
    pub numbers: IndexMap<Id, usize>,
    pub places: Vec<Place>,
}

impl Forest {
    /// A forest without classes.
    pub(crate) fn new(alloc: Global) -> Forest
        ensures numbers { result.numbers.entries ≡ [] }
        ensures places { result.places.items ≡ [] }
    {
        Forest {
            numbers: IndexMap::new(alloc),
            places: Vec::new(alloc),
        }
    }

    /// Whether the second place is the first one, or above it. The time is logarithmic in the number of places.
    pub(crate) fn is_up(&self, from: usize, to: usize) -> bool
        requires places { ArePlaces self.now.places.items }
        requires within { from < length self.now.places.items }
        ensures { IsTrue result ↔ IsUp self.now.places.items from to }
    {
        let mut at = from;
        while at > to {
            let next = self.next(at, to);
            if next == at {
                return false;
            }
            at = next;
        }
        at == to
    }

    /// Where to look next on the way up from a place for one further up: past the places between, where the jump does not miss it.
    fn next(&self, at: usize, to: usize) -> usize
        requires { at < length self.now.places.items }
        ensures { LeadsOn self.now.places.items at to result }
    {
        let place = &self.places[at];
        if place.jump < to {
            place.above
        } else {
            place.jump
        }
    }

    /// Gives a class its place, and each class above it that has none yet.
    pub(crate) fn note(
        &mut self,
        alloc: Global,
        table: &Table,
        class: &Id,
    ) -> Result<(), OutOfMemory>
        requires rules { IsProgram table.now }
        requires known { IsSome (map.get table.now.known class.now) }
        requires placed { ArePlaced table.now self.old.numbers.entries self.old.places.items }
        ensures placed { OnOk result (ArePlaced table.now self.new.numbers.entries self.new.places.items) }
        ensures noted { OnOk result (IsSome (number_in self.new.numbers.entries class.now)) }
        ensures kept { OnOk result (Keeps self.old.numbers.entries self.new.numbers.entries) }
    {
        let Line {
            mut classes,
            mut above,
        } = self.line_up(alloc, table, *class)?;
        while let Some(below) = classes.pop() {
            above = self.add_below(below, above)?;
        }
        Ok(())
    }

    /// The classes from one on upwards that have no place, up to one that has one. Where superclasses end, or run in a circle, the last of
    /// them, or the circle, is given a place.
    fn line_up(&mut self, alloc: Global, table: &Table, class: Id) -> Result<Line, OutOfMemory>
        requires rules { IsProgram table.now }
        requires known { IsSome (map.get table.now.known class) }
        requires placed { ArePlaced table.now self.old.numbers.entries self.old.places.items }
        ensures line { IfOk result (λ line. IsLine table.now self.new.numbers.entries class line.classes.keys line.above) }
        ensures unplaced { IfOk result (λ line. AreNew self.new.numbers.entries line.classes.keys) }
        ensures placed { OnOk result (ArePlaced table.now self.new.numbers.entries self.new.places.items) }
        ensures kept { OnOk result (Keeps self.old.numbers.entries self.new.numbers.entries) }
    {
        let mut classes = IndexSet::new(alloc);
        let mut at = class;
        'up: loop {
            if let Some(number) = self.numbers.get(&at) {
                return Ok(Line {
                    classes,
                    above: *number,
                });
            }
            let (first, is_new) = classes.insert_full(at)?;
            if !is_new {
                return self.topped(classes, first);
            }
            match living_parent(table, &at) {
                Some(next) => at = next,
                None => return self.topped(classes, first),
            }
        }
    }

    /// Gives the classes from the first of these on one place together, at the top; those before them are left.
    fn topped(&mut self, mut classes: IndexSet<Id>, first: usize) -> Result<Line, OutOfMemory>
        requires { first ≤ index_set_len classes }
        ensures left { IfOk result (λ line. line.classes.keys ≡ take first classes.keys) }
        ensures above { IfOk result (λ line. line.above ≡ length self.old.places.items) }
        ensures added { OnOk result (Adds self.old.numbers.entries self.old.places.items (drop first classes.keys)
            (top_place (length self.old.places.items)) self.new.numbers.entries self.new.places.items) }
    {
        let above = self.add_top(&classes.as_slice()[first..])?;
        classes.truncate(first);
        Ok(Line { classes, above })
    }

    /// Gives these classes one place together, at the top.
    fn add_top(&mut self, classes: &[Id]) -> Result<usize, OutOfMemory>
        ensures number { IfOk result (λ number. number ≡ length self.old.places.items) }
        ensures added { OnOk result (Adds self.old.numbers.entries self.old.places.items classes.now
            (top_place (length self.old.places.items)) self.new.numbers.entries self.new.places.items) }
    {
        let number = self.places.len();
        self.places.push(Place {
            above: number,
            jump: number,
            rank: 0,
        })?;
        for class in classes {
            let _ = self.numbers.insert(*class, number)?;
        }
        Ok(number)
    }

    /// Gives a class a place below another one.
    fn add_below(&mut self, class: Id, above: usize) -> Result<usize, OutOfMemory>
        requires places { ArePlaces self.old.places.items }
        requires within { above < length self.old.places.items }
        ensures number { IfOk result (λ number. number ≡ length self.old.places.items) }
        ensures added { OnOk result (AddsBelow self.old.numbers.entries self.old.places.items class above
            self.new.numbers.entries self.new.places.items) }
    {
        let number = self.places.len();
        let place = self.below(above);
        self.places.push(place)?;
        let _ = self.numbers.insert(class, number)?;
        Ok(number)
    }

    /// A place below another one. A jump passes the next place's jump too where that is as long as the jump from there on, so that jumps
    /// double, and few of them lead to any place above.
    fn below(&self, above: usize) -> Place
        requires places { ArePlaces self.now.places.items }
        requires within { above < length self.now.places.items }
        ensures { IsBelow self.now.places.items above result }
    {
        let next = self.places[above];
        let further = self.places[next.jump];
        if next.rank == further.rank {
            Place {
                above,
                jump: further.jump,
                rank: next.rank.saturating_add(1),
            }
        } else {
            Place {
                above,
                jump: above,
                rank: 1,
            }
        }
    }
}
