//! Ancestors of classes.
ghost use Rattle.std.specs.Prelude.{◌≡◌, IfOk, OnOk};
ghost use Rattle.mol_scope_classes.specs.hierarchy.Paths.{AreDrawn, ArePaths};
ghost use Rattle.mol_table_rules.specs.Ancestors.{is_on_way};

use crate::hierarchy::forest::Forest;
use crate::hierarchy::parents::living_parent;
use crate::hierarchy::paths::{Drawing, Paths};
use crate::hierarchy::weights::heaviest;
use mol_base::{Id, OutOfMemory};
use mol_table::Table;
use std::alloc::Global;
use std::marker::Model;

/// The classes of a table with their superclasses. Contracts see the program of the table.
#[derive(Drop)]
pub struct Hierarchy<'a> {
    table: &'a Table,
    forest: Forest,
}

impl<'a> Model for Hierarchy<'a> {
    ghost use Rattle.mol_base.specs.contracts.ident.Id as id;
    ghost use Rattle.mol_scope_classes.specs.hierarchy.Placed.{IsHierarchy};
    ghost use Rattle.mol_table_rules.specs.Program.{program_code};
    ghost use Rattle.mol_table_rules.specs.Program.{Program};
    ghost use Rattle.mol_values_types.specs.contracts.cell.Cell as cell;
    ghost use Rattle.mol_values_types.specs.contracts.known.Known as what;
    ghost use Rattle.mol_values_types.specs.contracts.value.Value as value;

    ghost Value = { Program };

    ghost coded = { program_code cell.the_row.coded value.the_row.coded id.the_row.coded what.the_row.coded };

    ghost view = { λ hierarchy. hierarchy.table.now };

    ghost invariant = { λ hierarchy. IsHierarchy hierarchy.table.now hierarchy.forest.numbers.entries hierarchy.forest.places.items };
}

impl<'a> Hierarchy<'a> {
    /// The classes of a table. The time is that of some look-ups for each known identity. `Err` is want of memory.
    pub fn new(alloc: Global, table: &'a Table) -> Result<Hierarchy<'a>, OutOfMemory>
        ensures { IfOk result (λ hierarchy. hierarchy ≡ table.now) }
    {
        let mut forest = Forest::new(alloc);
        for id in table.ids() {
            if living_parent(table, id).is_some() {
                forest.note(alloc, table, id)?;
            }
        }
        Ok(Hierarchy { table, forest })
    }

    /// Whether the second class is the first one, or an ancestor of it: one of the superclasses that are met going up while each lives
    /// (JLS 8.1.4). It takes no memory, and the time is logarithmic in the number of classes.
    pub fn is_on_way(&self, class: &Id, above: &Id) -> bool
        ensures { result ≡ is_on_way self.now class.now above.now }
    {
        let Some(from) = self.forest.numbers.get(class) else {
            // It extends no class that lives.
            return class == above;
        };
        match self.forest.numbers.get(above) {
            Some(to) => self.forest.is_up(*from, *to),
            None => false,
        }
    }

    /// Paths that lead down through the classes, so that going up from a class changes paths no more often than the number of classes has
    /// binary digits, but where superclasses run in a circle. The time is that of some look-ups for each class. `Err` is want of memory.
    pub fn paths(&self, alloc: Global) -> Result<Paths, OutOfMemory>
        ensures { IfOk result (λ paths. ArePaths self.now paths.positions.entries) }
    {
        let heaviest = heaviest(alloc, self.forest.places.as_slice())?;
        let mut drawing = Drawing::new(alloc);
        for class in self.forest.numbers.keys().as_slice() {
            self.draw(&mut drawing, heaviest.as_slice(), class)?;
        }
        Ok(Paths {
            positions: drawing.positions,
        })
    }

    /// Adds a class to the path of its superclass, where that leads along it.
    fn draw(&self, drawing: &mut Drawing, heaviest: &[bool], class: &Id) -> Result<(), OutOfMemory>
        requires { AreDrawn self.now drawing.old.positions.entries drawing.old.lasts.entries }
        ensures { OnOk result (AreDrawn self.now drawing.new.positions.entries drawing.new.lasts.entries) }
    {
        let Some(above) = living_parent(self.table, class) else {
            return Ok(());
        };
        match self.forest.numbers.get(class) {
            Some(number) if heaviest.get(*number) == Some(&true) => drawing.add(class, &above),
            _ => Ok(()),
        }
    }
}
