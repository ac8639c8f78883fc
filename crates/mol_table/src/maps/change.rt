//! What a table does to its maps: their rules hold before and after.
ghost use Rattle.std.specs.Prelude.{◌≡◌, Some, IsSome, IsOk, IfSome, OnOk, OnErr};
ghost use Rattle.std.specs.FinMap as map;
ghost use Rattle.mol_table.specs.Maps.{program_in, Stands};
ghost use Rattle.mol_table_rules.specs.Room.{AreKnown, values_in, names_in, names_among, names_of};
ghost use Rattle.mol_table_rules.specs.Program.{params_in};
ghost use Rattle.mol_table_rules.specs.Rules.{IsProgram};
ghost use Rattle.mol_table_rules.specs.Writes.{with_value, with_entities, AreNew};

use crate::maps::Maps;
use mol_base::OutOfMemory;
use mol_table_rules::NewEntity;
use mol_values_types::{Cell, Value};

impl Maps {
    /// Gives a cell that is there another value, where the rules hold afterwards.
    pub(crate) fn set(&mut self, cell: Cell, value: Value) -> Result<(), OutOfMemory>
        requires stands { Stands self.old }
        requires there { IsSome (map.get (program_in self.old).cells cell) }
        requires rules { IsProgram (with_value (program_in self.old) cell value) }
        ensures ok { OnOk result (program_in self.new ≡ with_value (program_in self.old) cell value) }
        ensures err { OnErr result (program_in self.new ≡ program_in self.old) }
        ensures memory { AreKnown (program_in self.old).known (params_in (Some value)) → IsOk result }
        ensures stands { Stands self.new }
    {
        // No method has more declarations than there are identities.
        let size = self.known.len();
        let id = cell.id;
        let was = self.living_of(&id);
        let room = self.reserve_for(&id, &value)?;
        self.write(cell, value);
        let now = self.living_of(&id);
        self.recount(was, now);
        self.arrange(size, room);
        Ok(())
    }

    /// Adds entities, where the rules hold afterwards.
    pub(crate) fn add(&mut self, entities: Vec<NewEntity>) -> Result<(), OutOfMemory>
        requires stands { Stands self.old }
        requires new { AreNew (program_in self.old) entities.items }
        ensures ok { OnOk result (program_in self.new ≡ with_entities (program_in self.old) entities.items) }
        ensures err { OnErr result (program_in self.new ≡ program_in self.old) }
        ensures stands { Stands self.new }
    {
        let Some(values) = count_values(&entities) else {
            return Err(OutOfMemory);
        };
        let Some(names) = count_names(&entities) else {
            return Err(OutOfMemory);
        };
        self.cells.reserve(values)?;
        self.known.reserve(names)?;
        self.living.reserve(entities.len())?;
        let room = self.room_to_sort(names)?;
        let size = self.known.len();
        let first = self.cells.len();
        self.put_entities(entities);
        self.arrange(size, room);
        self.note_first_cells(first);
        Ok(())
    }
}

/// How many values the entities have together, if that is a `usize`.
fn count_values(entities: &[NewEntity]) -> Option<usize>
    ensures { IfSome result (λ count. count ≡ values_in entities.now) }
{
    let mut count = 0usize;
    for entity in entities {
        count = count.checked_add(entity.values.items().len())?;
    }
    Some(count)
}

/// How many identities a value makes known, at most.
fn count_own(value: &Value) -> usize
    ensures { result ≡ names_in value.now }
{
    match value {
        Value::Kind(_) => 1,
        Value::Method(_) => 1,
        Value::Params(params) => params.items().len(),
        _ => 0,
    }
}

/// How many identities the values make known, at most, if that is a `usize`.
fn count_among(values: &[Value]) -> Option<usize>
    ensures { IfSome result (λ count. count ≡ names_among values.now) }
{
    let mut count = 0usize;
    for value in values {
        count = count.checked_add(count_own(value))?;
    }
    Some(count)
}

/// How many identities become known with the entities, at most, if that is a `usize`.
fn count_names(entities: &[NewEntity]) -> Option<usize>
    ensures { IfSome result (λ count. count ≡ names_of entities.now) }
{
    let mut count = 0usize;
    for entity in entities {
        let own = count_among(entity.values.items())?.checked_add(1)?;
        count = count.checked_add(own)?;
    }
    Some(count)
}
