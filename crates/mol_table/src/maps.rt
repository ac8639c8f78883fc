//! The maps of a table, on which its rules may not hold yet.
ghost use Rattle.std.specs.Prelude.{◌≡◌, ◌⊎◌, ◌+◌, ◌<◌, ◌≤◌, ◌^◌, None, Some, IsSome, IsOk, IfOk, IsTrue, ◌↔◌, option_copied, length, is_some, List};
ghost use Rattle.indexmap.specs.IndexMap.{spare};
ghost use Rattle.std.specs.FinMap as map;
ghost use Rattle.std.specs.Vec.{vec_capacity};
ghost use Rattle.mol_base.specs.declared.ident.Id.{Id as Identity};
ghost use Rattle.mol_table_rules.specs.Counting.{number_at, living_of, Counted, counted_by, raised, lowered, recounted, same_method};
ghost use Rattle.mol_table.specs.Maps.{cells_of, knowns_of, counts_of, program_in, counts_in, StartsWith};
ghost use Rattle.mol_table_rules.specs.Room.{AreKnown, NamesKnown, names_in, names_among, values_in, names_of, AreFresh, AreApart};
ghost use Rattle.mol_table_rules.specs.Life.{entity_in};
ghost use Rattle.mol_table_rules.specs.Program.{living_at, params_at, params_in};
ghost use Rattle.mol_table_rules.specs.Writes.{kept_or, with_params, known_by, known_as, with_value, with_values, with_entity, with_entities};

mod ascending;
mod bare;
mod change;
mod copy;
mod first_cells;
mod tidied;

use crate::maps::first_cells::place_in_base;
use indexmap::IndexMap;
use mol_base::{Id, OutOfMemory};
use mol_table_rules::NewEntity;
use mol_values_types::{Cell, Kind, Known, Param, Slot, Value};

/// A value for each cell, what each identity is known as, and how many declarations of each method live.
#[derive(Drop)]
pub struct Maps {
    pub cells: IndexMap<Cell, Value>,
    /// Ascending by identity, but while entities are added or a value is set.
    pub known: IndexMap<Id, Known>,
    pub living: IndexMap<Id, usize>,
    /// Where in `cells` those of a base's identities begin, in the order of their numbers. It may be short, and of
    /// what has no cells there it has no place.
    pub first_cells: Vec<usize>,
}

impl Maps {
    /// The value of a cell.
    pub fn value(&self, cell: &Cell) -> Option<&Value>
        ensures { option_copied result ≡ map.get (program_in self.now).cells cell.now }
    {
        match self.value_nearby(cell) {
            Some(value) => Some(value),
            None => self.cells.get(cell),
        }
    }

    /// What an identity is known as. One of a base is looked for first where its number has it.
    pub fn find(&self, id: &Id) -> Option<Known>
        ensures { result ≡ map.get (program_in self.now).known id.now }
    {
        if let Some((at, what)) = self.known.get_index(place_in_base(id)) {
            if at == id {
                return Some(*what);
            }
        }
        self.known.get(id).copied()
    }

    /// How many declarations of a method are counted.
    pub fn number(&self, method: &Id) -> usize
        ensures { result ≡ number_at (counts_in self.now) method.now }
    {
        self.living.get(method).copied().unwrap_or(0)
    }

    /// Whether the cell `live` of an identity is yes.
    pub fn is_living(&self, id: &Id) -> bool
        ensures { result ≡ living_at (program_in self.now) id.now }
    {
        let cell = Cell {
            id: *id,
            slot: Slot::Live,
        };
        match self.value(&cell) {
            Some(Value::Live(live)) => *live,
            _ => false,
        }
    }

    /// The present parameters of a method.
    pub fn params(&self, method: &Id) -> &[Param]
        ensures { result.now ≡ params_at (program_in self.now) method.now }
    {
        let cell = Cell {
            id: *method,
            slot: Slot::Params,
        };
        match self.value(&cell) {
            Some(Value::Params(params)) => params.items(),
            _ => &[],
        }
    }

    /// The method of which an identity is a living declaration, if it is one.
    pub fn living_of(&self, id: &Id) -> Option<Id>
        ensures { result ≡ living_of (program_in self.now) id.now }
    {
        match self.find(id) {
            Some(Known::Decl(method)) => {
                if self.is_living(id) {
                    Some(method)
                } else {
                    None
                }
            },
            _ => None,
        }
    }

    /// Puts a value into a cell that is there or for which there is room.
    fn put_value(&mut self, cell: Cell, value: Value)
        requires { (0 < spare self.old.cells) ⊎ IsSome (map.get (program_in self.old).cells cell) }
        ensures cells { (program_in self.new).cells ≡ map.insert (program_in self.old).cells cell value }
        ensures room { spare self.old.cells ≤ spare self.new.cells + 1 }
        ensures rest { self.new ≡ record self.old { cells = self.new.cells } }
    {
        drop(self.cells.insert(cell, value).unwrap());
    }

    /// Makes an identity known as this. It is known, or there is room for it.
    fn put_known(&mut self, id: Id, what: Known)
        requires { (0 < spare self.old.known) ⊎ IsSome (map.get (program_in self.old).known id) }
        ensures known { (program_in self.new).known ≡ map.insert (program_in self.old).known id what }
        ensures starts { (ids : List Identity) → StartsWith ids self.old.known.entries → StartsWith ids self.new.known.entries }
        ensures count { length self.new.known.entries ≤ length self.old.known.entries + 1 }
        ensures again { IsSome (map.get (program_in self.old).known id) → length self.new.known.entries ≤ length self.old.known.entries }
        ensures room { spare self.old.known ≤ spare self.new.known + 1 }
        ensures rest { self.new ≡ record self.old { known = self.new.known } }
    {
        let _ = self.known.insert(id, what).unwrap();
    }

    /// Makes an identity known as this, where it is not known. There is room for it.
    fn keep_known(&mut self, id: Id, what: Known)
        requires { 0 < spare self.old.known }
        ensures known { (program_in self.new).known ≡ kept_or (program_in self.old).known id what }
        ensures starts { (ids : List Identity) → StartsWith ids self.old.known.entries → StartsWith ids self.new.known.entries }
        ensures count { length self.new.known.entries ≤ length self.old.known.entries + 1 }
        ensures room { spare self.old.known ≤ spare self.new.known + 1 }
        ensures rest { self.new ≡ record self.old { known = self.new.known } }
    {
        if self.find(&id).is_none() {
            self.put_known(id, what);
        }
    }

    /// Makes parameters of a method known. There is room for them.
    fn put_params(&mut self, method: &Id, params: &[Param])
        requires { length params.now ≤ spare self.old.known }
        ensures known { (program_in self.new).known ≡ with_params (program_in self.old).known method.now params.now }
        ensures starts { (ids : List Identity) → StartsWith ids self.old.known.entries → StartsWith ids self.new.known.entries }
        ensures count { length self.new.known.entries ≤ length self.old.known.entries + length params.now }
        ensures room { spare self.old.known ≤ spare self.new.known + length params.now }
        ensures rest { self.new ≡ record self.old { known = self.new.known } }
    {
        for param in params {
            self.keep_known(param.id, Known::Param(*method));
        }
    }

    /// Whether all of these parameters are known.
    pub(crate) fn all_known(&self, params: &[Param]) -> bool
        ensures { IsTrue result ↔ AreKnown (program_in self.now).known params.now }
    {
        for param in params {
            if self.find(&param.id).is_none() {
                return false;
            }
        }
        true
    }

    /// Makes known what a value in a cell of this identity makes known. All of that is known, or there is
    /// room for it.
    fn know(&mut self, id: &Id, value: &Value)
        requires { (names_in value.now ≤ spare self.old.known) ⊎ NamesKnown (program_in self.old).known id.now value.now }
        ensures known { (program_in self.new).known ≡ known_by (program_in self.old).known id.now value.now }
        ensures starts { (ids : List Identity) → StartsWith ids self.old.known.entries → StartsWith ids self.new.known.entries }
        ensures count { length self.new.known.entries ≤ length self.old.known.entries + names_in value.now }
        ensures again { NamesKnown (program_in self.old).known id.now value.now → length self.new.known.entries ≤ length self.old.known.entries }
        ensures room { spare self.old.known ≤ spare self.new.known + names_in value.now }
        ensures rest { self.new ≡ record self.old { known = self.new.known } }
    {
        match value {
            Value::Kind(kind) => self.put_known(*id, Known::Method(*kind)),
            Value::Method(method) => self.put_known(*id, Known::Decl(*method)),
            Value::Params(params) => {
                if !self.all_known(params.items()) {
                    self.put_params(id, params.items());
                }
            },
            _ => {},
        }
    }

    /// Writes a value into a cell, and makes known what it makes known. The cell is there or there is room
    /// for it, and so for what becomes known.
    pub(crate) fn write(&mut self, cell: Cell, value: Value)
        requires cell { (0 < spare self.old.cells) ⊎ IsSome (map.get (program_in self.old).cells cell) }
        requires names { (names_in value ≤ spare self.old.known) ⊎ NamesKnown (program_in self.old).known cell.id value }
        ensures program { program_in self.new ≡ with_value (program_in self.old) cell value }
        ensures starts { (ids : List Identity) → StartsWith ids self.old.known.entries → StartsWith ids self.new.known.entries }
        ensures count { length self.new.known.entries ≤ length self.old.known.entries + names_in value }
        ensures again { NamesKnown (program_in self.old).known cell.id value → length self.new.known.entries ≤ length self.old.known.entries }
        ensures cells_room { spare self.old.cells ≤ spare self.new.cells + 1 }
        ensures known_room { spare self.old.known ≤ spare self.new.known + names_in value }
        ensures rest { self.new.living ≡ self.old.living }
    {
        self.know(&cell.id, &value);
        self.put_value(cell, value);
    }

    /// Writes each value into the slot of its form. There is room for them and for what becomes known.
    fn write_all(&mut self, id: &Id, values: Vec<Value>)
        requires cells { length values.items ≤ spare self.old.cells }
        requires names { names_among values.items ≤ spare self.old.known }
        ensures program { program_in self.new ≡ with_values (program_in self.old) id.now values.items }
        ensures starts { (ids : List Identity) → StartsWith ids self.old.known.entries → StartsWith ids self.new.known.entries }
        ensures count { length self.new.known.entries ≤ length self.old.known.entries + names_among values.items }
        ensures cells_room { spare self.old.cells ≤ spare self.new.cells + length values.items }
        ensures known_room { spare self.old.known ≤ spare self.new.known + names_among values.items }
        ensures rest { self.new.living ≡ self.old.living }
    {
        for value in values {
            let cell = Cell {
                id: *id,
                slot: value.slot(),
            };
            self.write(cell, value);
        }
    }

    /// Makes a class or a field known as what it is. There is room for it.
    fn know_as(&mut self, id: Id, kind: Kind)
        requires { 0 < spare self.old.known }
        ensures known { (program_in self.new).known ≡ known_as (program_in self.old).known id kind }
        ensures starts { (ids : List Identity) → StartsWith ids self.old.known.entries → StartsWith ids self.new.known.entries }
        ensures count { length self.new.known.entries ≤ length self.old.known.entries + 1 }
        ensures room { spare self.old.known ≤ spare self.new.known + 1 }
        ensures rest { self.new ≡ record self.old { known = self.new.known } }
    {
        match kind {
            Kind::Class => self.put_known(id, Known::Class),
            Kind::Field => self.put_known(id, Known::Field),
            _ => {},
        }
    }

    /// Gives a method a number in the counts. It has one already, or there is room for it.
    fn put_number(&mut self, method: Id, number: usize)
        requires { (0 < spare self.old.living) ⊎ IsSome (map.get (counts_in self.old) method) }
        ensures counts { counts_in self.new ≡ map.insert (counts_in self.old) method number }
        ensures room { spare self.old.living ≤ spare self.new.living + 1 }
        ensures rest { self.new ≡ record self.old { living = self.new.living } }
    {
        let _ = self.living.insert(method, number).unwrap();
    }

    /// Counts one declaration less for a method, if there is one. It has a number that is not 0.
    fn lower(&mut self, method: Option<Id>)
        requires there { (own : Id) → method ≡ Some own → IsSome (map.get (counts_in self.old) own) }
        requires some { (own : Id) → method ≡ Some own → 1 ≤ number_at (counts_in self.old) own }
        ensures counts { counts_in self.new ≡ lowered (counts_in self.old) method }
        ensures rest { self.new ≡ record self.old { living = self.new.living } }
    {
        if let Some(method) = method {
            let number = self.number(&method) - 1;
            self.put_number(method, number);
        }
    }

    /// Counts one declaration more for a method, if there is one. It has a number.
    fn raise(&mut self, method: Option<Id>)
        requires there { (own : Id) → method ≡ Some own → IsSome (map.get (counts_in self.old) own) }
        requires small { (own : Id) → number_at (counts_in self.old) own < 2 ^ 63 }
        ensures counts { counts_in self.new ≡ raised (counts_in self.old) method }
        ensures rest { self.new ≡ record self.old { living = self.new.living } }
    {
        if let Some(method) = method {
            let number = self.number(&method) + 1;
            self.put_number(method, number);
        }
    }

    /// Counts an identity anew that was a living declaration of the first method, and is one of the
    /// second. Both have a number, and that of the first is not 0.
    pub(crate) fn recount(&mut self, was: Option<Id>, now: Option<Id>)
        requires was { (own : Id) → was ≡ Some own → IsSome (map.get (counts_in self.old) own) }
        requires now { (own : Id) → now ≡ Some own → IsSome (map.get (counts_in self.old) own) }
        requires some { (own : Id) → was ≡ Some own → 1 ≤ number_at (counts_in self.old) own }
        requires small { (own : Id) → number_at (counts_in self.old) own < 2 ^ 63 }
        ensures counts { counts_in self.new ≡ recounted (counts_in self.old) was now }
        ensures rest { self.new ≡ record self.old { living = self.new.living } }
    {
        if same_method(&was, &now) {
            return;
        }
        self.lower(was);
        self.raise(now);
    }

    /// Makes room for the parameters that a value lists, where not all of them are known, and to sort them
    /// in among what is known.
    pub(crate) fn reserve_for(&mut self, id: &Id, value: &Value) -> Result<Vec<Id>, OutOfMemory>
        requires { IsSome (map.get (program_in self.old).known id.now) }
        ensures room { IfOk result (λ room. ((names_in value.now ≤ spare self.new.known) × (length self.old.known.entries + names_in value.now ≤ vec_capacity room))
            ⊎ NamesKnown (program_in self.old).known id.now value.now) }
        ensures memory { AreKnown (program_in self.old).known (params_in (Some value.now)) → IsOk result }
        ensures entries { self.new.known.entries ≡ self.old.known.entries }
        ensures rest { self.new ≡ record self.old { known = self.new.known } }
    {
        if let Value::Params(params) = value {
            if !self.all_known(params.items()) {
                let more = params.items().len();
                self.known.reserve(more)?;
                return self.room_to_sort(more);
            }
        }
        Ok(Vec::new(*self.known.allocator()))
    }

    /// Counts an identity that was added. There is room for it.
    fn count_added(&mut self, id: &Id)
        requires room { 0 < spare self.old.living }
        requires small { (method : Id) → number_at (counts_in self.old) method < 2 ^ 63 }
        ensures counts { counts_in self.new ≡ counted_by (counts_in self.old) id.now (map.get (program_in self.old).known id.now) (living_at (program_in self.old) id.now) }
        ensures room { spare self.old.living ≤ spare self.new.living + 1 }
        ensures rest { self.new ≡ record self.old { living = self.new.living } }
    {
        match self.find(id) {
            Some(Known::Method(_)) => self.put_number(*id, self.number(id)),
            Some(Known::Decl(method)) => {
                if self.is_living(id) {
                    let number = self.number(&method) + 1;
                    self.put_number(method, number);
                }
            },
            _ => {},
        }
    }

    /// Adds an entity, and counts it. There is room for it.
    fn put_entity(&mut self, entity: NewEntity)
        requires cells { length entity.values ≤ spare self.old.cells }
        requires names { 1 + names_among entity.values ≤ spare self.old.known }
        requires living { 0 < spare self.old.living }
        requires fresh { entity_in (map.get (program_in self.old).known entity.id) ≡ None }
        requires counted { Counted (program_in self.old) (counts_in self.old) }
        ensures program { program_in self.new ≡ with_entity (program_in self.old) entity }
        ensures counted { Counted (program_in self.new) (counts_in self.new) }
        ensures starts { (ids : List Identity) → StartsWith ids self.old.known.entries → StartsWith ids self.new.known.entries }
        ensures count { length self.new.known.entries ≤ length self.old.known.entries + (1 + names_among entity.values) }
        ensures cells_room { spare self.old.cells ≤ spare self.new.cells + length entity.values }
        ensures known_room { spare self.old.known ≤ spare self.new.known + (1 + names_among entity.values) }
        ensures living_room { spare self.old.living ≤ spare self.new.living + 1 }
    {
        // No method has more declarations than there are identities.
        let _size = self.known.len();
        let NewEntity { id, kind, values } = entity;
        self.know_as(id, kind);
        self.write_all(&id, values.into_vec());
        self.count_added(&id);
    }

    /// Adds entities one after another, and counts them. There is room for them.
    pub(crate) fn put_entities(&mut self, entities: Vec<NewEntity>)
        requires cells { values_in entities.items ≤ spare self.old.cells }
        requires names { names_of entities.items ≤ spare self.old.known }
        requires living { length entities.items ≤ spare self.old.living }
        requires fresh { AreFresh (program_in self.old).known entities.items }
        requires differ { AreApart entities.items }
        requires counted { Counted (program_in self.old) (counts_in self.old) }
        ensures program { program_in self.new ≡ with_entities (program_in self.old) entities.items }
        ensures counted { Counted (program_in self.new) (counts_in self.new) }
        ensures starts { (ids : List Identity) → StartsWith ids self.old.known.entries → StartsWith ids self.new.known.entries }
        ensures count { length self.new.known.entries ≤ length self.old.known.entries + names_of entities.items }
    {
        for entity in entities {
            self.put_entity(entity);
        }
    }
}

/// Whether both are one method, or neither is there.
fn same_method(first: &Option<Id>, second: &Option<Id>) -> bool
    ensures { result ≡ same_method first.now second.now }
{
    match (first, second) {
        (None, None) => true,
        (Some(first), Some(second)) => first == second,
        _ => false,
    }
}
