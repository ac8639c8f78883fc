//! The table: a program as finite maps.
ghost use Rattle.std.specs.Prelude.{◌≡◌, Some, IsSome, IsOk, IfOk, OnOk, OnErr, option_copied};
ghost use Rattle.std.specs.List.{list_any};
ghost use Rattle.std.specs.FinMap as map;
ghost use Rattle.mol_table_rules.specs.Identities.{IsAscending, AreKnown};
ghost use Rattle.mol_table_rules.specs.Life.{lives, lives_method, lists};
ghost use Rattle.mol_values_types.specs.Order.{id_eq};
ghost use Rattle.mol_table_rules.specs.Program.{Program, nothing, kind_of, method_of_param, params_in};
ghost use Rattle.mol_table.specs.Maps.{program_in, Stands};
ghost use Rattle.mol_table_rules.specs.Room.{AreKnown as ParamsKnown};
ghost use Rattle.mol_table_rules.specs.Rules.{IsProgram};
ghost use Rattle.mol_table_rules.specs.Tidy.{tidy};
ghost use Rattle.mol_table_rules.specs.Writes.{with_value, with_entities, AreNew};

use crate::maps::Maps;
use indexmap::IndexMap;
use mol_base::{Id, List, OutOfMemory};
use mol_table_rules::NewEntity;
use mol_values_types::{Cell, Kind, Known, Param, Slot, Value};
use std::alloc::Global;
use std::marker::Model;

/// A program: what is known, and a value in each cell. Contracts see two finite maps, and that the rules
/// of programs hold.
#[derive(Drop)]
pub struct Table {
    maps: Maps,
}

impl Model for Table {
    ghost use Rattle.mol_table_rules.specs.Program.{Program};
    ghost use Rattle.mol_table.specs.Maps.{program_in, Stands};
    ghost use Rattle.mol_table_rules.specs.Program.{program_code};
    ghost use Rattle.mol_base.specs.contracts.ident.Id as id;
    ghost use Rattle.mol_values_types.specs.contracts.cell.Cell as cell;
    ghost use Rattle.mol_values_types.specs.contracts.known.Known as what;
    ghost use Rattle.mol_values_types.specs.contracts.value.Value as value;

    ghost Value = { Program };

    ghost coded = { program_code cell.the_row.coded value.the_row.coded id.the_row.coded what.the_row.coded };

    ghost view = { λ table. program_in table.maps };

    ghost invariant = { λ table. Stands table.maps };
}

impl Table {
    /// The table that knows nothing. It takes no memory.
    pub fn new(alloc: Global) -> Table
        ensures { result ≡ nothing }
    {
        Table {
            maps: Maps {
                cells: IndexMap::new(alloc),
                known: IndexMap::new(alloc),
                living: IndexMap::new(alloc),
                first_cells: Vec::new(alloc),
            },
        }
    }

    /// The table that these maps are. It takes no memory.
    ///
    /// The rules of programs hold on them, what is known ascends, and the counts are those of the living declarations.
    pub fn of_maps(maps: Maps) -> Table
        requires { Stands maps }
        ensures { result ≡ program_in maps }
    {
        Table { maps }
    }

    /// The maps that the table keeps, for what goes through all that it has. It takes no memory.
    pub fn maps(&self) -> &Maps
        ensures program { program_in result.now ≡ self.now }
        ensures stands { Stands result.now }
    {
        &self.maps
    }

    /// What an identity is known as: all that the conditions of operations ask. `None` exactly where it
    /// is not known. It takes no memory.
    pub fn known(&self, id: Id) -> Option<Known>
        ensures { result ≡ map.get self.now.known id }
    {
        self.maps.find(&id)
    }

    /// What an identity names. `None` exactly where it is not known. It takes no memory.
    pub fn kind(&self, id: Id) -> Option<Kind>
        ensures { result ≡ kind_of self.now id }
    {
        match self.known(id) {
            Some(known) => Some(known.kind()),
            None => None,
        }
    }

    /// The method that a known parameter is one of, whether or not the method's list has it at present.
    /// `None` for each identity that is not known as a parameter. It takes no memory.
    pub fn method_of_param(&self, id: Id) -> Option<Id>
        ensures { result ≡ method_of_param self.now id }
    {
        match self.known(id) {
            Some(Known::Param(method)) => Some(method),
            _ => None,
        }
    }

    /// The value of a cell. `None` exactly where its entity is not known or has no such slot. It takes no
    /// memory.
    pub fn get(&self, cell: &Cell) -> Option<&Value>
        ensures { option_copied result ≡ map.get self.now.cells cell.now }
    {
        self.maps.value(cell)
    }

    /// Whether an entity or a parameter lives. It takes no memory, and for a method the time does not
    /// grow with its declarations.
    pub fn lives(&self, id: Id) -> bool
        ensures { result ≡ lives self.now id }
    {
        match self.known(id) {
            None => false,
            Some(Known::Method(_)) => self.lives_method(&id),
            Some(Known::Param(method)) => self.lives_method(&method) && self.lists(&method, &id),
            Some(_) => self.maps.is_living(&id),
        }
    }

    /// Whether a declaration of the method lives.
    fn lives_method(&self, method: &Id) -> bool
        ensures { result ≡ lives_method self.now method.now }
    {
        self.maps.number(method) != 0
    }

    /// Whether the method has the parameter in its present list.
    fn lists(&self, method: &Id, param: &Id) -> bool
        ensures { result ≡ lists self.now method.now param.now }
    {
        is_among(param, self.maps.params(method))
    }

    /// All known identities, each known parameter too, ascending. It takes no memory.
    pub fn ids(&self) -> &[Id]
        ensures ascending { IsAscending result.now }
        ensures known { AreKnown self.now result.now }
        ensures rules { IsProgram self.now }
    {
        self.maps.known.keys().as_slice()
    }

    /// A table that equals this one. The time is that of a look-up for each cell and each identity.
    pub fn copy(&self, alloc: Global) -> Result<Table, OutOfMemory>
        ensures { IfOk result (λ copy. copy ≡ self.now) }
    {
        Ok(Table {
            maps: self.maps.copy(alloc)?,
        })
    }

    /// The table with each value tidied, at every depth: the arguments of a call are one for each present
    /// parameter of its method, in the order of the parameters, each the first that is recorded for it, else
    /// its filler; and a creation by default constructor is one by the least living constructor of the
    /// class without parameters, where there is one. The time is that of a look-up for each cell, each
    /// identity and each call; in a call, each parameter looks through the arguments, of which there are at
    /// most 255. `Err` is want of memory.
    pub fn tidy(&self, alloc: Global) -> Result<Table, OutOfMemory>
        ensures ok { IfOk result (λ tidied. tidied ≡ tidy self.now) }
        ensures tidied { IfOk result (λ tidied. tidy tidied ≡ tidied) }
    {
        Ok(Table {
            maps: self.maps.tidied(alloc)?,
        })
    }

    /// The same of a table that is used up: each value is tidied where it stands, so that no second table stands beside it.
    pub fn into_tidied(self, alloc: Global) -> Result<Table, OutOfMemory>
        ensures ok { IfOk result (λ tidied. tidied ≡ tidy self) }
        ensures tidied { IfOk result (λ tidied. tidy tidied ≡ tidied) }
    {
        let Table { mut maps } = self;
        maps.tidy_in_place(alloc)?;
        Ok(Table { maps })
    }

    /// Adds entities with all their cells; all else stays, and the parameters that they list become known
    /// with their methods. For want of memory the table stays as it was.
    ///
    /// The identities are not known and differ, none is a parameter, each entity's values are those of its
    /// kind in the order of the slots, and the rules of programs hold afterwards. The time is that of a
    /// look-up for each value and each identity, and of sorting what becomes known together with those known
    /// identities that come after the least of it.
    pub fn add(&mut self, entities: List<NewEntity>) -> Result<(), OutOfMemory>
        requires { AreNew self.old entities }
        ensures ok { OnOk result (self.new ≡ with_entities self.old entities) }
        ensures err { OnErr result (self.new ≡ self.old) }
    {
        self.maps.add(entities.into_vec())
    }

    /// Gives a cell that is there another value, and makes the parameters that it lists known with their
    /// method; all else stays. For want of memory the table stays as it was. Memory is taken for the parameters of
    /// the value that are not known yet, and for nothing else.
    ///
    /// The rules of programs hold afterwards.
    pub fn set(&mut self, cell: Cell, value: Value) -> Result<(), OutOfMemory>
        requires there { IsSome (map.get self.old.cells cell) }
        requires rules { IsProgram (with_value self.old cell value) }
        ensures ok { OnOk result (self.new ≡ with_value self.old cell value) }
        ensures err { OnErr result (self.new ≡ self.old) }
        ensures memory { ParamsKnown self.old.known (params_in (Some value)) → IsOk result }
    {
        self.maps.set(cell, value)
    }
}

/// Whether a list has the parameter.
fn is_among(id: &Id, params: &[Param]) -> bool
    ensures { result ≡ list_any (λ param. id_eq id.now param.id) params.now }
{
    params.iter().any(|param| *id == param.id)
}
