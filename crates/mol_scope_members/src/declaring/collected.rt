//! The members of a table, collected in one walk over its identities.
ghost use Rattle.std.specs.Prelude.{◌≡◌, [], IfOk, OnOk, Some, None};
ghost use Rattle.std.specs.FinMap as map;
ghost use Rattle.mol_resolve_rules.specs.ProgramViews.{declaration_of, field_of};
ghost use Rattle.mol_values_types.specs.declared.known.Known.TheVariants as knowns;
ghost use Rattle.mol_scope_members.specs.declaring.Collecting.{Adds, AddsKnown, AreCollected};
ghost use Rattle.mol_scope_members.specs.declaring.MemberEntries.{declaring_entry};

use crate::declaring::entries::{named_entry, nameless_entry};
use crate::declaring::living::{LivingDeclaration, living_owner};
use crate::declaring::owner::Owner;
use crate::declaring::owners::add_owner;
use jav_names::id_index::Entry;
use mol_base::{Id, OutOfMemory};
use mol_scope_classes::{is_constructor, name_of, params_of};
use mol_table::Table;
use mol_values_types::Known;
use std::alloc::Global;

/// Entries for the indexes of members, and the classes that declare them.
#[derive(Drop)]
pub(crate) struct Collected<'a> {
    /// Fields by class and name.
    pub fields: Vec<Entry>,
    /// Methods by class, number of parameters and name.
    pub methods: Vec<Entry>,
    /// Constructors by class and number of parameters.
    pub constructors: Vec<Entry>,
    /// Constructors by class alone.
    pub constructed: Vec<Entry>,
    /// Declarations by their method, whether or not they live.
    pub declared: Vec<Entry>,
    /// The classes of fields.
    pub field_owners: Vec<Owner<'a>>,
    /// The classes of methods.
    pub method_owners: Vec<Owner<'a>>,
}

impl<'a> Collected<'a> {
    /// The members of a table that live, in the order of their identities.
    pub(crate) fn of(alloc: Global, table: &'a Table) -> Result<Collected<'a>, OutOfMemory>
        ensures { IfOk result (λ collected. AreCollected collected table.now) }
    {
        let mut collected = Collected::new(alloc);
        for id in table.ids() {
            collected.add(alloc, table, id)?;
        }
        Ok(collected)
    }

    /// No members.
    fn new(alloc: Global) -> Collected<'a>
        ensures fields { result.fields.items ≡ [] }
        ensures methods { result.methods.items ≡ [] }
        ensures constructors { result.constructors.items ≡ [] }
        ensures constructed { result.constructed.items ≡ [] }
        ensures declared { result.declared.items ≡ [] }
        ensures field_owners { result.field_owners.items ≡ [] }
        ensures method_owners { result.method_owners.items ≡ [] }
    {
        Collected {
            fields: Vec::new(alloc),
            methods: Vec::new(alloc),
            constructors: Vec::new(alloc),
            constructed: Vec::new(alloc),
            declared: Vec::new(alloc),
            field_owners: Vec::new(alloc),
            method_owners: Vec::new(alloc),
        }
    }

    /// Adds a field or a declaration, if this is one.
    fn add(&mut self, alloc: Global, table: &'a Table, id: &Id) -> Result<(), OutOfMemory>
        ensures { OnOk result (AddsKnown self.old self.new table.now id.now (map.get table.now.known id.now)) }
    {
        match table.known(*id) {
            Some(known) => self.add_known(alloc, table, id, known),
            None => Ok(()),
        }
    }

    /// Adds what is known so, if it is a field or a declaration.
    fn add_known(
        &mut self,
        alloc: Global,
        table: &'a Table,
        id: &Id,
        known: Known,
    ) -> Result<(), OutOfMemory>
        ensures { OnOk result (AddsKnown self.old self.new table.now id.now (Some known)) }
    {
        match known {
            Known::Field => self.add_field(alloc, table, id),
            Known::Decl(method) => self.add_declaration(alloc, table, id, &method),
            Known::Class => Ok(()),
            Known::Method(_) => Ok(()),
            Known::Param(_) => Ok(()),
        }
    }

    /// Adds a field, if it lives.
    fn add_field(&mut self, alloc: Global, table: &'a Table, id: &Id) -> Result<(), OutOfMemory>
        ensures { OnOk result (AddsKnown self.old self.new table.now id.now (Some knowns.Field)) }
    {
        match living_owner(table, id) {
            Some(owner) => self.add_living_field(alloc, table, id, &owner),
            None => Ok(()),
        }
    }

    /// Adds a field of this class.
    fn add_living_field(
        &mut self,
        alloc: Global,
        table: &'a Table,
        id: &Id,
        owner: &Id,
    ) -> Result<(), OutOfMemory>
        ensures { OnOk result (Adds self.old self.new (Some (field_of table.now id.now owner.now)) None None) }
    {
        let name = name_of(table, id);
        let entry = named_entry(alloc, owner, 0, name, id)?;
        self.fields.push(entry)?;
        add_owner(&mut self.field_owners, 0, name, owner)
    }

    /// Adds a declaration by its method, and, if it lives, by its class too.
    fn add_declaration(
        &mut self,
        alloc: Global,
        table: &'a Table,
        id: &Id,
        method: &Id,
    ) -> Result<(), OutOfMemory>
        ensures { OnOk result (AddsKnown self.old self.new table.now id.now (Some (knowns.Decl method.now))) }
    {
        self.add_by_method(alloc, id, method)?;
        match living_owner(table, id) {
            Some(owner) => {
                let declared = LivingDeclaration {
                    method: *method,
                    owner,
                };
                self.add_living(alloc, table, id, &declared)
            },
            None => Ok(()),
        }
    }

    /// Adds a declaration by its method.
    fn add_by_method(&mut self, alloc: Global, id: &Id, method: &Id) -> Result<(), OutOfMemory>
        ensures { OnOk result (Adds self.old self.new None None (declaring_entry (id.now, knowns.Decl method.now))) }
    {
        self.declared.push(nameless_entry(alloc, method, 0, id))?;
        Ok(())
    }

    /// Adds a declaration by its class.
    fn add_living(
        &mut self,
        alloc: Global,
        table: &'a Table,
        id: &Id,
        declared: &LivingDeclaration,
    ) -> Result<(), OutOfMemory>
        ensures { OnOk result (Adds self.old self.new None
            (Some (declaration_of table.now id.now declared.now.method declared.now.owner)) None) }
    {
        let arity = params_of(table, &declared.method).len();
        if is_constructor(table, &declared.method) {
            self.constructors
                .push(nameless_entry(alloc, &declared.owner, arity, id))?;
            self.constructed
                .push(nameless_entry(alloc, &declared.owner, 0, id))?;
            Ok(())
        } else {
            let name = name_of(table, &declared.method);
            let entry = named_entry(alloc, &declared.owner, arity, name, id)?;
            self.methods.push(entry)?;
            add_owner(&mut self.method_owners, arity, name, &declared.owner)
        }
    }
}
