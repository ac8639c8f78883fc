//! How members stand in an index.
ghost use Rattle.std.specs.Prelude.{◌≡◌, ◌++◌, ◌∷◌, [], IfOk, OnOk, ℕ};
ghost use Rattle.jav_tree.specs.declared.unit.Unit.{Unit};
ghost use Rattle.jav_names.specs.UnitViews.{fields_of, declarations_of};
ghost use Rattle.jav_names.specs.Views.{Classes};
ghost use Rattle.jav_scope.specs.Entries.{view_in};
ghost use Rattle.jav_scope.specs.MemberLists.{AreListed, AreAdded, IsAdded, place_entry};

use crate::found::MemberRef;
use crate::source::SourceUnit;
use jav_names::index::Entry;
use jav_tree::Member;
use mol_base::{OutOfMemory, Text, number_of};
use std::alloc::Global;

/// The fields by class and name, the methods by class, name and number of parameters, the constructors by class and number of
/// parameters, and by class alone.
#[derive(Drop)]
pub(crate) struct MemberEntries {
    pub fields: Vec<Entry>,
    pub methods: Vec<Entry>,
    pub constructors: Vec<Entry>,
    pub constructed: Vec<Entry>,
}

impl MemberEntries {
    /// The members of all files.
    pub fn of(alloc: Global, sources: &[SourceUnit]) -> Result<MemberEntries, OutOfMemory>
        ensures { IfOk result (λ entries. AreListed entries (view_in sources.now).fields (view_in sources.now).declarations) }
    {
        let mut entries = MemberEntries {
            fields: Vec::new(alloc),
            methods: Vec::new(alloc),
            constructors: Vec::new(alloc),
            constructed: Vec::new(alloc),
        };
        for (place, source) in sources.iter().enumerate() {
            let number = number_of(place)?;
            let members = source.unit.class.members.items();
            entries.add_all(alloc, number, members)?;
        }
        Ok(entries)
    }

    /// Adds the members of the class of the file of this number.
    fn add_all(&mut self, alloc: Global, unit: u32, members: &[Member]) -> Result<(), OutOfMemory>
        ensures { OnOk result ((classes : Classes ℕ) (source : Unit) → source.class.members ≡ members.now
            → AreAdded self.old self.new (fields_of classes (unit, source)) (declarations_of classes (unit, source))) }
    {
        for (place, member) in members.iter().enumerate() {
            let number = number_of(place)?;
            let member_ref = MemberRef {
                unit,
                member: number,
            };
            self.add(alloc, member_ref, member)?;
        }
        Ok(())
    }

    /// Adds the member that stands at this place.
    fn add(&mut self, alloc: Global, place: MemberRef, member: &Member) -> Result<(), OutOfMemory>
        ensures { OnOk result (IsAdded self.old self.new place member.now) }
    {
        match member {
            Member::Field(field) => self.add_field(alloc, place, &field.name),
            Member::Method(method) => {
                self.add_method(alloc, place, method.params.items().len(), &method.name)
            },
            Member::Ctor(ctor) => self.add_constructor(alloc, place, ctor.params.items().len()),
        }
    }

    fn add_field(&mut self, alloc: Global, place: MemberRef, name: &Text) -> Result<(), OutOfMemory>
        ensures added { OnOk result (self.new.fields.items ≡ self.old.fields.items ++ place_entry place 0 name.now ∷ []) }
        ensures methods { OnOk result (self.new.methods.items ≡ self.old.methods.items) }
        ensures constructors { OnOk result (self.new.constructors.items ≡ self.old.constructors.items) }
        ensures constructed { OnOk result (self.new.constructed.items ≡ self.old.constructed.items) }
    {
        let entry = entry(place, 0, name.copy(alloc)?);
        self.fields.push(entry)?;
        Ok(())
    }

    fn add_method(
        &mut self,
        alloc: Global,
        place: MemberRef,
        arity: usize,
        name: &Text,
    ) -> Result<(), OutOfMemory>
        ensures fields { OnOk result (self.new.fields.items ≡ self.old.fields.items) }
        ensures added { OnOk result (self.new.methods.items ≡ self.old.methods.items ++ place_entry place arity name.now ∷ []) }
        ensures constructors { OnOk result (self.new.constructors.items ≡ self.old.constructors.items) }
        ensures constructed { OnOk result (self.new.constructed.items ≡ self.old.constructed.items) }
    {
        let entry = entry(place, arity, name.copy(alloc)?);
        self.methods.push(entry)?;
        Ok(())
    }

    fn add_constructor(
        &mut self,
        alloc: Global,
        place: MemberRef,
        arity: usize,
    ) -> Result<(), OutOfMemory>
        ensures fields { OnOk result (self.new.fields.items ≡ self.old.fields.items) }
        ensures methods { OnOk result (self.new.methods.items ≡ self.old.methods.items) }
        ensures added { OnOk result (self.new.constructors.items ≡ self.old.constructors.items ++ place_entry place arity [] ∷ []) }
        ensures constructed { OnOk result (self.new.constructed.items ≡ self.old.constructed.items ++ place_entry place 0 [] ∷ []) }
    {
        let by_arity = entry(place, arity, Text::empty(alloc));
        self.constructors.push(by_arity)?;
        let by_class = entry(place, 0, Text::empty(alloc));
        self.constructed.push(by_class)?;
        Ok(())
    }
}

fn entry(place: MemberRef, arity: usize, name: Text) -> Entry
    ensures { result ≡ place_entry place arity name }
{
    Entry {
        owner: place.unit,
        arity,
        name,
        place: place.member,
    }
}
