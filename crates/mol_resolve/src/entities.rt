//! The entities of source files, in the order in which they are numbered.
ghost use Rattle.std.specs.Prelude.{◌≡◌, ◌∷◌, ◌++◌, [], IfOk, OnOk, option_map};
ghost use Rattle.std.specs.Option.{option_and_then, option_to_list};

use mol_base::{List, OutOfMemory};
use mol_resolve_entities::MemberEntities;
use mol_table_rules::NewEntity;
use std::alloc::Global;

/// The entities of files that were read: their classes, their members, and the methods whose topmost declarations these are, each in the
/// order of numbers.
#[derive(Drop)]
pub(crate) struct Entities {
    pub classes: Vec<NewEntity>,
    pub members: Vec<NewEntity>,
    pub methods: Vec<NewEntity>,
}

impl Entities {
    /// None.
    pub fn new(alloc: Global) -> Entities
        ensures classes { result.classes.items ≡ [] }
        ensures members { result.members.items ≡ [] }
        ensures methods { result.methods.items ≡ [] }
    {
        Entities {
            classes: Vec::new(alloc),
            members: Vec::new(alloc),
            methods: Vec::new(alloc),
        }
    }

    /// One more class.
    pub fn add_class(&mut self, class: NewEntity) -> Result<(), OutOfMemory>
        ensures classes { OnOk result (self.new.classes.items ≡ self.old.classes.items ++ class ∷ []) }
        ensures members { self.new.members ≡ self.old.members }
        ensures methods { self.new.methods ≡ self.old.methods }
    {
        self.classes.push(class)?;
        Ok(())
    }

    /// One more member, if one was made, with the method that was made for it.
    pub fn add_member(&mut self, made: Option<MemberEntities>) -> Result<(), OutOfMemory>
        ensures classes { self.new.classes ≡ self.old.classes }
        ensures members { OnOk result (self.new.members.items
            ≡ self.old.members.items ++ option_to_list (option_map (λ made. made.member) made)) }
        ensures methods { OnOk result (self.new.methods.items
            ≡ self.old.methods.items ++ option_to_list (option_and_then (λ made. made.method) made)) }
    {
        let Some(made) = made else {
            return Ok(());
        };
        self.members.push(made.member)?;
        self.add_method(made.method)
    }

    /// One more method, if one was made.
    fn add_method(&mut self, method: Option<NewEntity>) -> Result<(), OutOfMemory>
        ensures classes { self.new.classes ≡ self.old.classes }
        ensures members { self.new.members ≡ self.old.members }
        ensures methods { OnOk result (self.new.methods.items ≡ self.old.methods.items ++ option_to_list method) }
    {
        if let Some(method) = method {
            self.methods.push(method)?;
        }
        Ok(())
    }

    /// All, in the order of numbers: the classes, the members, the methods.
    pub fn in_order(self) -> Result<List<NewEntity>, OutOfMemory>
        ensures { IfOk result (λ list. list ≡ self.classes.items ++ self.members.items ++ self.methods.items) }
    {
        let Entities {
            classes: mut all,
            mut members,
            mut methods,
        } = self;
        all.append(&mut members)?;
        all.append(&mut methods)?;
        Ok(List::from_vec(all))
    }
}
