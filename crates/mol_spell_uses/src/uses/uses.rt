//! What several names use.
ghost use Rattle.std.specs.Prelude.{◌≡◌, ◌++◌, ◌∷◌, [], OnOk, map};
ghost use Rattle.mol_spell_rules.specs.Writers.{importable_use, outside_import, program_class, written_use};
ghost use Rattle.mol_spell_uses.specs.uses.Kept.{kept_use};

use crate::uses::used::Use;
use mol_base::{Id, OutOfMemory, Text};
use std::alloc::Global;
use std::marker::Model;

/// What names use, in the order in which they are printed.
#[derive(Drop)]
pub struct Uses {
    alloc: Global,
    items: Vec<Use>,
}

impl Model for Uses {
    ghost use Rattle.mol_spell_rules.specs.Writers.{Use as Used};
    ghost use Rattle.mol_spell_uses.specs.uses.Kept.{kept_use};
    ghost use Rattle.std.specs.Prelude.{List, map};

    ghost Value = { List Used };

    ghost view = { λ uses. map kept_use uses.items.items };
}

impl Uses {
    /// Nothing is used. It takes no memory.
    pub fn new(alloc: Global) -> Uses
        ensures { result ≡ [] }
    {
        Uses {
            alloc,
            items: Vec::new(alloc),
        }
    }

    /// What is used, in that order. It takes no memory.
    pub fn items(&self) -> &[Use]
        ensures { map kept_use result.now ≡ self.now }
    {
        self.items.as_slice()
    }

    /// A class is used, whose simple name is hidden there or not.
    pub fn add_class(&mut self, class: Id, hidden: bool) -> Result<(), OutOfMemory>
        ensures { OnOk result (self.new ≡ self.old ++ importable_use (program_class class) hidden ∷ []) }
    {
        self.items.push(Use::Class(class, hidden))?;
        Ok(())
    }

    /// An imported type is used, by its full name, whose simple name is hidden there or not.
    pub fn add_import(&mut self, full: &Text, hidden: bool) -> Result<(), OutOfMemory>
        ensures { OnOk result (self.new ≡ self.old ++ importable_use (outside_import full.now) hidden ∷ []) }
    {
        let full = full.copy(self.alloc)?;
        self.items.push(Use::Import(full, hidden))?;
        Ok(())
    }

    /// A name is used as it is written.
    pub fn add_written(&mut self, text: &Text) -> Result<(), OutOfMemory>
        ensures { OnOk result (self.new ≡ self.old ++ written_use text.now ∷ []) }
    {
        let text = text.copy(self.alloc)?;
        self.items.push(Use::Written(text))?;
        Ok(())
    }
}
