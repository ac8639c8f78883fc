//! Mentions that are gathered.
ghost use Rattle.std.specs.Prelude.{◌≡◌, ◌++◌, [], OnOk, map};
ghost use Rattle.mol_faults_mentions.specs.mentions.Kept.{kept_mention, kept_role};
ghost use Rattle.mol_table_rules.specs.Mentions.{named};

use crate::mentions::mention::{Mention, Role};
use mol_base::{Id, OutOfMemory};
use std::alloc::Global;
use std::marker::Model;

/// What is mentioned, as often and in the order in which it is.
#[derive(Drop)]
pub struct Mentions {
    items: Vec<Mention>,
}

impl Model for Mentions {
    ghost use Rattle.mol_faults_mentions.specs.mentions.Kept.{kept_mention};
    ghost use Rattle.mol_table_rules.specs.Mentions.{Mention as Mentioned};
    ghost use Rattle.std.specs.Prelude.{List, map};

    ghost Value = { List Mentioned };

    ghost view = { λ mentions. map kept_mention mentions.items.items };
}

impl Mentions {
    /// Nothing is mentioned. It takes no memory.
    pub(crate) fn new(alloc: Global) -> Mentions
        ensures { result ≡ [] }
    {
        Mentions {
            items: Vec::new(alloc),
        }
    }

    /// The mentions, in order. It takes no memory.
    pub fn items(&self) -> &[Mention]
        ensures { map kept_mention result.now ≡ self.now }
    {
        self.items.as_slice()
    }

    /// Adds a mention. `Err` is want of memory.
    pub(crate) fn add(&mut self, role: Role, id: &Id) -> Result<(), OutOfMemory>
        ensures { OnOk result (self.new ≡ self.old ++ named (kept_role role) id.now) }
    {
        self.items.push(Mention { role, id: *id })?;
        Ok(())
    }
}
