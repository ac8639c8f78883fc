//! Names that read as something else than what they are the names of.
ghost use Rattle.std.specs.Prelude.{◌≡◌, ◌++◌, ◌∷◌, suc, [], OnOk, map, option_map};
ghost use Rattle.mol_faults_expr.specs.Kept.{kept_misread};
ghost use Rattle.mol_faults_expr.specs.Noted.{none_noted};
ghost use Rattle.mol_faults_rules.specs.Kept.{kept_target};
ghost use Rattle.mol_faults_rules.specs.Met.{kept_met};

use mol_base::OutOfMemory;
use mol_faults_rules::{Met, Target};
use std::alloc::Global;
use std::marker::Model;

/// A name that reads as something else than what it is the name of.
#[derive(Drop)]
pub struct Misread {
    /// Its number among those that print, from 0.
    pub number: u32,
    /// What it is the name of.
    pub target: Target,
    /// The same, if it is of the program and no local.
    pub named: Option<Met>,
    /// What it reads as instead, if that is of the program and no local: of several names the class that they spell or whose full
    /// name they begin, or else what the last of them is the name of.
    pub instead: Option<Met>,
}

/// The names that were read, in the order in which they print: how many there are, and which of them read as something else than what
/// they are the names of.
#[derive(Drop)]
pub struct Misreads {
    count: u32,
    items: Vec<Misread>,
}

impl Model for Misreads {
    ghost use Rattle.mol_faults_expr.specs.Kept.{kept_misread};
    ghost use Rattle.mol_faults_expr.specs.Noted.{Noted};
    ghost use Rattle.std.specs.Prelude.{map};

    ghost Value = { Noted };

    ghost view = { λ misreads. record { count = misreads.count; misread = map kept_misread misreads.items.items } };
}

impl Misreads {
    /// No name was read. It takes no memory.
    pub fn new(alloc: Global) -> Misreads
        ensures { result ≡ none_noted }
    {
        Misreads {
            count: 0,
            items: Vec::new(alloc),
        }
    }

    /// Those that read as something else, in order. It takes no memory.
    pub fn into_items(self) -> Vec<Misread>
        ensures { map kept_misread result.items ≡ self.misread }
    {
        let Misreads { count: _, items } = self;
        items
    }

    /// One more name was read, of which there is nothing to say.
    pub(crate) fn add_read(&mut self) -> Result<(), OutOfMemory>
        ensures { OnOk result (self.new ≡ record self.old { count = suc self.old.count }) }
    {
        self.count = self.count.checked_add(1).ok_or(OutOfMemory)?;
        Ok(())
    }

    /// One more name was read, as something else than this target, and as this of the program instead.
    pub(crate) fn add_misread(
        &mut self,
        target: Target,
        named: Option<Met>,
        instead: Option<Met>,
    ) -> Result<(), OutOfMemory>
        ensures { OnOk result (self.new ≡ record self.old {
          count = suc self.old.count;
          misread = self.old.misread ++ record {
            number = self.old.count;
            target = kept_target target;
            named = option_map kept_met named;
            instead = option_map kept_met instead;
          } ∷ [];
        }) }
    {
        let number = self.count;
        self.items.push(Misread {
            number,
            target,
            named,
            instead,
        })?;
        self.add_read()
    }
}
