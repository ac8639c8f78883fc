//! The names that follow a value after dots.
ghost use Rattle.std.specs.Borrow.{Bor};
ghost use Rattle.std.specs.Prelude.{◌≡◌, ◌++◌, ◌∷◌, [], OnOk, map, reverse};
ghost use Rattle.jav_names.specs.DottedNames.{Name};
ghost use Rattle.mol_faults_expr.specs.Kept.{mode_of};
ghost use Rattle.mol_resolve_rules.specs.ReadTrees.{followers};

use crate::spelled::add_name;
use mol_base::{OutOfMemory, Text};
use std::alloc::Global;
use std::marker::Model;

/// The names that follow a value after dots, up to the next call. Contracts see them in the order in which they stand.
#[derive(Drop)]
pub(crate) struct Followers<'n> {
    /// The last of them first.
    names: Vec<&'n str>,
}

impl<'n> Model for Followers<'n> {
    ghost use Rattle.std.specs.Borrow.{Bor};
    ghost use Rattle.std.specs.Coded.{coded_list, coded_ℕ};
    ghost use Rattle.std.specs.Prelude.{map, reverse};
    ghost use Rattle.jav_names.specs.DottedNames.{Name, Names};

    ghost Value = { Names };

    ghost coded = { coded_list (coded_list coded_ℕ) };

    ghost view = { λ followers. map (λ (name : Bor Name). name.now) (reverse followers.names.items) };
}

impl<'n> Followers<'n> {
    /// None. It takes no memory.
    pub fn new(alloc: Global) -> Followers<'n>
        ensures { result ≡ [] }
    {
        Followers {
            names: Vec::new(alloc),
        }
    }

    /// One more, before the others.
    pub fn push_front(&mut self, name: &'n str) -> Result<(), OutOfMemory>
        ensures { OnOk result (self.new ≡ name.now ∷ self.old) }
    {
        self.names.push(name)?;
        Ok(())
    }

    /// Adds copies of them to other names.
    pub fn add_to(&self, alloc: Global, names: &mut Vec<Text>) -> Result<(), OutOfMemory>
        ensures { OnOk result (names.new.items ≡ names.old.items ++ self.now) }
    {
        add_last_first(alloc, names, self.names.as_slice())
    }
}

/// Adds copies of the names that follow a name; of none where it stands alone.
pub(crate) fn add_followers(
    alloc: Global,
    names: &mut Vec<Text>,
    mode: Option<&Followers<'_>>,
) -> Result<(), OutOfMemory>
    ensures { OnOk result (names.new.items ≡ names.old.items ++ followers (mode_of mode.entry)) }
{
    match mode {
        Some(follow) => follow.add_to(alloc, names),
        None => Ok(()),
    }
}

/// Adds copies of names that are kept, the last of them first.
fn add_last_first(alloc: Global, names: &mut Vec<Text>, kept: &[&str]) -> Result<(), OutOfMemory>
    ensures { OnOk result (names.new.items ≡ names.old.items ++ map (λ (name : Bor Name). name.now) (reverse kept.now)) }
{
    for name in kept.iter().rev() {
        add_name(alloc, names, name)?;
    }
    Ok(())
}
