//! The classes that declare members, in an order that tells which is met next going up.
ghost use Rattle.std.specs.Prelude.{◌≡◌, ◌↔◌, ◌++◌, ◌∷◌, [], Contains, IfOk, IsTrue, OnOk, map};
ghost use Rattle.std.specs.List.Sorted.{IsSorted};
ghost use Rattle.mol_scope_classes.specs.hierarchy.Paths.{ArePaths};
ghost use Rattle.mol_table_rules.specs.Program.{Program};
ghost use Rattle.mol_scope_members.specs.declaring.Owners.{AreOwners, ArePlaced, IsNamed, IsNearest, place_cmp, placed_row, row_of, with_position};

use crate::declaring::nearest::Nearest;
use crate::declaring::owner::{Owner, PlacedOwner};
use mol_base::{Id, OutOfMemory};
use mol_scope_classes::Paths;
use std::alloc::Global;

/// Classes that declare fields or methods, by number of parameters, name and position.
#[derive(Drop)]
pub(crate) struct Owners<'a> {
    pub placed: Vec<PlacedOwner<'a>>,
}

impl<'a> Owners<'a> {
    /// These classes, with their positions.
    pub(crate) fn new(
        alloc: Global,
        paths: &Paths,
        owners: &[Owner<'a>],
    ) -> Result<Owners<'a>, OutOfMemory>
        ensures { IfOk result (λ found. AreOwners paths.now.positions.entries (map row_of owners.now) found.placed.items) }
    {
        let mut placed = placed(alloc, paths, owners)?;
        placed.sort_by(|former, latter| former.compare(latter))?;
        Ok(Owners { placed })
    }

    /// Where to look next for a member of this name and number of parameters, from a class up. It takes no memory, and the time is
    /// logarithmic in the number of members.
    pub(crate) fn nearest(&self, paths: &Paths, class: &Id, arity: usize, name: &str) -> Nearest
        requires { ArePlaced paths.now.positions.entries self.now.placed.items }
        ensures { (program : Program) → ArePaths program paths.now.positions.entries
            → IsNearest program (λ above. Contains (map placed_row self.now.placed.items) (record { arity = arity; name = name.now; class = above })
            → ⊥) class.now result }
    {
        let sought = PlacedOwner {
            arity,
            name: name.as_bytes(),
            class: *class,
            position: paths.position(class),
        };
        let placed = self.placed.as_slice();
        let count = placed.partition_point(|owner| owner.compare(&sought).is_le());
        match placed[..count].last() {
            Some(owner) if owner.compare_path(&sought).is_eq() => Nearest {
                class: owner.class,
                steps: sought.position.depth - owner.position.depth,
            },
            _ => Nearest {
                class: sought.position.top,
                steps: sought.position.depth,
            },
        }
    }

    /// Whether a member has this number of parameters and this name. It takes no memory, and the time is logarithmic in the number of
    /// members.
    pub(crate) fn is_named(&self, arity: usize, name: &str) -> bool
        requires { IsSorted place_cmp self.now.placed.items }
        ensures { IsTrue result ↔ IsNamed self.now.placed.items (record { arity = arity; name = name.now }) }
    {
        let placed = self.placed.as_slice();
        let bytes = name.as_bytes();
        let start = placed.partition_point(|owner| owner.compare_naming(arity, bytes).is_lt());
        match placed.get(start) {
            Some(owner) => owner.compare_naming(arity, bytes).is_eq(),
            None => false,
        }
    }
}

/// Each with the position of its class.
fn placed<'a>(
    alloc: Global,
    paths: &Paths,
    owners: &[Owner<'a>],
) -> Result<Vec<PlacedOwner<'a>>, OutOfMemory>
    ensures { IfOk result (λ placed. placed.items ≡ map (with_position paths.now.positions.entries) owners.now) }
{
    let mut placed = Vec::new(alloc);
    for owner in owners {
        let with_position = PlacedOwner {
            arity: owner.arity,
            name: owner.name,
            class: owner.class,
            position: paths.position(&owner.class),
        };
        if placed.push(with_position).is_err() {
            return Err(OutOfMemory);
        }
    }
    Ok(placed)
}

/// Adds a class that declares a member of this name.
pub(crate) fn add_owner<'a>(
    owners: &mut Vec<Owner<'a>>,
    arity: usize,
    name: &'a str,
    class: &Id,
) -> Result<(), OutOfMemory>
    ensures { OnOk result (map row_of owners.new.items
        ≡ map row_of owners.old.items ++ record { arity = arity; name = name.now; class = class.now } ∷ []) }
{
    let owner = Owner {
        arity,
        name: name.as_bytes(),
        class: *class,
    };
    if owners.push(owner).is_err() {
        return Err(OutOfMemory);
    }
    Ok(())
}
