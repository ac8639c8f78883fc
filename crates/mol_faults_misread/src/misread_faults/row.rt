//! Misread names as rows that can be sorted.
ghost use Rattle.std.specs.Prelude.{◌≡◌};
ghost use Rattle.mol_faults_rules.specs.Kept.{kept_fault, kept_target};
ghost use Rattle.mol_faults_misread.specs.misread_faults.Found.{fault_of, named_of};

use mol_base::{Id, Text};
use mol_faults_rules::{Fault, Target};
use mol_values_types::Cell;

/// A name in a cell that is misread: its number among those that print, from 0, and what it is the name of. The order is that of faults.
#[derive(PartialEq, Eq, PartialOrd, Ord, Drop)]
pub(crate) struct Row {
    pub at: Cell,
    pub number: u32,
    pub target: Named,
}

/// What a name is the name of, in the order in which faults have it.
#[derive(PartialEq, Eq, PartialOrd, Ord, Drop)]
pub(crate) enum Named {
    /// A class, a field, a method or a parameter.
    Entity(Id),
    /// The default constructor of a class.
    Default(Id),
    /// A local, by its number.
    Local(u32),
    /// What is outside, by its text.
    Outside(Text),
}

/// The target of a name, as rows have it.
pub(crate) fn in_row(target: Target) -> Named
    ensures { named_of result ≡ kept_target target }
{
    match target {
        Target::Entity(id) => Named::Entity(id),
        Target::Default(class) => Named::Default(class),
        Target::Local(number) => Named::Local(number),
        Target::Outside(text) => Named::Outside(text),
    }
}

/// A row as a fault. It takes no memory.
pub(crate) fn fault_of(row: Row) -> Fault
    ensures { kept_fault result ≡ fault_of row }
{
    let Row { at, number, target } = row;
    Fault::Misread(at, number, target_of(target))
}

/// The target of a fault.
fn target_of(named: Named) -> Target
    ensures { kept_target result ≡ named_of named }
{
    match named {
        Named::Entity(id) => Target::Entity(id),
        Named::Default(class) => Target::Default(class),
        Named::Local(number) => Target::Local(number),
        Named::Outside(text) => Target::Outside(text),
    }
}
