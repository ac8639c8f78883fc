//! Misread names.
ghost use Rattle.std.specs.Prelude.{◌≡◌, ◌==◌, ◌&&◌, ◌↔◌, Contains, IfOk, map};
ghost use Rattle.mol_faults_rules.specs.Kept.{kept_target};
ghost use Rattle.mol_faults_misread.specs.misread_faults.Found.{Found, IsMisread, is_name, kept_name, same_target};
ghost use Rattle.mol_spell_rules.specs.FaultList.{default_of, entity, local_of, outside_of};
ghost use Rattle.mol_table_rules.specs.Program.{same_id};

use crate::misread_faults::files::names_in;
use mol_base::{Id, OutOfMemory, Text};
use mol_faults_expr::Misread;
use mol_faults_rules::Target;
use mol_spell_names::ProgramIndex;
use mol_values_types::Cell;
use std::alloc::Global;

/// A name in a cell that reads as something else than what it is the name of, in the file of a class.
#[derive(Drop)]
pub struct MisreadName {
    pub at: Cell,
    pub misread: Misread,
}

impl MisreadName {
    /// Whether this is the name of a number in a cell, with this target. It takes no memory.
    pub fn is(&self, at: &Cell, number: u32, target: &Target) -> bool
        ensures { result ≡ is_name at.now number (kept_target target.now) (kept_name self.now) }
    {
        at == &self.at && self.is_numbered(number, target)
    }

    /// Whether this is the name of a number, with this target.
    fn is_numbered(&self, number: u32, target: &Target) -> bool
        ensures { result ≡ ((number == self.now.misread.number)
            && same_target (kept_target target.now) (kept_target self.now.misread.target)) }
    {
        number == self.misread.number && same_target(target, &self.misread.target)
    }
}

/// Whether two names are those of one thing.
fn same_target(first: &Target, second: &Target) -> bool
    ensures { result ≡ same_target (kept_target first.now) (kept_target second.now) }
{
    match first {
        Target::Entity(id) => is_entity(second, id),
        Target::Default(class) => is_default(second, class),
        Target::Local(number) => is_local(second, *number),
        Target::Outside(text) => is_outside(second, text),
    }
}

/// Whether a name is that of this entity.
fn is_entity(target: &Target, id: &Id) -> bool
    ensures { result ≡ same_target (entity id.now) (kept_target target.now) }
{
    match target {
        Target::Entity(own) => same_id(id, own),
        _ => false,
    }
}

/// Whether a name is that of the default constructor of this class.
fn is_default(target: &Target, class: &Id) -> bool
    ensures { result ≡ same_target (default_of class.now) (kept_target target.now) }
{
    match target {
        Target::Default(own) => same_id(class, own),
        _ => false,
    }
}

/// Whether a name is that of the local of this number.
fn is_local(target: &Target, number: u32) -> bool
    ensures { result ≡ same_target (local_of number) (kept_target target.now) }
{
    match target {
        Target::Local(own) => number == *own,
        _ => false,
    }
}

/// Whether a name is that of something outside of this text.
fn is_outside(target: &Target, text: &Text) -> bool
    ensures { result ≡ same_target (outside_of text.now) (kept_target target.now) }
{
    match target {
        Target::Outside(own) => text.as_str() == own.as_str(),
        _ => false,
    }
}

/// Whether two identities are the same.
fn same_id(first: &Id, second: &Id) -> bool
    ensures { result ≡ same_id first.now second.now }
{
    first == second
}

/// The names in the files of a program that read as something else than what they are the names of, or as nothing (JLS 6.5), each time
/// that they do, in no order: a name in the result or the parameters of a method prints once for each declaration that lives, and may
/// read as another thing in each of these files. The table is that of the program once it is tidied, as it is printed. A name of what
/// does not live is none of them. The time is near-linear in the size of what is printed, but for what names cost. `Err` is want of
/// memory.
pub fn misread_names(
    alloc: Global,
    tidied: &ProgramIndex<'_>,
) -> Result<Vec<MisreadName>, OutOfMemory>
    ensures { IfOk result (λ names. (found : Found) → Contains (map kept_name names.items) found ↔ IsMisread tidied.now found) }
{
    names_in(alloc, tidied, tidied.table().ids())
}
