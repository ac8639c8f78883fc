//! Names that spell a class (JLS 6.5.2).
ghost use Rattle.std.specs.Prelude.{◌≡◌};
ghost use Rattle.jav_names.specs.Leftmost.{leftmost_class, Leftmost as Read};
ghost use Rattle.mol_base.specs.declared.ident.Id.{Id as Identity};
ghost use Rattle.mol_faults_names.specs.Kept.{kept_path, leftmost_of};
ghost use Rattle.mol_scope.specs.first_names.Readings.{IsRead};
ghost use Rattle.mol_resolve_rules.specs.ReadTrees.{path_by};

use crate::first::First;
use mol_base::Id;

/// Whether names spell a class.
#[derive(Clone, Copy)]
pub(crate) enum ClassPath {
    /// They spell this class.
    Whole(Id),
    /// They are the front of more names that spell one.
    Front,
    /// Neither.
    Neither,
}

/// Whether so many names spell a class, by what the leftmost of them and of those that follow reads as. It takes no memory.
pub(crate) fn spelled(first: &First<'_>, count: usize) -> ClassPath
    ensures { (read : Read Identity Identity) → IsRead (leftmost_of first.now) read → kept_path result ≡ path_by count read }
{
    match first {
        First::Variable(_) => ClassPath::Neither,
        First::Class(class, spelling) => class_spelled(class, *spelling, count),
        First::Imported(_) => ClassPath::Neither,
        First::Outside => ClassPath::Neither,
    }
}

/// Whether so many names spell a class that is spelled by so many.
fn class_spelled(class: &Id, spelling: usize, count: usize) -> ClassPath
    ensures { kept_path result ≡ path_by {M = Identity} count (leftmost_class class.now spelling) }
{
    if spelling == count {
        return ClassPath::Whole(*class);
    }
    if count < spelling {
        ClassPath::Front
    } else {
        ClassPath::Neither
    }
}
