//! The namesakes in a class.
ghost use Rattle.std.specs.Prelude.{◌≡◌, IfOk, option_copied};
ghost use Rattle.mol_resolve_classes.specs.namesakes.Compared.{AreInOrder, differences, differences_before, hides_static};
ghost use Rattle.mol_resolve_classes.specs.namesakes.Groups.{AreFound, group_in, grown};

use crate::namesakes::declaration::Declaration;
use crate::namesakes::differences::{Differences, alike};
use crate::namesakes::group::Group;
use mol_base::OutOfMemory;
use std::alloc::Global;
use std::collections::BTreeMap;
use std::marker::Model;

/// The methods of a class, or its constructors, to be asked for namesakes: those of a name that take as many parameters. Contracts see
/// these declarations.
#[derive(Drop)]
pub struct Namesakes<'a> {
    declared: Vec<Declaration<'a>>,
    groups: BTreeMap<(usize, &'a [u8]), Group<'a>>,
}

impl<'a> Model for Namesakes<'a> {
    ghost use Rattle.jav_names.specs.contracts.seen.seen_type.SeenType as seen;
    ghost use Rattle.std.specs.Coded.{codes};
    ghost use Rattle.std.specs.Prelude.{List};
    ghost use Rattle.mol_resolve_classes.specs.namesakes.Groups.{AreGrouped};
    ghost use Rattle.mol_resolve_classes.specs.declared.namesakes.declaration.Declaration.{Declaration};

    ghost Value = { List Declaration };

    ghost coded = { Prim.hlevel (codes, seen.the_row.coded) };

    ghost view = { λ namesakes. namesakes.declared.items };

    ghost invariant = { λ namesakes. AreGrouped namesakes.declared.items namesakes.groups };
}

impl<'a> Namesakes<'a> {
    /// The namesakes among these declarations, which are in the order in which they stand in the class. The time is near-linear.
    /// `Err` is want of memory.
    pub fn new(alloc: Global, declared: Vec<Declaration<'a>>) -> Result<Namesakes<'a>, OutOfMemory>
        requires { AreInOrder declared.items }
        ensures { IfOk result (λ namesakes. namesakes ≡ declared.entry.items) }
    {
        let groups = groups_of(alloc, declared.as_slice())?;
        Ok(Namesakes { declared, groups })
    }

    /// Whether the namesakes here of a declaration of this or of another class differ from it. It takes no memory, and the time is
    /// logarithmic in the number of declarations.
    pub fn differences(&self, declaration: &Declaration<'a>) -> Differences
        ensures { result ≡ differences declaration.now self.now }
    {
        match self.group(declaration) {
            Some(group) => group.differences(declaration),
            None => alike(),
        }
    }

    /// Whether those of its namesakes differ from a declaration of this class that stand before it. It takes no memory, and as much time as
    /// `differences`.
    pub fn differences_before(&self, declaration: &Declaration<'a>) -> Differences
        ensures { result ≡ differences_before declaration.now self.now }
    {
        match self.group(declaration) {
            Some(group) => group.differences_before(declaration),
            None => alike(),
        }
    }

    /// Whether a declaration of another class has a namesake here, and one of the two is static. It takes no memory, and as much time as
    /// `differences`.
    pub fn hides_static(&self, declaration: &Declaration<'a>) -> bool
        ensures { result ≡ hides_static declaration.now self.now }
    {
        match self.group(declaration) {
            Some(group) => group.has_static_beside(declaration),
            None => false,
        }
    }

    /// The group of the namesakes of a declaration.
    fn group(&self, declaration: &Declaration<'a>) -> Option<&Group<'a>>
        ensures found { option_copied result ≡ group_in declaration.now self.now }
        ensures ordered { AreInOrder self.now }
    {
        let key = (declaration.params.len(), declaration.name);
        self.groups.get(&key)
    }
}

/// The groups of declarations by the numbers of their parameters and by their names.
fn groups_of<'a>(
    alloc: Global,
    declared: &[Declaration<'a>],
) -> Result<BTreeMap<(usize, &'a [u8]), Group<'a>>, OutOfMemory>
    ensures { IfOk result (λ groups. AreFound declared.now groups) }
{
    let mut groups: BTreeMap<(usize, &'a [u8]), Group<'a>> = BTreeMap::new(alloc);
    for declaration in declared {
        let key = (declaration.params.len(), declaration.name);
        let group = grown(groups.get(&key), declaration);
        groups.insert(key, group)?;
    }
    Ok(groups)
}

/// A group with one more declaration, which stands after the others; or a group of that alone.
fn grown<'a>(group: Option<&Group<'a>>, next: &Declaration<'a>) -> Group<'a>
    ensures { result ≡ grown (option_copied group.entry) next.now }
{
    match group {
        Some(group) => group.with(next),
        None => Group::of(next),
    }
}
