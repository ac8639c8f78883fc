//! What has its simple name in a file.
ghost use Rattle.std.specs.Prelude.{map};
ghost use Rattle.mol_spell_names.specs.simple_names.Bearers.{AreBearers};
ghost use Rattle.mol_spell_uses.specs.uses.Kept.{kept_use};

use crate::simple_names::bearers::{bearer_at, bearers_of};
use crate::simple_names::importables::{is_same, simple_name_of};
use indexmap::IndexMap;
use jav_names::Spelling;
use mol_base::{Id, OutOfMemory};
use mol_scope_classes::{ClassIndex, name_of, package_of};
use mol_spell_expr::Importable;
use mol_spell_uses::Use;
use std::alloc::Global;

/// What has its simple name in the source file of a class, which need not live. Contracts see the program, the class, and what the file
/// uses.
#[derive(Drop)]
pub struct SimpleNames<'a> {
    pub(crate) classes: &'a ClassIndex<'a>,
    pub(crate) class: Id,
    pub(crate) uses: &'a [Use],
    /// What each simple name among the uses may stand for, if no class is near by.
    pub(crate) bearers: IndexMap<&'a str, Option<Importable<'a>>>,
    ghost are_bearers: { AreBearers classes.now (map kept_use uses.now) bearers.entries },
}

impl<'a> SimpleNames<'a> {
    ghost use Rattle.std.specs.Prelude.{◌≡◌, IfOk};
    ghost use Rattle.mol_spell_names.specs.simple_names.Bearers.{bearer_at, may_be};
    ghost use Rattle.mol_spell_names.specs.simple_names.Named.{simple_in_file};
    ghost use Rattle.mol_spell_rules.specs.SimpleNames.{near_class};
    ghost use Rattle.mol_spell_expr.specs.Importables.{importable_of};

    /// The simple names in the file of a class that uses these. The time is linear in the number of uses, but for their look-ups in the
    /// table. `Err` is want of memory.
    pub fn new(
        alloc: Global,
        classes: &'a ClassIndex<'a>,
        class: Id,
        uses: &'a [Use],
    ) -> Result<SimpleNames<'a>, OutOfMemory>
        ensures { IfOk result (λ names. (names.classes.now ≡ classes.now) × (names.class ≡ class) × (names.uses.now ≡ uses.now)) }
    {
        let bearers = bearers_of(alloc, classes.table(), uses)?;
        Ok(SimpleNames {
            classes,
            class,
            uses,
            bearers,
        })
    }

    /// Whether a class or an imported type has its simple name in the file: it is a class near by, or all that uses the name is this. It
    /// takes no memory. The time is logarithmic in the number of classes, however many uses there are.
    pub fn is_simple(&self, what: Importable<'_>) -> bool
        ensures { result ≡ simple_in_file self.now (importable_of what.entry) }
    {
        let name = simple_name_of(self.classes.table(), what);
        match self.near_class(name) {
            Some(near) => is_same(Importable::Class(&near), what),
            None => self.may_be(name, what),
        }
    }

    /// The class that has a simple name without an import: the file's own class, or a class of its package that lives.
    pub(crate) fn near_class(&self, name: &str) -> Option<Id>
        ensures { result ≡ near_class self.now.classes.now self.now.class name.now }
    {
        let table = self.classes.table();
        if name_of(table, &self.class) == name {
            return Some(self.class);
        }
        let package = package_of(table, &self.class);
        self.classes
            .class_named(&Spelling::Pair(package.as_bytes(), name.as_bytes()))
    }

    /// Whether a simple name may be for this, if no class is near by.
    fn may_be(&self, name: &str, what: Importable<'_>) -> bool
        ensures { result ≡ may_be (bearer_at self.now.bearers.entries name.now) (importable_of what.entry) }
    {
        match bearer_at(&self.bearers, name) {
            None => true,
            Some(None) => false,
            Some(Some(bearer)) => is_same(bearer, what),
        }
    }
}
