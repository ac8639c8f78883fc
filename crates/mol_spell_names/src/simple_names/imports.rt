//! What a file imports.
ghost use Rattle.std.specs.Prelude.{◌≡◌, ◌++◌, IfOk, OnOk, None, Some, if◌then◌else◌};
ghost use Rattle.std.specs.Option.{option_to_list};
ghost use Rattle.std.specs.Ordering.{nat_cmp};
ghost use Rattle.std.specs.Cmp.Lexicographic.{slice_cmp};
ghost use Rattle.jav_names.specs.DottedNames.{Names};
ghost use Rattle.mol_spell_names.specs.simple_names.Named.{imports_of_file, uses_of_file};
ghost use Rattle.mol_spell_rules.specs.Sets.{as_set};
ghost use Rattle.mol_spell_rules.specs.SimpleNames.{import_of, needs_import};
ghost use Rattle.mol_spell_rules.specs.Writers.{full_of};
ghost use Rattle.mol_spell_uses.specs.uses.Kept.{kept_use};
ghost use Rattle.mol_spell_expr.specs.Importables.{importable_of};

use crate::simple_names::importables::{full_name_of, simple_name_of};
use crate::simple_names::simple_names::SimpleNames;
use mol_base::{List, OutOfMemory, Text};
use mol_spell_expr::Importable;
use mol_spell_uses::Use;
use std::alloc::Global;
use std::collections::BTreeSet;

impl SimpleNames<'_> {
    /// The full names that the file imports, each once, in the order of their bytes (JLS 7.5.1): of what has its simple name by no class
    /// near by, and is used where that name is not hidden. The time is near-linear in the number of uses and the length of their names.
    /// `Err` is want of memory.
    pub fn imports(&self, alloc: Global) -> Result<List<Text>, OutOfMemory>
        ensures { IfOk result (λ imports. imports ≡ imports_of_file self.now) }
    {
        let set = self.import_set(alloc)?;
        let mut imports = List::new(alloc);
        for import in set {
            imports.add(import)?;
        }
        Ok(imports)
    }

    /// The full names that the file imports.
    fn import_set(&self, alloc: Global) -> Result<BTreeSet<Text>, OutOfMemory>
        ensures { IfOk result (λ set. set.keys ≡ imports_of_file self.now) }
    {
        let mut set = BTreeSet::new(alloc);
        // A set does not depend on the order; from the last use on each step adds what stands before the uses that were met.
        for at in (0..self.uses.len()).rev() {
            let import = self.import_of(alloc, &self.uses[at])?;
            insert(&mut set, import)?;
        }
        Ok(set)
    }

    /// What is imported for a use, if it needs an import.
    fn import_of(&self, alloc: Global, used: &Use) -> Result<Option<Text>, OutOfMemory>
        ensures { IfOk result (λ import. import
            ≡ import_of self.now.classes.now self.now.class (uses_of_file self.now) (kept_use used.now)) }
    {
        match used {
            Use::Class(class, false) => self.import(alloc, Importable::Class(class)),
            Use::Import(full, false) => self.import(alloc, Importable::Import(full)),
            _ => Ok(None),
        }
    }

    /// The import of what is used where its simple name is not hidden, if it needs one.
    fn import(&self, alloc: Global, what: Importable<'_>) -> Result<Option<Text>, OutOfMemory>
        ensures { let program = self.now.classes.now in let what = importable_of what.entry in IfOk result (λ import. import
            ≡ (if needs_import program self.now.class (uses_of_file self.now) what then Some (full_of program what) else None)) }
    {
        if self.needs_import(what) {
            let full = full_name_of(alloc, self.classes.table(), what)?;
            Ok(Some(full))
        } else {
            Ok(None)
        }
    }

    /// Whether this has its simple name, and by no class near by.
    fn needs_import(&self, what: Importable<'_>) -> bool
        ensures { result
            ≡ needs_import self.now.classes.now self.now.class (uses_of_file self.now) (importable_of what.entry) }
    {
        let name = simple_name_of(self.classes.table(), what);
        self.is_simple(what) && self.near_class(name).is_none()
    }
}

/// Puts a text into a set, if there is one.
fn insert(set: &mut BTreeSet<Text>, text: Option<Text>) -> Result<(), OutOfMemory>
    ensures { OnOk result ((items : Names) → set.old.keys ≡ as_set (slice_cmp nat_cmp) items
        → set.new.keys ≡ as_set (slice_cmp nat_cmp) (option_to_list text ++ items)) }
{
    if let Some(text) = text {
        set.insert(text)?;
    }
    Ok(())
}
