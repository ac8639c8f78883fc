//! Simple names and imports of a file, once both are known.
ghost use Rattle.mol_spell_names.specs.simple_names.Named.{simple_in_file};

use mol_base::Text;
use mol_spell_expr::Importable;
use mol_spell_names::{FileNames, SimpleNames};

/// What has its simple name in a file, and its imports.
#[derive(Clone, Copy)]
pub(crate) struct NamesOfFile<'a, 'n, 'i> {
    pub names: &'n SimpleNames<'a>,
    pub imports: &'i [Text],
}

impl FileNames for NamesOfFile<'_, '_, '_> {
    ghost imports = { λ file. file.imports.now };

    ghost simple = { λ file what. simple_in_file file.names.now what };

    fn is_simple(&self, what: Importable<'_>) -> bool {
        self.names.is_simple(what)
    }

    fn imported(&self) -> &[Text] {
        self.imports
    }
}
