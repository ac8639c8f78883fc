//! What has a simple name in the file of a class.
ghost use Rattle.std.specs.Prelude.{◌≡◌, Bool, true, []};
ghost use Rattle.jav_names.specs.DottedNames.{Names as NameList};
ghost use Rattle.mol_spell_rules.specs.Writers.{Importable as Named};
ghost use Rattle.mol_spell_expr.specs.Importables.{importable_of};

use mol_base::Text;
use mol_spell_expr::Importable;

/// Which classes and imported types have their simple names in the file of a class.
pub trait FileNames {
    /// The imports of the file.
    ghost imports: { Self → NameList };

    /// What has its simple name there.
    ghost simple: { Self → Named → Bool };

    /// Whether this has its simple name. It takes no memory.
    fn is_simple(&self, what: Importable<'_>) -> bool
        ensures { result ≡ simple self.now (importable_of what.entry) };

    /// The imports, ascending by bytes. It takes no memory.
    fn imported(&self) -> &[Text]
        ensures { result.now ≡ imports self.now };
}

/// A file in which everything has its simple name, and nothing is imported: so it is asked what a file uses.
#[derive(Clone, Copy)]
pub struct AllSimple;

impl FileNames for AllSimple {
    ghost imports = { λ file. [] };

    ghost simple = { λ file what. true };

    fn is_simple(&self, _what: Importable<'_>) -> bool {
        true
    }

    fn imported(&self) -> &[Text] {
        &[]
    }
}
