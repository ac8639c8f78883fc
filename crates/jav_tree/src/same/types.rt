ghost use Rattle.std.specs.Prelude.{◌≡◌, ◌↔◌, IsTrue};

use crate::types::TypeName;
use mol_base::Text;

/// Whether two texts are equal.
pub fn same_text(text: &Text, other: &Text) -> bool
    ensures { IsTrue result ↔ text.now ≡ other.now }
{
    text == other
}

/// Whether two types are equal.
pub fn same_type(ty: &TypeName, other: &TypeName) -> bool
    ensures { IsTrue result ↔ ty.now ≡ other.now }
{
    match (ty, other) {
        (TypeName::Prim(name), TypeName::Prim(their)) => same_text(name, their),
        (TypeName::Named(name), TypeName::Named(their)) => same_text(name, their),
        (TypeName::ArrayOf(item), TypeName::ArrayOf(their)) => same_type(item.get(), their.get()),
        (TypeName::Void, TypeName::Void) => true,
        _ => false,
    }
}

/// Whether two lists of texts are equal.
pub fn same_texts(texts: &[Text], others: &[Text]) -> bool
    ensures { IsTrue result ↔ texts.now ≡ others.now }
{
    if texts.len() != others.len() {
        return false;
    }
    for i in 0..texts.len() {
        if !same_text(&texts[i], &others[i]) {
            return false;
        }
    }
    true
}
