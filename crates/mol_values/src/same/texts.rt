ghost use Rattle.std.specs.Prelude.{◌≡◌, ◌↔◌, IsTrue};

use mol_base::{Id, Text};

/// Whether both are one identity.
pub(crate) fn same_id(id: &Id, other: &Id) -> bool
    ensures { IsTrue result ↔ id.now ≡ other.now }
{
    id == other
}

/// Whether two texts are equal.
pub(crate) fn same_text(text: &Text, other: &Text) -> bool
    ensures { IsTrue result ↔ text.now ≡ other.now }
{
    text == other
}

/// Whether two lists of texts are equal.
pub(crate) fn same_texts(texts: &[Text], others: &[Text]) -> bool
    ensures { IsTrue result ↔ texts.now ≡ others.now }
{
    if texts.len() != others.len() {
        return false;
    }
    for i in 0..texts.len() {
        if !same_text(&texts[i], &others[i]) {
            return false;
        }
    }
    true
}
