//! Names as they are looked for.
ghost use Rattle.std.specs.Prelude.{◌≡◌, ◌++◌, ◌∷◌, List, ℕ, IfOk, IfErr};
ghost use Rattle.std.specs.Ordering.{nat_cmp};
ghost use Rattle.std.specs.Cmp.Lexicographic.{slice_cmp};
ghost use Rattle.jav_names.specs.DottedNames.{dot};
ghost use Rattle.jav_names.specs.index.Spelled.{joined_names, spelled};

use mol_base::Text;
use std::cmp::Ordering;

/// A name, as one text or as texts with dots between them.
#[derive(Clone, Copy)]
pub enum Spelling<'a> {
    Whole(&'a [u8]),
    Pair(&'a [u8], &'a [u8]),
    Names(&'a [Text]),
}

impl Spelling<'_> {
    /// How a text compares with this name, byte by byte.
    pub fn compare(&self, text: &[u8]) -> Ordering
        ensures { result ≡ slice_cmp nat_cmp text.now (spelled self.now) }
    {
        match self {
            Spelling::Whole(name) => text.cmp(name),
            Spelling::Pair(front, back) => match after_front(text, front) {
                Ok(rest) => rest.cmp(back),
                Err(order) => order,
            },
            Spelling::Names(names) => compare_names(text, names),
        }
    }
}

/// How a text compares with names with dots between them.
fn compare_names(text: &[u8], names: &[Text]) -> Ordering
    ensures { result ≡ slice_cmp nat_cmp text.now (joined_names names.now) }
{
    match names {
        [] => text.cmp(&[].as_slice()),
        [first, rest @ ..] => {
            let first = first.bytes();
            if rest.is_empty() {
                return text.cmp(&first);
            }
            match after_front(text, first) {
                Ok(more) => compare_names(more, rest),
                Err(order) => order,
            }
        },
    }
}

/// What follows this front and a dot in a text; or how the text compares with all that begins so.
fn after_front<'a>(text: &'a [u8], front: &[u8]) -> Result<&'a [u8], Ordering>
    ensures rest { IfOk result (λ rest. text.now ≡ front.now ++ dot ∷ rest.now) }
    ensures order { IfErr result (λ order. (back : List ℕ) → slice_cmp nat_cmp text.now (front.now ++ dot ∷ back) ≡ order) }
{
    if text.len() <= front.len() {
        return Err(text.cmp(&front).then(Ordering::Less));
    }
    let (start, rest) = text.split_at(front.len());
    match start.cmp(&front).then(rest[0].cmp(&b'.')) {
        Ordering::Equal => Ok(&rest[1..]),
        order => Err(order),
    }
}
