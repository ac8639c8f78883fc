//! A place for each of some names.
ghost use Rattle.std.specs.Prelude.{◌≡◌, Some, None, IsSome, IfOk, OnOk, OnErr, if◌then◌else◌};
ghost use Rattle.std.specs.Option.{option_or};
ghost use Rattle.std.specs.Str.{bytes_eq};
ghost use Rattle.jav_names.specs.DottedNames.{Name};
ghost use Rattle.mol_spell_places.specs.scope_names.Places.{found_at, entry_at};

use indexmap::IndexMap;
use mol_base::OutOfMemory;

/// The place that stands at a name.
pub(crate) fn found_at(places: &IndexMap<&str, Option<usize>>, name: &str) -> Option<usize>
    ensures { result ≡ found_at places.now.entries name.now }
{
    places.get(name).copied().flatten()
}

/// From here on this place stands at a name. The answer is the one that did, if there was one. For want of memory nothing changes.
pub(crate) fn put<'a>(
    places: &mut IndexMap<&'a str, Option<usize>>,
    name: &'a str,
    place: usize,
) -> Result<Option<usize>, OutOfMemory>
    ensures before { IfOk result (λ before. before ≡ found_at places.old.entries name.now) }
    ensures ok { OnOk result ((asked : Name) → found_at places.new.entries asked
        ≡ (if bytes_eq name.now asked then Some place else found_at places.old.entries asked)) }
    ensures err { OnErr result ((asked : Name) → found_at places.new.entries asked ≡ found_at places.old.entries asked) }
{
    let before = places.insert(name, Some(place))?;
    Ok(before.flatten())
}

/// At a name without a place this one stands from here on. For want of memory nothing changes.
pub(crate) fn put_first<'a>(
    places: &mut IndexMap<&'a str, Option<usize>>,
    name: &'a str,
    place: usize,
) -> Result<(), OutOfMemory>
    ensures { OnOk result ((asked : Name) → found_at places.new.entries asked
        ≡ option_or (found_at places.old.entries asked) (if bytes_eq name.now asked then Some place else None)) }
{
    match found_at(places, name) {
        Some(_) => Ok(()),
        None => {
            put(places, name, place)?;
            Ok(())
        },
    }
}

/// At a name that has an entry the place before stands again, if there was one. It takes no memory.
pub(crate) fn put_back(
    places: &mut IndexMap<&str, Option<usize>>,
    name: &str,
    before: Option<usize>,
)
    requires { IsSome (entry_at places.old.entries name.now) }
    ensures { (asked : Name) → found_at places.new.entries asked
        ≡ (if bytes_eq name.now asked then before else found_at places.old.entries asked) }
{
    if let Some(place) = places.get_mut(name) {
        *place = before;
    }
}
