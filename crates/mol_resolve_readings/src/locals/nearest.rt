//! The nearest local of each name.
ghost use Rattle.std.specs.Prelude.{◌≡◌, Some, IsSome, IfOk, OnOk, OnErr, if◌then◌else◌};
ghost use Rattle.std.specs.Map.{lookup};
ghost use Rattle.std.specs.Str.{bytes_eq};
ghost use Rattle.jav_names.specs.DottedNames.{Name};
ghost use Rattle.mol_resolve_readings.specs.locals.Scoped.{found_at};

use indexmap::IndexMap;
use mol_base::{OutOfMemory, Text};

/// The nearest local in scope of a name.
pub(crate) fn found_at(nearest: &IndexMap<Text, Option<u32>>, name: &Text) -> Option<u32>
    ensures { result ≡ found_at nearest.now.entries name.now }
{
    nearest.get(name).copied().flatten()
}

/// A local is the nearest of its name from here on. The answer is the one that was, if there was one. For want of memory nothing changes.
pub(crate) fn put(
    nearest: &mut IndexMap<Text, Option<u32>>,
    name: Text,
    number: u32,
) -> Result<Option<u32>, OutOfMemory>
    ensures before { IfOk result (λ before. before ≡ found_at nearest.old.entries name) }
    ensures ok { OnOk result ((asked : Name) → found_at nearest.new.entries asked
        ≡ (if bytes_eq name asked then Some number else found_at nearest.old.entries asked)) }
    ensures err { OnErr result ((asked : Name) → found_at nearest.new.entries asked ≡ found_at nearest.old.entries asked) }
{
    let before = nearest.insert(name, Some(number))?;
    Ok(before.flatten())
}

/// The nearest local of a name is again the one before it, if there was one. It takes no memory.
pub(crate) fn put_back(nearest: &mut IndexMap<Text, Option<u32>>, name: &Text, before: Option<u32>)
    requires { IsSome (lookup (bytes_eq name.now) nearest.old.entries) }
    ensures { (asked : Name) → found_at nearest.new.entries asked
        ≡ (if bytes_eq name.now asked then before else found_at nearest.old.entries asked) }
{
    if let Some(number) = nearest.get_mut(name) {
        *number = before;
    }
}
