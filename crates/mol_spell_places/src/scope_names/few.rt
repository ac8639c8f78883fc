//! Names that are so few that it is quicker to go through them than to look one up.
ghost use Rattle.std.specs.Prelude.{◌≡◌};
ghost use Rattle.std.specs.List.{position};
ghost use Rattle.jav_names.specs.LookUps.{last_place};
ghost use Rattle.mol_spell_places.specs.scope_names.Few.{names_of};
ghost use Rattle.mol_spell_places.specs.scope_names.Params.{has_name};

use mol_values_types::Param;

/// So many names are gone through. Of more each is looked up.
pub(crate) const FEW: usize = 8;

/// The place of the last of these names that is this one, from 0. It takes no memory, and the time is linear in their number.
pub(crate) fn last_of(names: &[&str], name: &str) -> Option<usize>
    ensures { result ≡ last_place name.now (names_of names.now) }
{
    let mut last = None;
    for (place, known) in names.iter().enumerate() {
        if *known == name {
            last = Some(place);
        }
    }
    last
}

/// The place of the first parameter of a name, from 0. It takes no memory, and the time is linear in their number.
pub(crate) fn first_of(params: &[Param], name: &str) -> Option<usize>
    ensures { result ≡ position (has_name name.now) params.now }
{
    params.iter().position(|param| param.name.as_str() == name)
}
