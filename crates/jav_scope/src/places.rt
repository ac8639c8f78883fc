//! Places of names in lists.
ghost use Rattle.std.specs.Prelude.{◌≡◌, ◌<◌, ◌^◌, length};
ghost use Rattle.jav_names.specs.LookUps.{first_place, last_place};

use mol_base::Text;

/// The first place of a name.
pub(crate) fn first_place(names: &[Text], name: &Text) -> Option<u32>
    requires { length names.now < 2 ^ 32 }
    ensures { result ≡ first_place name.now names.now }
{
    for (place, declared) in names.iter().enumerate() {
        if declared == name {
            return Some(place as u32);
        }
    }
    None
}

/// The last place of a name.
pub(crate) fn last_place(names: &[Text], name: &Text) -> Option<u32>
    requires { length names.now < 2 ^ 32 }
    ensures { result ≡ last_place name.now names.now }
{
    let mut last = None;
    for (place, declared) in names.iter().enumerate() {
        if declared == name {
            last = Some(place as u32);
        }
    }
    last
}
