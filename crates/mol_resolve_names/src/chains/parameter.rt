//! Parameters in scope.
ghost use Rattle.std.specs.Prelude.{◌≡◌, ◌<◌, IfSome, length};
ghost use Rattle.std.specs.List.{position};
ghost use Rattle.mol_resolve_names.specs.chains.InMembers.{has_name};

use jav_names::SeenType;
use mol_base::{Id, Text};

/// A parameter of the method or constructor around a place. There are at most 255 of them (JVMS 4.11).
#[derive(Drop)]
pub struct Parameter {
    pub name: Text,
    pub ty: SeenType,
    /// Its identity in a base.
    pub id: Id,
}

/// The place of the parameter of a name, from 0. Java allows no second of one name (JLS 8.4.1); where there are several all the same, the
/// first counts here. It takes no memory, and the time is linear in their number.
pub fn place_of(params: &[Parameter], name: &Text) -> Option<usize>
    ensures is { result ≡ position (has_name name.now) params.now }
    ensures inside { IfSome result (λ place. place < length params.now) }
{
    params.iter().position(|param| param.name == *name)
}
