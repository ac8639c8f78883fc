//! The topmost declarations of methods.
ghost use Rattle.std.specs.Prelude.{◌≡◌, ◌≢◌, ℕ, All, IfOk, OnOk, length, map};
ghost use Rattle.jav_tree.specs.declared.unit.Member.TheVariants as member;
ghost use Rattle.jav_scope.specs.Entries.{view_in};
ghost use Rattle.jav_names.specs.LookUps.{way as way_from};
ghost use Rattle.mol_resolve_members.specs.places.Listings.{HasMember, as_listed, key_of};
ghost use Rattle.mol_resolve_rules.specs.Numbering.{same_key};
ghost use Rattle.mol_resolve_members.specs.numbers.Members.{IsMember, members_of};
ghost use Rattle.mol_resolve_members.specs.numbers.Tops.{top_key, tops_of};

use crate::numbers::last_declared::last_declared;
use crate::numbers::ways::way;
use crate::places::{Listed, Places};
use jav_scope::{MemberRef, Scope};
use jav_tree::{Member, Method};
use mol_base::{OutOfMemory, number_of};
use std::alloc::Global;

/// Of each member the place of the topmost declaration of its method (JLS 8.4.8): on the way up from its class, of the declarations with
/// its name and number of parameters the last that is met. A field and a constructor have their own places.
pub(crate) fn tops(
    alloc: Global,
    scope: &Scope<'_>,
    places: &Places<'_>,
    classes: u32,
    listed: &[Listed<'_>],
) -> Result<Vec<u32>, OutOfMemory>
    requires places { places.now ≡ scope.now }
    requires classes { classes ≡ length scope.now }
    requires listed { map as_listed listed.now ≡ members_of scope.now }
    ensures { IfOk result (λ tops. tops.items ≡ tops_of scope.now) }
{
    let none = number_of(listed.len())?;
    let mut met = Vec::from_elem(alloc, none, classes as usize)?;
    let mut tops = Vec::new(alloc);
    for walk in 0..none {
        let member = &listed[walk as usize];
        let top = top(alloc, scope, &mut met, walk, member)?;
        let place = places.member(top);
        tops.push(place)?;
    }
    Ok(tops)
}

/// Whether a member is the topmost declaration of its method, where these are the places of those of all members.
pub(crate) fn is_top(places: &Places<'_>, tops: &[u32], at: MemberRef) -> bool
    requires tops { tops.now ≡ tops_of places.now }
    requires member { HasMember places.now at }
    ensures { result ≡ same_key (top_key (view_in places.now) (key_of at)) (key_of at) }
{
    let place = places.member(at);
    tops[place as usize] == place
}

/// The topmost declaration of the method of a member, found by a walk of this number.
fn top(
    alloc: Global,
    scope: &Scope<'_>,
    met: &mut Vec<u32>,
    walk: u32,
    listed: &Listed<'_>,
) -> Result<MemberRef, OutOfMemory>
    requires size { length met.old.items ≡ length scope.now }
    requires unmet { All (λ mark. mark ≢ walk) met.old.items }
    requires member { IsMember scope.now (key_of listed.now.at) listed.now.member.now }
    ensures top { IfOk result (λ top. key_of top ≡ top_key (view_in scope.now) (key_of listed.now.at)) }
    ensures size { OnOk result (length met.new.items ≡ length met.old.items) }
    ensures unmet { OnOk result ((later : ℕ) → later ≢ walk → All (λ mark. mark ≢ later) met.old.items
        → All (λ mark. mark ≢ later) met.new.items) }
{
    match listed.member {
        Member::Field(_) => Ok(listed.at),
        Member::Method(method) => {
            let way = way(alloc, scope, met, walk, listed.at.unit)?;
            top_on_way(scope, way.as_slice(), method, listed.at)
        },
        Member::Ctor(_) => Ok(listed.at),
    }
}

/// The topmost declaration of a method that is declared at this place.
fn top_on_way(
    scope: &Scope<'_>,
    way: &[u32],
    method: &Method,
    at: MemberRef,
) -> Result<MemberRef, OutOfMemory>
    requires way { way.now ≡ way_from (view_in scope.now) at.unit }
    requires method { IsMember scope.now (key_of at) (member.Method method.now) }
    ensures { IfOk result (λ top. key_of top ≡ top_key (view_in scope.now) (key_of at)) }
{
    let arity = number_of(method.params.items().len())?;
    match last_declared(scope, way, &method.name, arity) {
        Some(last) => Ok(last),
        None => Ok(at),
    }
}
