//! The identities of what stands in source files.
ghost use Rattle.std.specs.Prelude.{◌≡◌, ◌≤◌, ℕ, IfOk, Some, length};
ghost use Rattle.jav_scope.specs.Entries.{view_in};
ghost use Rattle.jav_names.specs.UnitViews.{MemberKey};
ghost use Rattle.jav_names.specs.Views.{ViewDeclaration};
ghost use Rattle.mol_resolve_members.specs.places.Listings.{HasMember, key_of};
ghost use Rattle.mol_resolve_members.specs.places.Orders.{numbers_by_path};
ghost use Rattle.mol_resolve_members.specs.sources.Sources.{files_of};
ghost use Rattle.mol_resolve_rules.specs.Files.{declaration_at};
ghost use Rattle.mol_resolve_rules.specs.Numbering.{ids_of, same_key, topmost};
ghost use Rattle.mol_table_rules.specs.Renumber.{base_id};
ghost use Rattle.mol_resolve_members.specs.numbers.Given.{first_after, method_number};
ghost use Rattle.mol_resolve_members.specs.numbers.Members.{HasArity, keys_of};

use crate::numbers::firsts::firsts;
use crate::numbers::tops::{is_top, tops};
use crate::places::{Places, list_members};
use jav_scope::{MemberRef, Scope, SourceUnit};
use mol_base::{Id, OutOfMemory, Tag, number_of};
use std::alloc::Global;
use std::marker::Model;

/// The identities of a base that classes, members, methods and parameters of source files have: classes are numbered first, by the paths
/// of their files; then all members, file by file; then methods in the order of their topmost declarations, each followed by its
/// parameters. Contracts see the files.
#[derive(Drop)]
pub struct Numbers<'a> {
    places: Places<'a>,
    /// How many classes there are.
    classes: u32,
    /// Of each member, in the order of paths, the place of the topmost declaration of its method.
    tops: Vec<u32>,
    /// Of each member the number that comes next before its method and parameters have theirs, and at last the one after all.
    firsts: Vec<u32>,
}

impl<'a> Model for Numbers<'a> {
    ghost use Rattle.std.specs.Prelude.{List};
    ghost use Rattle.std.specs.Coded.{coded_list};
    ghost use Rattle.jav_scope.specs.contracts.source.SourceUnit as source;
    ghost use Rattle.jav_scope.specs.declared.source.SourceUnit.{SourceUnit};
    ghost use Rattle.mol_resolve_members.specs.numbers.Given.{AreNumbered};

    ghost Value = { List SourceUnit };

    ghost coded = { coded_list source.the_row.coded };

    ghost view = { λ numbers. numbers.places };

    ghost invariant = { λ numbers. AreNumbered numbers.places numbers.classes numbers.tops.items numbers.firsts.items };
}

impl<'a> Numbers<'a> {
    /// The identities of what stands in the files of a scope, whose order by paths this is. For a number past 32 bits there is no memory.
    /// The time is that of looking up the method of each declaration once, from its class as far up as superclasses go.
    pub fn new(
        alloc: Global,
        scope: &Scope<'_>,
        sources: &'a [SourceUnit],
        order: &[u32],
    ) -> Result<Numbers<'a>, OutOfMemory>
        requires scope { scope.now ≡ sources.now }
        requires order { order.now ≡ numbers_by_path sources.now }
        ensures { IfOk result (λ numbers. numbers ≡ sources.now) }
    {
        let places = Places::new(alloc, sources, order)?;
        let classes = number_of(sources.len())?;
        let listed = list_members(alloc, sources, order)?;
        let tops = tops(alloc, scope, &places, classes, listed.as_slice())?;
        let firsts = firsts(alloc, &places, classes, listed.as_slice(), tops.as_slice())?;
        Ok(Numbers {
            places,
            classes,
            tops,
            firsts,
        })
    }

    /// The identity of the class of the file of this number; where there is no such file, the one after all. It takes no memory.
    pub fn class_id(&self, unit: u32) -> Id
        ensures { result ≡ (ids_of (files_of self.now)).class_id unit }
    {
        if unit < self.classes {
            base_id(1 + self.places.file(unit))
        } else {
            base_id(self.after_all())
        }
    }

    /// The identity of a field or declaration. It takes no memory.
    pub fn member_id(&self, at: MemberRef) -> Id
        requires { HasMember self.now at }
        ensures { result ≡ (ids_of (files_of self.now)).member_id (key_of at) }
    {
        base_id(1 + self.classes + self.places.member(at))
    }

    /// The identity of the method of a declaration (JLS 8.4.8). It takes no memory.
    pub fn method_id(&self, at: MemberRef) -> Id
        requires { HasMember self.now at }
        ensures { (declared : ViewDeclaration ℕ MemberKey) → declaration_at (view_in self.now) (key_of at) ≡ Some declared
            → result ≡ (ids_of (files_of self.now)).method_id declared }
    {
        base_id(self.number(at, 0))
    }

    /// The identities of the parameters of the method of a declaration, which takes so many, in their order. `Err` is want of memory.
    pub fn param_ids(
        &self,
        alloc: Global,
        at: MemberRef,
        arity: u32,
    ) -> Result<Vec<Id>, OutOfMemory>
        requires member { HasMember self.now at }
        requires arity { HasArity self.now at arity }
        ensures { IfOk result (λ ids. (declared : ViewDeclaration ℕ MemberKey)
            → declaration_at (view_in self.now) (key_of at) ≡ Some declared
            → ids.items ≡ (ids_of (files_of self.now)).param_ids declared) }
    {
        let mut ids = Vec::new(alloc);
        for place in 0..arity {
            let number = self.number(at, 1 + place);
            ids.push(base_id(number))?;
        }
        Ok(ids)
    }

    /// Whether a declaration is the topmost one of its method. It takes no memory.
    pub fn is_top(&self, at: MemberRef) -> bool
        requires { HasMember self.now at }
        ensures { (declared : ViewDeclaration ℕ MemberKey) → declaration_at (view_in self.now) (key_of at) ≡ Some declared
            → result ≡ same_key (topmost (view_in self.now) declared).key declared.key }
    {
        is_top(&self.places, self.tops.as_slice(), at)
    }

    /// The number of the method of a declaration, or of the parameter of it that comes so many after. In a circle of superclasses the
    /// topmost declaration may have another above it: then no method is numbered there, and it is the number after all.
    fn number(&self, at: MemberRef, more: u32) -> u32
        requires member { HasMember self.now at }
        requires fits { method_number self.now (key_of at) more ≤ first_after self.now (length (keys_of self.now)) }
        ensures { result ≡ method_number self.now (key_of at) more }
    {
        let place = self.places.member(at);
        let top = self.tops[place as usize];
        let above = self.tops[top as usize];
        if above == top {
            self.firsts[top as usize] + more
        } else {
            self.after_all()
        }
    }

    /// The number after all that are given.
    fn after_all(&self) -> u32
        ensures { result ≡ first_after self.now (length (keys_of self.now)) }
    {
        self.firsts[self.tops.len()]
    }
}

/// The identity of this number in a base.
fn base_id(num: u32) -> Id
    ensures { result ≡ base_id num }
{
    Id {
        tag: Tag::base(),
        num,
    }
}
