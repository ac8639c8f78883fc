ghost use Rattle.std.specs.Prelude.{◌≡◌, ◌↔◌, IsTrue, map, option_map};
ghost use Rattle.jav_tree.specs.Places as spec;

use crate::same::{same_maybe, same_text, same_texts, same_type};
use crate::stmt::Block;
use crate::types::TypeName;
use crate::unit::{ClassDecl, Ctor, Field, Member, Method, Param, Unit};

impl Unit {
    /// Whether the units are equal but for places.
    pub fn same(&self, other: &Unit) -> bool
        ensures { IsTrue result ↔ spec.SameUnit self.now other.now }
    {
        if !same_texts(self.head.items(), other.head.items()) {
            return false;
        }
        if !same_text(&self.package, &other.package) {
            return false;
        }
        if !same_texts(self.imports.items(), other.imports.items()) {
            return false;
        }
        self.class.same(&other.class)
    }
}

impl ClassDecl {
    fn same(&self, other: &ClassDecl) -> bool
        ensures { IsTrue result ↔ spec.unplaced_class self.now ≡ spec.unplaced_class other.now }
    {
        if !same_texts(self.front.items(), other.front.items()) {
            return false;
        }
        if !same_texts(self.words.items(), other.words.items()) {
            return false;
        }
        if !same_text(&self.name, &other.name) {
            return false;
        }
        if !same_parent(&self.parent, &other.parent) {
            return false;
        }
        if !same_texts(self.tail.items(), other.tail.items()) {
            return false;
        }
        same_members(self.members.items(), other.members.items())
    }
}

/// Whether there is a superclass in both, and the same, or in neither.
fn same_parent(parent: &Option<TypeName>, other: &Option<TypeName>) -> bool
    ensures { IsTrue result ↔ parent.now ≡ other.now }
{
    match (parent, other) {
        (Some(ty), Some(their)) => same_type(ty, their),
        (None, None) => true,
        _ => false,
    }
}

/// Whether there are as many members, each the same as the other at its place.
fn same_members(items: &[Member], others: &[Member]) -> bool
    ensures { IsTrue result ↔ map spec.unplaced_member items.now ≡ map spec.unplaced_member others.now }
{
    if items.len() != others.len() {
        return false;
    }
    for i in 0..items.len() {
        if !items[i].same(&others[i]) {
            return false;
        }
    }
    true
}

impl Member {
    fn same(&self, other: &Member) -> bool
        ensures { IsTrue result ↔ spec.unplaced_member self.now ≡ spec.unplaced_member other.now }
    {
        match (self, other) {
            (Member::Field(field), Member::Field(their)) => field.same(their),
            (Member::Method(method), Member::Method(their)) => method.same(their),
            (Member::Ctor(ctor), Member::Ctor(their)) => ctor.same(their),
            _ => false,
        }
    }
}

impl Field {
    fn same(&self, other: &Field) -> bool
        ensures { IsTrue result ↔ spec.unplaced_field self.now ≡ spec.unplaced_field other.now }
    {
        if !same_texts(self.front.items(), other.front.items()) {
            return false;
        }
        if !same_texts(self.words.items(), other.words.items()) {
            return false;
        }
        if !same_type(&self.ty, &other.ty) {
            return false;
        }
        if !same_text(&self.name, &other.name) {
            return false;
        }
        same_maybe(&self.init, &other.init)
    }
}

impl Method {
    fn same(&self, other: &Method) -> bool
        ensures { IsTrue result ↔ spec.unplaced_method self.now ≡ spec.unplaced_method other.now }
    {
        if !same_texts(self.front.items(), other.front.items()) {
            return false;
        }
        if !same_texts(self.words.items(), other.words.items()) {
            return false;
        }
        if self.is_static != other.is_static {
            return false;
        }
        if !same_type(&self.result, &other.result) {
            return false;
        }
        if !same_text(&self.name, &other.name) {
            return false;
        }
        if !same_params(self.params.items(), other.params.items()) {
            return false;
        }
        same_body(&self.block, &other.block)
    }
}

/// Whether there is a block in both, the same but for places, or in neither.
fn same_body(block: &Option<Block>, other: &Option<Block>) -> bool
    ensures { IsTrue result ↔ option_map spec.unplaced_block block.now ≡ option_map spec.unplaced_block other.now }
{
    match (block, other) {
        (Some(block), Some(their)) => block.same(their),
        (None, None) => true,
        _ => false,
    }
}

impl Ctor {
    fn same(&self, other: &Ctor) -> bool
        ensures { IsTrue result ↔ spec.unplaced_ctor self.now ≡ spec.unplaced_ctor other.now }
    {
        if !same_texts(self.front.items(), other.front.items()) {
            return false;
        }
        if !same_texts(self.words.items(), other.words.items()) {
            return false;
        }
        if !same_params(self.params.items(), other.params.items()) {
            return false;
        }
        self.block.same(&other.block)
    }
}

/// Whether the parameters are equal.
fn same_params(items: &[Param], others: &[Param]) -> bool
    ensures { IsTrue result ↔ items.now ≡ others.now }
{
    if items.len() != others.len() {
        return false;
    }
    for i in 0..items.len() {
        if !items[i].same(&others[i]) {
            return false;
        }
    }
    true
}

impl Param {
    fn same(&self, other: &Param) -> bool
        ensures { IsTrue result ↔ self.now ≡ other.now }
    {
        if !same_type(&self.ty, &other.ty) {
            return false;
        }
        same_text(&self.name, &other.name)
    }
}
