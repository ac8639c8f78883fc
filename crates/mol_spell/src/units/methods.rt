//! Methods and constructors of their parts (JLS 8.4, 8.8).
ghost use Rattle.std.specs.Prelude.{◌≡◌, [], IfOk, IsOkAnd};
ghost use Rattle.std.specs.Option.{option_map_or};
ghost use Rattle.jav_tree.specs.Blocks.{block_of};
ghost use Rattle.jav_tree.specs.declared.unit.Member.TheVariants as members;
ghost use Rattle.mol_spell_rules.specs.SpelledUnits.{constructor_member, method_member};
ghost use Rattle.mol_spell.specs.units.MemberTrees.{constructor_of, method_of, signature};

use crate::units::heads::MemberHead;
use crate::units::unit_writer::UnitWriter;
use jav_tree::{Block, Ctor, Member, Method, Param, TypeName};
use mol_base::{Id, List, OutOfMemory, Text};
use mol_scope_classes::name_of;
use mol_spell_names::FileNames;
use std::alloc::Global;

/// The type of what a method gives, its name and its parameters.
#[derive(Drop)]
pub(crate) struct Signature {
    pub result: TypeName,
    pub name: Text,
    pub params: List<Param>,
}

impl<F: FileNames> UnitWriter<'_, F> {
    /// A declaration of a method.
    pub(crate) fn method(
        &self,
        id: &Id,
        method: &Id,
        is_static: bool,
    ) -> Result<Member, OutOfMemory>
        ensures { IfOk result (λ member. member ≡ method_member self.now.index.now self.now.class is_static id.now method.now) }
    {
        let head = MemberHead::of(self.alloc, self.index.table(), id)?;
        let signature = self.signature(method)?;
        method_of(head, is_static, signature, self.body_of(id))
    }

    /// What a method gives, its name and its parameters.
    fn signature(&self, method: &Id) -> Result<Signature, OutOfMemory>
        ensures { IfOk result (λ parts. parts ≡ signature self.now.index.now self.now.class method.now) }
    {
        let result = self.result_of(method)?;
        let name = Text::from_str(self.alloc, name_of(self.index.table(), method))?;
        let params = self.params_of(method)?;
        Ok(Signature {
            result,
            name,
            params,
        })
    }

    /// A declaration of a constructor.
    pub(crate) fn constructor(&self, id: &Id, method: &Id) -> Result<Member, OutOfMemory>
        ensures { IfOk result (λ member. member ≡ constructor_member self.now.index.now self.now.class id.now method.now) }
    {
        let head = MemberHead::of(self.alloc, self.index.table(), id)?;
        let params = self.params_of(method)?;
        constructor_of(self.alloc, head, params, self.body_of(id))
    }
}

/// A method of its parts, the last of which is the body that was written.
fn method_of(
    head: MemberHead,
    is_static: bool,
    signature: Signature,
    block: Result<Option<Block>, OutOfMemory>,
) -> Result<Member, OutOfMemory>
    ensures { IfOk result (λ member. IsOkAnd block (λ block. member ≡ members.Method (method_of head is_static signature block))) }
{
    let block = block?;
    Ok(Member::Method(head.method(is_static, signature, block)))
}

/// A constructor of its parts, the last of which is the body that was written.
fn constructor_of(
    alloc: Global,
    head: MemberHead,
    params: List<Param>,
    block: Result<Option<Block>, OutOfMemory>,
) -> Result<Member, OutOfMemory>
    ensures { IfOk result (λ member. IsOkAnd block (λ block. member
        ≡ members.Ctor (constructor_of head params (option_map_or (λ block. block) block (block_of [] []))))) }
{
    let block = block?;
    Ok(Member::Ctor(head.constructor(params, body_or_empty(alloc, block))))
}

/// A body, or one without statements.
fn body_or_empty(alloc: Global, block: Option<Block>) -> Block
    ensures { result ≡ option_map_or (λ block. block) block (block_of [] []) }
{
    match block {
        Some(block) => block,
        None => Block {
            items: List::new(alloc),
            tail: List::new(alloc),
        },
    }
}

impl MemberHead {
    /// The method of these parts.
    fn method(self, is_static: bool, signature: Signature, block: Option<Block>) -> Method
        ensures { result ≡ method_of self is_static signature block }
    {
        let MemberHead { front, words } = self;
        let Signature {
            result,
            name,
            params,
        } = signature;
        Method {
            front,
            at: 0,
            words,
            is_static,
            result,
            name,
            params,
            block,
        }
    }

    /// The constructor of these parts.
    fn constructor(self, params: List<Param>, block: Block) -> Ctor
        ensures { result ≡ constructor_of self params block }
    {
        let MemberHead { front, words } = self;
        Ctor {
            front,
            at: 0,
            words,
            params,
            block,
        }
    }
}
