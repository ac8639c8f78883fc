//! Operations that add, without modifiers and comments.
ghost use Rattle.std.specs.Prelude.{◌≡◌, [], not, IsTrue};
ghost use Rattle.mol_op.specs.Kept.{is_constructor};
ghost use Rattle.mol_table_rules.specs.StatementForms.{is_body};

use mol_base::{Id, List, OutOfMemory, Text};
use mol_op::{AddClass, AddConstructor, AddField, AddMethod, AddOverride, Op};
use mol_values_types::{IBlock, IBody, IType, MethodKind, Notes, Words};
use std::alloc::Global;

/// No modifiers.
fn no_words(alloc: Global) -> Words
    ensures { result ≡ record { texts = [] } }
{
    Words {
        texts: List::new(alloc),
    }
}

/// No comments.
fn no_notes(alloc: Global) -> Notes
    ensures { result ≡ record { front = []; head = []; tail = [] } }
{
    Notes {
        front: List::new(alloc),
        head: List::new(alloc),
        tail: List::new(alloc),
    }
}

/// `{}`.
#[tactic(auto, using(crate::proofs::Bodies::empty_body))]
pub fn empty_body(alloc: Global) -> IBody
    ensures { IsTrue (is_body result) }
{
    IBody {
        block: IBlock {
            items: List::new(alloc),
            tail: List::new(alloc),
        },
    }
}

/// Adds the class `p.C`.
#[tactic(auto, using(crate::proofs::Names::first_class, crate::proofs::Names::first_package))]
pub fn add_class(alloc: Global, class: Id) -> Result<Op, OutOfMemory> {
    let package = Text::from_str(alloc, "p")?;
    let name = Text::from_str(alloc, "C")?;
    Ok(Op::AddClass(AddClass {
        class,
        package,
        name,
        parent: None,
        words: no_words(alloc),
        notes: no_notes(alloc),
    }))
}

/// Adds the field `int f;` to a class.
#[tactic(auto, using(crate::proofs::Names::field, crate::proofs::TypeForms::int_type))]
pub fn add_field(alloc: Global, field: Id, owner: Id) -> Result<Op, OutOfMemory> {
    let name = Text::from_str(alloc, "f")?;
    Ok(Op::AddField(AddField {
        field,
        owner,
        name,
        words: no_words(alloc),
        notes: no_notes(alloc),
        ty: IType::Int,
        value: None,
    }))
}

/// Adds the method `void m() {}` of this kind, with a declaration in a class.
#[tactic(auto, using(crate::proofs::Names::first_method, crate::proofs::TypeForms::void_result))]
pub fn add_method(
    alloc: Global,
    method: Id,
    decl: Id,
    owner: Id,
    kind: MethodKind,
) -> Result<Op, OutOfMemory>
    requires { IsTrue (not (is_constructor kind)) }
{
    let name = Text::from_str(alloc, "m")?;
    Ok(Op::AddMethod(AddMethod {
        method,
        decl,
        owner,
        name,
        kind,
        result: IType::Void,
        params: List::new(alloc),
        words: no_words(alloc),
        notes: no_notes(alloc),
        body: Some(empty_body(alloc)),
    }))
}

/// Adds a declaration with the body `{}` of a method, in a class.
pub fn add_override(alloc: Global, decl: Id, method: Id, owner: Id) -> Op {
    Op::AddOverride(AddOverride {
        decl,
        method,
        owner,
        words: no_words(alloc),
        notes: no_notes(alloc),
        body: Some(empty_body(alloc)),
    })
}

/// Adds a constructor without parameters and with the body `{}`, and its declaration in a class.
pub fn add_constructor(alloc: Global, method: Id, decl: Id, owner: Id) -> Op {
    Op::AddConstructor(AddConstructor {
        method,
        decl,
        owner,
        params: List::new(alloc),
        words: no_words(alloc),
        notes: no_notes(alloc),
        body: Some(empty_body(alloc)),
    })
}
