//! Operations that add, without modifiers and comments.
ghost use Rattle.std.specs.Prelude.{not, IsTrue};
ghost use Rattle.mol_op.specs.Kept.{is_constructor};

use crate::bodies::read_body;
use crate::exprs::{FieldValue, read_field_value};
use crate::fault::CaseFault;
use crate::line::Line;
use crate::params::{Signature, read_params, read_signature};
use crate::texts::{dotted_of, name_of, no_notes, no_words};
use crate::types::read_parent;
use mol_base::Id;
use mol_op::{AddClass, AddConstructor, AddField, AddMethod, AddOverride, Op};
use mol_values_types::MethodKind;
use std::alloc::Global;

/// The class, its package and name, and its superclass.
pub fn add_class(alloc: Global, line: &mut Line<'_>) -> Result<Op, CaseFault> {
    let class = line.id();
    let package = dotted_of(alloc, line.word())?;
    let name = name_of(alloc, line.word())?;
    let parent = read_parent(line);
    Ok(Op::AddClass(AddClass {
        class,
        package,
        name,
        parent,
        words: no_words(alloc),
        notes: no_notes(alloc),
    }))
}

/// The field, its class, name and type, and its first value.
pub fn add_field(alloc: Global, line: &mut Line<'_>) -> Result<Op, CaseFault> {
    let field = line.id();
    let owner = line.id();
    let name = name_of(alloc, line.word())?;
    let FieldValue { ty, value } = read_field_value(alloc, line)?;
    Ok(Op::AddField(AddField {
        field,
        owner,
        name,
        words: no_words(alloc),
        notes: no_notes(alloc),
        ty,
        value,
    }))
}

/// A new method, its declaration, and the class of that.
#[derive(Clone, Copy)]
struct Place {
    method: Id,
    decl: Id,
    owner: Id,
}

/// A new method, its declaration, and the class of that.
fn read_place(line: &mut Line<'_>) -> Place {
    let method = line.id();
    let decl = line.id();
    let owner = line.id();
    Place {
        method,
        decl,
        owner,
    }
}

/// The kind of a method that is no constructor.
fn read_kind(line: &mut Line<'_>) -> MethodKind
    ensures { IsTrue (not (is_constructor result)) }
{
    match line.word() {
        "static" => MethodKind::Static,
        "instance" => MethodKind::Instance,
        _ => {
            line.spoil();
            MethodKind::Instance
        }
    }
}

/// The method, its declaration and the class of that; its name, kind, result and parameters; and the body.
pub fn add_method(alloc: Global, line: &mut Line<'_>) -> Result<Op, CaseFault> {
    let place = read_place(line);
    let name = name_of(alloc, line.word())?;
    let kind = read_kind(line);
    let Signature { result, params } = read_signature(alloc, line)?;
    let body = read_body(alloc, line)?;
    Ok(Op::AddMethod(AddMethod {
        method: place.method,
        decl: place.decl,
        owner: place.owner,
        name,
        kind,
        result,
        params,
        words: no_words(alloc),
        notes: no_notes(alloc),
        body,
    }))
}

/// The declaration, its method and its class, and the body.
pub fn add_override(alloc: Global, line: &mut Line<'_>) -> Result<Op, CaseFault> {
    let decl = line.id();
    let method = line.id();
    let owner = line.id();
    let body = read_body(alloc, line)?;
    Ok(Op::AddOverride(AddOverride {
        decl,
        method,
        owner,
        words: no_words(alloc),
        notes: no_notes(alloc),
        body,
    }))
}

/// The constructor, its declaration and the class of that, the parameters, and the body.
pub fn add_constructor(alloc: Global, line: &mut Line<'_>) -> Result<Op, CaseFault> {
    let place = read_place(line);
    let params = read_params(alloc, line)?;
    let body = read_body(alloc, line)?;
    Ok(Op::AddConstructor(AddConstructor {
        method: place.method,
        decl: place.decl,
        owner: place.owner,
        params,
        words: no_words(alloc),
        notes: no_notes(alloc),
        body,
    }))
}
