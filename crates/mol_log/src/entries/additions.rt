//! The operations that add something, from their rows. Everything but words goes in whole.
ghost use Rattle.std.specs.Prelude.{◌≡◌, true};
ghost use Rattle.mol_log_rows.specs.rows.RowForms.{is_row};
ghost use Rattle.mol_log_rows.specs.declared.rows.row.Row.TheVariants as AnyRow;
ghost use Rattle.mol_log.specs.entries.Reading.{ReadsAs};
ghost use Rattle.mol_log.specs.entries.Spelling.{Spells};
ghost use Rattle.mol_log.specs.entries.Trees.{parts};

use crate::entries::trees::{
    Signature, TypedValue, body_of, params_of, parent_of, signature_of, typed_value,
};
use mol_log_rows::{AddClassRow, AddConstructorRow, AddFieldRow, AddMethodRow, AddOverrideRow};
use mol_log_words::BadWord;
use mol_op::{AddClass, AddConstructor, AddField, AddMethod, AddOverride, Op};
use std::alloc::Global;

pub fn add_class(alloc: Global, row: AddClassRow) -> Result<Op, BadWord>
    requires { is_row (AnyRow.AddClass row) ≡ true }
    ensures { ReadsAs (λ op. Spells (AnyRow.AddClass row) op) (parts (AnyRow.AddClass row)) result }
{
    let parent = parent_of(alloc, &row.parent)?;
    Ok(Op::AddClass(AddClass {
        class: row.class,
        package: row.package,
        name: row.name,
        parent,
        words: row.words,
        notes: row.notes,
    }))
}

pub fn add_field(alloc: Global, row: AddFieldRow) -> Result<Op, BadWord>
    requires { is_row (AnyRow.AddField row) ≡ true }
    ensures { ReadsAs (λ op. Spells (AnyRow.AddField row) op) (parts (AnyRow.AddField row)) result }
{
    let TypedValue { ty, value } = typed_value(alloc, &row.ty, &row.value)?;
    Ok(Op::AddField(AddField {
        field: row.field,
        owner: row.owner,
        name: row.name,
        words: row.words,
        notes: row.notes,
        ty,
        value,
    }))
}

pub fn add_method(alloc: Global, row: AddMethodRow) -> Result<Op, BadWord>
    requires { is_row (AnyRow.AddMethod row) ≡ true }
    ensures { ReadsAs (λ op. Spells (AnyRow.AddMethod row) op) (parts (AnyRow.AddMethod row)) result }
{
    let listed = row.params;
    let Signature { result, params } = signature_of(alloc, &row.result, listed)?;
    let body = body_of(alloc, &row.body)?;
    Ok(Op::AddMethod(AddMethod {
        method: row.method,
        decl: row.decl,
        owner: row.owner,
        name: row.name,
        kind: row.kind,
        result,
        params,
        words: row.words,
        notes: row.notes,
        body,
    }))
}

pub fn add_override(alloc: Global, row: AddOverrideRow) -> Result<Op, BadWord>
    requires { is_row (AnyRow.AddOverride row) ≡ true }
    ensures { ReadsAs (λ op. Spells (AnyRow.AddOverride row) op) (parts (AnyRow.AddOverride row)) result }
{
    let body = body_of(alloc, &row.body)?;
    Ok(Op::AddOverride(AddOverride {
        decl: row.decl,
        method: row.method,
        owner: row.owner,
        words: row.words,
        notes: row.notes,
        body,
    }))
}

pub fn add_constructor(alloc: Global, row: AddConstructorRow) -> Result<Op, BadWord>
    requires { is_row (AnyRow.AddConstructor row) ≡ true }
    ensures { ReadsAs (λ op. Spells (AnyRow.AddConstructor row) op) (parts (AnyRow.AddConstructor row)) result }
{
    let params = params_of(alloc, row.params)?;
    let body = body_of(alloc, &row.body)?;
    Ok(Op::AddConstructor(AddConstructor {
        method: row.method,
        decl: row.decl,
        owner: row.owner,
        params,
        words: row.words,
        notes: row.notes,
        body,
    }))
}
