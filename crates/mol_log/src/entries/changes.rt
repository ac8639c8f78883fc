//! The operations that change what is there, from their rows. Everything but words goes in whole.
ghost use Rattle.std.specs.Prelude.{◌≡◌, true};
ghost use Rattle.mol_log_rows.specs.rows.RowForms.{is_row};
ghost use Rattle.mol_log_rows.specs.declared.rows.row.Row.TheVariants as AnyRow;
ghost use Rattle.mol_log.specs.entries.Reading.{ReadsAs};
ghost use Rattle.mol_log.specs.entries.Spelling.{Spells};
ghost use Rattle.mol_log.specs.entries.Trees.{parts};

use crate::entries::trees::{Signature, TypedValue, body_of, signature_of, typed_value};
use mol_log_rows::{
    ChangeSignatureRow, DeleteRow, MoveClassRow, MoveMethodRow, RenameClassRow, RenameMethodRow,
    SetBodyRow, SetValueRow,
};
use mol_log_words::BadWord;
use mol_op::{
    ChangeSignature, Delete, MoveClass, MoveMethod, Op, RenameClass, RenameMethod, SetBody,
    SetValue,
};
use std::alloc::Global;

pub fn deletion(row: DeleteRow) -> Op
    ensures { Spells (AnyRow.Delete row) result }
{
    Op::Delete(Delete { id: row.id })
}

pub fn set_body(alloc: Global, row: SetBodyRow) -> Result<Op, BadWord>
    ensures { ReadsAs (λ op. Spells (AnyRow.SetBody row) op) (parts (AnyRow.SetBody row)) result }
{
    let body = body_of(alloc, &row.body)?;
    Ok(Op::SetBody(SetBody {
        decl: row.decl,
        body,
    }))
}

pub fn set_value(alloc: Global, row: SetValueRow) -> Result<Op, BadWord>
    ensures { ReadsAs (λ op. Spells (AnyRow.SetValue row) op) (parts (AnyRow.SetValue row)) result }
{
    let TypedValue { ty, value } = typed_value(alloc, &row.ty, &row.value)?;
    Ok(Op::SetValue(SetValue {
        field: row.field,
        ty,
        value,
    }))
}

pub fn rename_class(row: RenameClassRow) -> Op
    requires { is_row (AnyRow.RenameClass row) ≡ true }
    ensures { Spells (AnyRow.RenameClass row) result }
{
    Op::RenameClass(RenameClass {
        class: row.class,
        name: row.name,
    })
}

pub fn rename_method(row: RenameMethodRow) -> Op
    requires { is_row (AnyRow.RenameMethod row) ≡ true }
    ensures { Spells (AnyRow.RenameMethod row) result }
{
    Op::RenameMethod(RenameMethod {
        method: row.method,
        name: row.name,
    })
}

pub fn move_class(row: MoveClassRow) -> Op
    requires { is_row (AnyRow.MoveClass row) ≡ true }
    ensures { Spells (AnyRow.MoveClass row) result }
{
    Op::MoveClass(MoveClass {
        class: row.class,
        package: row.package,
    })
}

pub fn move_method(row: MoveMethodRow) -> Op
    ensures { Spells (AnyRow.MoveMethod row) result }
{
    Op::MoveMethod(MoveMethod {
        decl: row.decl,
        owner: row.owner,
    })
}

pub fn change_signature(alloc: Global, row: ChangeSignatureRow) -> Result<Op, BadWord>
    requires { is_row (AnyRow.ChangeSignature row) ≡ true }
    ensures { ReadsAs (λ op. Spells (AnyRow.ChangeSignature row) op) (parts (AnyRow.ChangeSignature row)) result }
{
    let listed = row.params;
    let Signature { result, params } = signature_of(alloc, &row.result, listed)?;
    Ok(Op::ChangeSignature(ChangeSignature {
        method: row.method,
        result,
        params,
    }))
}
