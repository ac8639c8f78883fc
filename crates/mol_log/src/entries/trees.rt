//! The trees that lists of words spell.
ghost use Rattle.std.specs.Prelude.{[], ◌∷◌};
ghost use Rattle.mol_log.specs.entries.Reading.{ReadsAs};
ghost use Rattle.mol_log.specs.entries.Spelling.{SpellsMaybe, SpellsParam, SpellParams};
ghost use Rattle.mol_log.specs.entries.Trees as part;
ghost use Rattle.mol_log.specs.entries.Trees.{SpellsType, SpellsValue, SpellsBody, maybe, param_types};

use mol_base::{List, Text};
use mol_log_body::read_body;
use mol_log_expr::read_expr;
use mol_log_rows::ParamRow;
use mol_log_words::{BadWord, TypeRole, read_type};
use mol_values_types::{IBody, IExpr, IType, Param};
use std::alloc::Global;

/// The type of a field and its first value, if there is one.
#[derive(Drop)]
pub struct TypedValue {
    pub ty: IType,
    pub value: Option<IExpr>,
}

/// What a method gives, and its parameters.
#[derive(Drop)]
pub struct Signature {
    pub result: IType,
    pub params: List<Param>,
}

/// The type of a field and its first value, if there is one: at most 500 high.
pub fn typed_value(
    alloc: Global,
    ty: &List<Text>,
    value: &Option<List<Text>>,
) -> Result<TypedValue, BadWord>
    ensures { ReadsAs (λ typed. SpellsType TypeRole.Value typed.ty ty.now × SpellsMaybe SpellsValue typed.value value.now)
        (part.type TypeRole.Value ty.now ∷ maybe part.value value.now) result }
{
    let ty = value_type(alloc, ty)?;
    let value = first_value(alloc, value)?;
    Ok(TypedValue { ty, value })
}

/// What a method gives, and its parameters. The names and fillers of those go in whole.
pub fn signature_of(
    alloc: Global,
    gives: &List<Text>,
    params: List<ParamRow>,
) -> Result<Signature, BadWord>
    ensures { ReadsAs (λ read. SpellsType TypeRole.Result read.result gives.now × SpellParams params read.params)
        (part.type TypeRole.Result gives.now ∷ param_types params) result }
{
    let result = result_type(alloc, gives)?;
    let params = params_of(alloc, params)?;
    Ok(Signature { result, params })
}

/// A superclass, if one is named.
pub fn parent_of(alloc: Global, words: &Option<List<Text>>) -> Result<Option<IType>, BadWord>
    ensures { ReadsAs (λ ty. SpellsMaybe (SpellsType TypeRole.Super) ty words.now) (maybe (part.type TypeRole.Super) words.now) result }
{
    match words {
        Some(words) => Ok(Some(read_type(alloc, TypeRole::Super, words.items())?)),
        None => Ok(None),
    }
}

/// The type of a field or a parameter.
fn value_type(alloc: Global, words: &List<Text>) -> Result<IType, BadWord>
    ensures { ReadsAs (λ ty. SpellsType TypeRole.Value ty words.now) (part.type TypeRole.Value words.now ∷ []) result }
{
    read_type(alloc, TypeRole::Value, words.items())
}

/// The type of what a method gives.
fn result_type(alloc: Global, words: &List<Text>) -> Result<IType, BadWord>
    ensures { ReadsAs (λ ty. SpellsType TypeRole.Result ty words.now) (part.type TypeRole.Result words.now ∷ []) result }
{
    read_type(alloc, TypeRole::Result, words.items())
}

/// The first value of a field, if there is one.
fn first_value(alloc: Global, words: &Option<List<Text>>) -> Result<Option<IExpr>, BadWord>
    ensures { ReadsAs (λ init. SpellsMaybe SpellsValue init words.now) (maybe part.value words.now) result }
{
    match words {
        Some(words) => Ok(Some(read_expr(alloc, words.items())?)),
        None => Ok(None),
    }
}

/// The body of a declaration, if there is one: at most 500 high.
pub fn body_of(alloc: Global, words: &Option<List<Text>>) -> Result<Option<IBody>, BadWord>
    ensures { ReadsAs (λ block. SpellsMaybe SpellsBody block words.now) (maybe part.body words.now) result }
{
    match words {
        Some(words) => Ok(Some(read_body(alloc, words.items())?)),
        None => Ok(None),
    }
}

/// The parameters, whose names and fillers go in whole.
pub fn params_of(alloc: Global, rows: List<ParamRow>) -> Result<List<Param>, BadWord>
    ensures { ReadsAs (λ params. SpellParams rows params) (param_types rows) result }
{
    let mut params = List::new(alloc);
    for row in rows.into_vec() {
        let param = param_of(alloc, row)?;
        if params.add(param).is_err() {
            return Err(BadWord::OutOfMemory);
        }
    }
    Ok(params)
}

/// A parameter, whose name and filler go in whole.
fn param_of(alloc: Global, row: ParamRow) -> Result<Param, BadWord>
    ensures { ReadsAs (λ param. SpellsParam row param) (part.type TypeRole.Value row.ty ∷ []) result }
{
    let ty = value_type(alloc, &row.ty)?;
    Ok(Param {
        id: row.id,
        name: row.name,
        ty,
        filler: row.filler,
    })
}
