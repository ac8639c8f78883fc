//! Lists of parameters.
ghost use Rattle.std.specs.Prelude.{IsTrue, IfOk};
ghost use Rattle.mol_table_rules.specs.Forms.{is_param};
ghost use Rattle.mol_table_rules.specs.TypeForms.{is_result};
ghost use Rattle.mol_op.specs.Kept.{may_be_params};

use crate::fault::CaseFault;
use crate::line::Line;
use crate::texts::{literal_of, name_of};
use crate::types::{read_result, read_type};
use mol_base::{List, MAX_ITEMS};
use mol_values_types::{IType, Param};
use std::alloc::Global;

/// The next parameter: its identity, name and type, and its filler, which is a literal here.
fn read_param(alloc: Global, line: &mut Line<'_>) -> Result<Param, CaseFault>
    ensures { IfOk result (λ param. IsTrue (is_param param)) }
{
    let id = line.id();
    let name = name_of(alloc, line.word())?;
    let ty = read_type(alloc, line)?;
    let filler = literal_of(alloc, line.word())?;
    Ok(Param {
        id,
        name,
        ty,
        filler,
    })
}

/// A number, and so many parameters.
pub fn read_params(alloc: Global, line: &mut Line<'_>) -> Result<List<Param>, CaseFault>
    ensures { IfOk result (λ list. IsTrue (may_be_params list)) }
{
    let count = line.number();
    let mut list = List::new(alloc);
    for _param in 0..count {
        list.add(read_param(alloc, line)?)?;
    }
    if list.items().len() > MAX_ITEMS {
        return Err(CaseFault::Unread);
    }
    Ok(list)
}

/// What a method gives and takes.
#[derive(Drop)]
pub struct Signature {
    pub result: IType,
    pub params: List<Param>,
}

/// The next result, and parameters.
pub fn read_signature(alloc: Global, line: &mut Line<'_>) -> Result<Signature, CaseFault>
    ensures gives { IfOk result (λ signature. IsTrue (is_result signature.result)) }
    ensures takes { IfOk result (λ signature. IsTrue (may_be_params signature.params)) }
{
    let result = read_result(alloc, line)?;
    let params = read_params(alloc, line)?;
    Ok(Signature { result, params })
}
