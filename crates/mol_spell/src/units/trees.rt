//! Types, first values, parameters and bodies, each where no local is declared yet.
ghost use Rattle.std.specs.Prelude.{◌≡◌, IfOk, map, option_map};
ghost use Rattle.mol_spell_rules.specs.SpelledStatements.{spelled_body};
ghost use Rattle.mol_spell.specs.units.MemberTrees.{param_tree, type_tree, value_tree};

use jav_tree::{Block, Expr, Param as ParamName, TypeName};
use mol_base::{List, OutOfMemory};
use mol_spell_body::BodyWriter;
use mol_spell_places::{BodyLocals, Places};
use mol_values_types::{IBody, IExpr, IType, Param};
use std::alloc::Global;

/// The type of a declaration.
pub(crate) fn type_tree<P: Places>(
    alloc: Global,
    places: &P,
    ty: &IType,
) -> Result<TypeName, OutOfMemory>
    ensures { IfOk result (λ tree. tree ≡ type_tree (P.writer places.now) ty.now) }
{
    let locals = BodyLocals::new(alloc);
    let writer = BodyWriter { alloc, places };
    writer.type_name(&locals, ty)
}

/// The first value of a field, if it has one.
pub(crate) fn first_value<P: Places>(
    alloc: Global,
    places: &P,
    init: &Option<IExpr>,
) -> Result<Option<Expr>, OutOfMemory>
    ensures { IfOk result (λ tree. tree ≡ option_map (value_tree (P.writer places.now)) init.now) }
{
    let locals = BodyLocals::new(alloc);
    let writer = BodyWriter { alloc, places };
    writer.maybe_expr(&locals, init)
}

/// A body.
pub(crate) fn body_tree<P: Places>(
    alloc: Global,
    places: &P,
    body: &IBody,
) -> Result<Block, OutOfMemory>
    ensures { IfOk result (λ tree. tree ≡ (spelled_body (P.writer places.now) body.now).tree) }
{
    let mut locals = BodyLocals::new(alloc);
    let writer = BodyWriter { alloc, places };
    writer.block(&mut locals, &body.block)
}

/// Parameters, in their order.
pub(crate) fn param_trees<P: Places>(
    alloc: Global,
    places: &P,
    params: &[Param],
) -> Result<List<ParamName>, OutOfMemory>
    ensures { IfOk result (λ trees. trees ≡ map (param_tree (P.writer places.now)) params.now) }
{
    let mut trees = List::with_capacity(alloc, params.len())?;
    for param in params {
        let tree = param_tree(alloc, places, param)?;
        trees.add(tree)?;
    }
    Ok(trees)
}

/// A parameter.
fn param_tree<P: Places>(alloc: Global, places: &P, param: &Param) -> Result<ParamName, OutOfMemory>
    ensures { IfOk result (λ tree. tree ≡ param_tree (P.writer places.now) param.now) }
{
    let ty = type_tree(alloc, places, &param.ty)?;
    let name = param.name.copy(alloc)?;
    Ok(ParamName { ty, name })
}
