//! Creations of objects, and `super(..)` (JLS 8.8.7.1, 15.9).
ghost use Rattle.std.specs.Prelude.{◌≡◌, ℕ, IfOk, option_map};
ghost use Rattle.jav_names.specs.LookUps.{constructor_from, super_constructor};
ghost use Rattle.jav_names.specs.UnitViews.{MemberKey};
ghost use Rattle.mol_resolve_names.specs.accesses.Over.{IsOver};
ghost use Rattle.mol_resolve_readings.specs.meant.Kept.{view_part, view_read};
ghost use Rattle.mol_resolve_readings.specs.reads.Reads.{Reads};
ghost use Rattle.mol_resolve_rules.specs.Readers.{Reader};
ghost use Rattle.mol_resolve_rules.specs.ReadStatements.{super_read};
ghost use Rattle.mol_resolve_rules.specs.ReadTrees as trees;
ghost use Rattle.mol_values_types.specs.declared.iblock.IStmtNode.TheVariants as nodes;

use crate::accesses::arguments::arguments;
use jav_names::SeenType;
use jav_scope::Found;
use mol_base::{Id, List, OutOfMemory, number_of};
use mol_resolve_faults::{FaultKind, FirstFault};
use mol_resolve_members::{Finder, FoundConstructor};
use mol_resolve_readings::meant::creations;
use mol_resolve_readings::{Meant, ReadType};
use mol_values_types::{Argument, IExpr, IStmtNode};
use std::alloc::Global;

/// A creation of an object of a type. Where a class has no constructor with so many parameters, that is noted at this place.
pub fn created(
    alloc: Global,
    finder: &Finder<'_>,
    faults: &mut FirstFault,
    at: u32,
    arity: usize,
    ty: ReadType,
    args: Option<List<IExpr>>,
) -> Result<Option<Meant>, OutOfMemory>
    ensures { IfOk result (λ value. (reader : Reader ℕ MemberKey) → IsOver finder.now reader
        → Reads (trees.created reader at arity (view_read ty) args (view_read ty).type) (view_part value) faults.old faults.new) }
{
    match ty.ty {
        SeenType::Class(class) => class_created(alloc, finder, faults, at, arity, class, args),
        _ => creations::outside_creation(alloc, ty, args),
    }
}

/// A creation of an object of the class of the file of this number.
fn class_created(
    alloc: Global,
    finder: &Finder<'_>,
    faults: &mut FirstFault,
    at: u32,
    arity: usize,
    class: u32,
    args: Option<List<IExpr>>,
) -> Result<Option<Meant>, OutOfMemory>
    ensures { IfOk result (λ value. (reader : Reader ℕ MemberKey) → IsOver finder.now reader
        → Reads (trees.class_created reader at class args (constructor_from reader.view class arity))
        (view_part value) faults.old faults.new) }
{
    let arity = number_of(arity)?;
    match finder.constructor_of(class, arity) {
        Found::Found(FoundConstructor::Declared(constructor)) => {
            let args = arguments(alloc, finder, &constructor, args)?;
            creations::creation(alloc, class, constructor.id, args)
        },
        Found::Found(FoundConstructor::Default(id)) => {
            let value = creations::default_creation(alloc, class, id)?;
            Ok(Some(value))
        },
        Found::Outside => Ok(None),
        Found::NotFound => {
            faults.note(FaultKind::UnknownMember, at);
            Ok(None)
        },
    }
}

/// `super(..)` in a constructor of the class of this number. Where the superclass has no constructor with so many parameters, that is
/// noted at this place.
pub fn super_init(
    alloc: Global,
    finder: &Finder<'_>,
    faults: &mut FirstFault,
    at: u32,
    class: u32,
    arity: usize,
    args: Option<List<IExpr>>,
) -> Result<Option<IStmtNode>, OutOfMemory>
    ensures { IfOk result (λ node. (reader : Reader ℕ MemberKey) → IsOver finder.now reader
        → Reads (super_read reader at args (super_constructor reader.view class arity)) node faults.old faults.new) }
{
    let arity = number_of(arity)?;
    match finder.super_constructor(class, arity) {
        Found::Found(FoundConstructor::Declared(constructor)) => {
            let args = arguments(alloc, finder, &constructor, args)?;
            Ok(declared_super(constructor.id, args))
        },
        Found::Found(FoundConstructor::Default(id)) => Ok(Some(IStmtNode::SuperDefault(id))),
        Found::Outside => Ok(outside_super(args)),
        Found::NotFound => {
            faults.note(FaultKind::UnknownMember, at);
            Ok(None)
        },
    }
}

/// `super(..)` by a declared constructor; none where an argument has no value. It takes no memory.
fn declared_super(constructor: Id, args: Option<List<Argument>>) -> Option<IStmtNode>
    ensures { result ≡ option_map (λ args. nodes.Super constructor args) args }
{
    match args {
        Some(args) => Some(IStmtNode::Super(constructor, args)),
        None => None,
    }
}

/// `super(..)` by a constructor outside; none where an argument has no value. It takes no memory.
fn outside_super(args: Option<List<IExpr>>) -> Option<IStmtNode>
    ensures { result ≡ option_map (λ args. nodes.SuperOutside args) args }
{
    match args {
        Some(args) => Some(IStmtNode::SuperOutside(args)),
        None => None,
    }
}
