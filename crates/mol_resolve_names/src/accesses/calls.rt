//! Calls of methods (JLS 15.12). Which method is called is decided by its name and the number of arguments.
ghost use Rattle.std.specs.Prelude.{◌≡◌, ℕ, IfOk};
ghost use Rattle.jav_names.specs.seen.Kept.{view_value};
ghost use Rattle.jav_names.specs.LookUps.{method_from, method_on, method_through, super_method};
ghost use Rattle.jav_names.specs.UnitViews.{MemberKey};
ghost use Rattle.mol_resolve_names.specs.accesses.Over.{IsOver};
ghost use Rattle.mol_resolve_readings.specs.meant.Kept.{view_meant, view_part};
ghost use Rattle.mol_resolve_readings.specs.reads.Reads.{Reads};
ghost use Rattle.mol_resolve_rules.specs.Readers.{Reader};
ghost use Rattle.mol_resolve_rules.specs.ReadTrees as trees;

use crate::accesses::arguments::arguments;
use jav_scope::Found;
use mol_base::{List, OutOfMemory, Text, number_of};
use mol_resolve_faults::{FaultKind, FirstFault};
use mol_resolve_members::{Finder, OnValue};
use mol_resolve_readings::Meant;
use mol_resolve_readings::meant::calls;
use mol_values_types::IExpr;
use std::alloc::Global;

/// A call without anything before it, in the class of this number. Where there is no such method, that is noted at this place.
pub fn call_here(
    alloc: Global,
    finder: &Finder<'_>,
    faults: &mut FirstFault,
    at: u32,
    class: u32,
    name: &Text,
    arity: usize,
    args: Option<List<IExpr>>,
) -> Result<Option<Meant>, OutOfMemory>
    ensures { IfOk result (λ value. (reader : Reader ℕ MemberKey) → IsOver finder.now reader
        → Reads (trees.call_here reader at name.now args (method_from reader.view class name.now arity))
        (view_part value) faults.old faults.new) }
{
    let arity = number_of(arity)?;
    match finder.method_of(class, name, arity) {
        Found::Found(method) => {
            let args = arguments(alloc, finder, &method, args)?;
            calls::own_call(alloc, method.is_static, method.id, method.result, args)
        },
        Found::Outside => calls::outside_own_call(alloc, name, args),
        Found::NotFound => {
            faults.note(FaultKind::UnknownMember, at);
            Ok(None)
        },
    }
}

/// A call through the name of a class, by the number of its file. Where there is no static method, that is noted at this place.
pub fn call_through(
    alloc: Global,
    finder: &Finder<'_>,
    faults: &mut FirstFault,
    at: u32,
    class: u32,
    name: &Text,
    arity: usize,
    args: Option<List<IExpr>>,
) -> Result<Option<Meant>, OutOfMemory>
    ensures { IfOk result (λ value. (reader : Reader ℕ MemberKey) → IsOver finder.now reader
        → Reads (trees.call_through reader at args (method_through reader.view class name.now arity))
        (view_part value) faults.old faults.new) }
{
    let arity = number_of(arity)?;
    match finder.method_through(class, name, arity) {
        Some(method) => {
            let args = arguments(alloc, finder, &method, args)?;
            calls::own_call(alloc, true, method.id, method.result, args)
        },
        None => {
            faults.note(FaultKind::UnknownMember, at);
            Ok(None)
        },
    }
}

/// A call on a value. Where there is no such method, or a static one, or the value has no methods, that is noted at this place.
pub fn call_of(
    alloc: Global,
    finder: &Finder<'_>,
    faults: &mut FirstFault,
    at: u32,
    name: &Text,
    arity: usize,
    value: Meant,
    args: Option<List<IExpr>>,
) -> Result<Option<Meant>, OutOfMemory>
    ensures { IfOk result (λ call. (reader : Reader ℕ MemberKey) → IsOver finder.now reader
        → Reads (trees.call_on reader at name.now (view_meant value) args (method_on reader.view name.now arity (view_value value.ty)))
        (view_part call) faults.old faults.new) }
{
    let arity = number_of(arity)?;
    match finder.method_on(name, arity, &value.ty) {
        OnValue::Member(method) => {
            let args = arguments(alloc, finder, &method, args)?;
            calls::call_of(alloc, method.id, method.result, value, args)
        },
        OnValue::Outside => calls::outside_call_of(alloc, name, value, args),
        OnValue::Static => {
            faults.note(FaultKind::StaticByInstance, at);
            Ok(None)
        },
        OnValue::Missing => {
            faults.note(FaultKind::UnknownMember, at);
            Ok(None)
        },
        OnValue::NoMembers => {
            faults.note(FaultKind::ReceiverType, at);
            Ok(None)
        },
        OnValue::Unread => Ok(None),
    }
}

/// A call after `super.`, in the class of this number. Where there is no such method, or a static one, that is noted at this place.
pub fn super_call(
    alloc: Global,
    finder: &Finder<'_>,
    faults: &mut FirstFault,
    at: u32,
    class: u32,
    name: &Text,
    arity: usize,
    args: Option<List<IExpr>>,
) -> Result<Option<Meant>, OutOfMemory>
    ensures { IfOk result (λ value. (reader : Reader ℕ MemberKey) → IsOver finder.now reader
        → Reads (trees.super_call reader at name.now args (super_method reader.view class name.now arity))
        (view_part value) faults.old faults.new) }
{
    let arity = number_of(arity)?;
    match finder.super_method(class, name, arity) {
        Found::Found(method) => {
            if method.is_static {
                faults.note(FaultKind::StaticByInstance, at);
                Ok(None)
            } else {
                let args = arguments(alloc, finder, &method, args)?;
                calls::super_call(alloc, method.id, method.result, args)
            }
        },
        Found::Outside => calls::outside_super_call(alloc, name, args),
        Found::NotFound => {
            faults.note(FaultKind::UnknownMember, at);
            Ok(None)
        },
    }
}
