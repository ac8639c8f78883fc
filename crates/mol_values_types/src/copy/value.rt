ghost use Rattle.std.specs.Prelude.{◌≡◌, IfOk};

use crate::copy::{copy_maybe, copy_texts};
use crate::{IBody, IExpr, IType, Notes, Param, Value, Words};
use mol_base::{Boxed, List, OutOfMemory, both};
use std::alloc::Global;

impl Words {
    /// Words that equal these.
    pub fn copy(&self, alloc: Global) -> Result<Words, OutOfMemory>
        ensures { IfOk result (λ copy. copy ≡ self.now) }
    {
        Ok(Words {
            texts: copy_texts(alloc, self.texts.items())?,
        })
    }
}

impl Notes {
    /// Notes that equal these.
    pub fn copy(&self, alloc: Global) -> Result<Notes, OutOfMemory>
        ensures { IfOk result (λ copy. copy ≡ self.now) }
    {
        Ok(Notes {
            front: copy_texts(alloc, self.front.items())?,
            head: copy_texts(alloc, self.head.items())?,
            tail: copy_texts(alloc, self.tail.items())?,
        })
    }
}

impl Param {
    /// A parameter that equals this one.
    pub fn copy(&self, alloc: Global) -> Result<Param, OutOfMemory>
        ensures { IfOk result (λ copy. copy ≡ self.now) }
    {
        Ok(Param {
            id: self.id,
            name: self.name.copy(alloc)?,
            ty: self.ty.copy(alloc)?,
            filler: self.filler.copy(alloc)?,
        })
    }
}

fn copy_params(alloc: Global, items: &[Param]) -> Result<List<Param>, OutOfMemory>
    ensures { IfOk result (λ all. all ≡ items.now) }
{
    let mut all = List::new(alloc);
    for item in items {
        all.add(item.copy(alloc)?)?;
    }
    Ok(all)
}

/// A type that equals the one there is.
fn copy_parent(alloc: Global, parent: &Option<IType>) -> Result<Option<IType>, OutOfMemory>
    ensures { IfOk result (λ o. o ≡ parent.now) }
{
    match parent {
        Some(parent) => Ok(Some(parent.copy(alloc)?)),
        None => Ok(None),
    }
}

/// A body that equals the one there is.
fn copy_body(alloc: Global, body: &Option<IBody>) -> Result<Option<IBody>, OutOfMemory>
    ensures { IfOk result (λ o. o ≡ body.now) }
{
    match body {
        Some(body) => Ok(Some(body.copy(alloc)?)),
        None => Ok(None),
    }
}

/// A first value that equals the one there is.
fn copy_init(alloc: Global, init: &Option<IExpr>) -> Result<Boxed<Option<IExpr>>, OutOfMemory>
    ensures { IfOk result (λ o. o ≡ init.now) }
{
    Boxed::new(alloc, copy_maybe(alloc, init)?)
}

impl Value {
    /// A value that equals this one.
    pub fn copy(&self, alloc: Global) -> Result<Value, OutOfMemory>
        ensures { IfOk result (λ copy. copy ≡ self.now) }
    {
        match self {
            Value::Live(live) => Ok(Value::Live(*live)),
            Value::Package(package) => match package.copy(alloc) {
                Ok(package) => Ok(Value::Package(package)),
                Err(want) => Err(want),
            },
            Value::Owner(owner) => Ok(Value::Owner(*owner)),
            Value::Method(method) => Ok(Value::Method(*method)),
            Value::Name(name) => match name.copy(alloc) {
                Ok(name) => Ok(Value::Name(name)),
                Err(want) => Err(want),
            },
            Value::Super(parent) => match copy_parent(alloc, parent) {
                Ok(parent) => Ok(Value::Super(parent)),
                Err(want) => Err(want),
            },
            Value::Result(ty) => match ty.copy(alloc) {
                Ok(ty) => Ok(Value::Result(ty)),
                Err(want) => Err(want),
            },
            Value::Params(params) => match copy_params(alloc, params.items()) {
                Ok(params) => Ok(Value::Params(params)),
                Err(want) => Err(want),
            },
            Value::Kind(kind) => Ok(Value::Kind(*kind)),
            Value::Fixed(fixed) => Ok(Value::Fixed(*fixed)),
            Value::Words(words) => match words.copy(alloc) {
                Ok(words) => Ok(Value::Words(words)),
                Err(want) => Err(want),
            },
            Value::Notes(notes) => match notes.copy(alloc) {
                Ok(notes) => Ok(Value::Notes(notes)),
                Err(want) => Err(want),
            },
            Value::Body(body) => match copy_body(alloc, body) {
                Ok(body) => Ok(Value::Body(body)),
                Err(want) => Err(want),
            },
            Value::Value(ty, init) => match both(ty.copy(alloc), copy_init(alloc, init.get())) {
                Ok((ty, init)) => Ok(Value::Value(ty, init)),
                Err(want) => Err(want),
            },
        }
    }
}
