ghost use Rattle.std.specs.Prelude.{◌≡◌, ◌↔◌, IsTrue};

use crate::same::{same_body, same_id, same_maybe, same_text, same_texts, same_type};
use mol_values_types::{IBody, IType, Notes, Param, Value, Words};

/// Whether both have the same words in the same order. It takes no memory.
pub fn same_words(one: &Words, other: &Words) -> bool
    ensures { IsTrue result ↔ one.now ≡ other.now }
{
    same_texts(one.texts.items(), other.texts.items())
}

/// Whether both have the same comments in the same places. It takes no memory.
pub fn same_notes(one: &Notes, other: &Notes) -> bool
    ensures { IsTrue result ↔ one.now ≡ other.now }
{
    if !same_texts(one.front.items(), other.front.items()) {
        return false;
    }
    if !same_texts(one.head.items(), other.head.items()) {
        return false;
    }
    same_texts(one.tail.items(), other.tail.items())
}

/// Whether both are the same parameter. It takes no memory.
pub fn same_param(one: &Param, other: &Param) -> bool
    ensures { IsTrue result ↔ one.now ≡ other.now }
{
    if !same_id(&one.id, &other.id) {
        return false;
    }
    if !same_text(&one.name, &other.name) {
        return false;
    }
    if !same_type(&one.ty, &other.ty) {
        return false;
    }
    same_text(&one.filler, &other.filler)
}

/// Whether both lists have the same parameters.
fn same_params(items: &[Param], others: &[Param]) -> bool
    ensures { IsTrue result ↔ items.now ≡ others.now }
{
    if items.len() != others.len() {
        return false;
    }
    for i in 0..items.len() {
        if !same_param(&items[i], &others[i]) {
            return false;
        }
    }
    true
}

/// Whether both are the same type, or neither is there.
fn same_parent(one: &Option<IType>, other: &Option<IType>) -> bool
    ensures { IsTrue result ↔ one.now ≡ other.now }
{
    match one {
        Some(one) => match other {
            Some(other) => same_type(one, other),
            None => false,
        },
        None => match other {
            Some(_) => false,
            None => true,
        },
    }
}

/// Whether both are the same body, or neither is there.
fn same_own_body(one: &Option<IBody>, other: &Option<IBody>) -> bool
    ensures { IsTrue result ↔ one.now ≡ other.now }
{
    match one {
        Some(one) => match other {
            Some(other) => same_body(one, other),
            None => false,
        },
        None => match other {
            Some(_) => false,
            None => true,
        },
    }
}

/// Whether both are the same value. It takes no memory.
pub fn same_value(one: &Value, other: &Value) -> bool
    ensures { IsTrue result ↔ one.now ≡ other.now }
{
    match one {
        Value::Live(a0) => match other {
            Value::Live(b0) => { *a0 == *b0 }
            _ => false,
        },
        Value::Package(a0) => match other {
            Value::Package(b0) => { same_text(a0, b0) }
            _ => false,
        },
        Value::Owner(a0) => match other {
            Value::Owner(b0) => { same_id(a0, b0) }
            _ => false,
        },
        Value::Method(a0) => match other {
            Value::Method(b0) => { same_id(a0, b0) }
            _ => false,
        },
        Value::Name(a0) => match other {
            Value::Name(b0) => { same_text(a0, b0) }
            _ => false,
        },
        Value::Super(a0) => match other {
            Value::Super(b0) => { same_parent(a0, b0) }
            _ => false,
        },
        Value::Result(a0) => match other {
            Value::Result(b0) => { same_type(a0, b0) }
            _ => false,
        },
        Value::Params(a0) => match other {
            Value::Params(b0) => { same_params(a0.items(), b0.items()) }
            _ => false,
        },
        Value::Kind(a0) => match other {
            Value::Kind(b0) => { *a0 == *b0 }
            _ => false,
        },
        Value::Fixed(a0) => match other {
            Value::Fixed(b0) => { *a0 == *b0 }
            _ => false,
        },
        Value::Words(a0) => match other {
            Value::Words(b0) => { same_words(a0, b0) }
            _ => false,
        },
        Value::Notes(a0) => match other {
            Value::Notes(b0) => { same_notes(a0, b0) }
            _ => false,
        },
        Value::Body(a0) => match other {
            Value::Body(b0) => { same_own_body(a0, b0) }
            _ => false,
        },
        Value::Value(a0, a1) => match other {
            Value::Value(b0, b1) => {
                if !same_type(a0, b0) {
                    return false;
                }
                same_maybe(a1.get(), b1.get())
            }
            _ => false,
        },
    }
}
