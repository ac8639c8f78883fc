//! Values of cells.
ghost use Rattle.std.specs.Prelude.{◌≡◌};
ghost use Rattle.mol_values_types.specs.Slots.{slot_of};

use crate::{IBody, IExpr, IType, MethodKind, Notes, Param, Slot, Words};
use mol_base::{Boxed, Id, List, Text};

/// What a cell holds. Each variant is the form of the slot of its name.
#[derive(Drop)]
pub enum Value {
    /// Whether the class, declaration or field lives.
    Live(bool),
    Package(Text),
    /// The class in which a declaration or a field stands.
    Owner(Id),
    /// The method of a declaration.
    Method(Id),
    /// The name; that of a constructor is empty.
    Name(Text),
    /// The superclass, if one is named.
    Super(Option<IType>),
    /// The type of what a method gives; `void` for a constructor.
    Result(IType),
    Params(List<Param>),
    Kind(MethodKind),
    /// Whether the name and arity at the adding of a method were those of one of `java.lang.Object`.
    Fixed(bool),
    Words(Words),
    Notes(Notes),
    /// None for an abstract method.
    Body(Option<IBody>),
    /// The type of a field, and its first value. It is in a box, since each cell takes the room of the largest value.
    Value(IType, Boxed<Option<IExpr>>),
}

impl Value {
    /// The slot whose form the value has.
    pub fn slot(&self) -> Slot
        ensures { result ≡ slot_of self.now }
    {
        match self {
            Value::Live(_) => Slot::Live,
            Value::Package(_) => Slot::Package,
            Value::Owner(_) => Slot::Owner,
            Value::Method(_) => Slot::Method,
            Value::Name(_) => Slot::Name,
            Value::Super(_) => Slot::Super,
            Value::Result(_) => Slot::Result,
            Value::Params(_) => Slot::Params,
            Value::Kind(_) => Slot::Kind,
            Value::Fixed(_) => Slot::Fixed,
            Value::Words(_) => Slot::Words,
            Value::Notes(_) => Slot::Notes,
            Value::Body(_) => Slot::Body,
            Value::Value(_, _) => Slot::Value,
        }
    }
}
