//! Types as they are read.
ghost use Rattle.std.specs.Prelude.{◌≡◌, IfOk};
ghost use Rattle.std.specs.Ordering.{nat_cmp};
ghost use Rattle.jav_names.specs.StaticTypes.{is_unread, same_type};
ghost use Rattle.jav_names.specs.seen.Kept.{view_type};

use mol_base::{Boxed, OutOfMemory, Text};
use std::alloc::Global;

/// A type as the rules on names look at it: which class it is, or its text.
#[derive(Drop)]
pub enum SeenType {
    /// A primitive type, by its name (JLS 4.2).
    Primitive(Text),
    /// `void`, the result of a method that gives no value.
    Void,
    /// A class of the sources, by the number of its file.
    Class(u32),
    /// A type outside by its text: of an imported one its full name and, after a dot, what follows that; else the text as written.
    Outside(Text),
    /// An array of items of this type (JLS 10.1).
    Array(Boxed<SeenType>),
    /// A type whose name reads as nothing.
    Unread,
}

impl SeenType {
    /// A type that equals this one.
    pub fn copy(&self, alloc: Global) -> Result<SeenType, OutOfMemory>
        ensures { IfOk result (λ copy. copy ≡ self.now) }
    {
        match self {
            SeenType::Primitive(name) => Ok(SeenType::Primitive(name.copy(alloc)?)),
            SeenType::Void => Ok(SeenType::Void),
            SeenType::Class(class) => Ok(SeenType::Class(*class)),
            SeenType::Outside(text) => Ok(SeenType::Outside(text.copy(alloc)?)),
            SeenType::Array(item) => Ok(SeenType::Array(Boxed::new(
                alloc,
                item.get().copy(alloc)?,
            )?)),
            SeenType::Unread => Ok(SeenType::Unread),
        }
    }

    /// Whether two types are equal (JLS 4.3.4, 10.1). One whose name reads as nothing equals none, not even itself. It takes no memory.
    pub fn same(&self, other: &SeenType) -> bool
        ensures { result ≡ same_type nat_cmp (view_type self.now) (view_type other.now) }
    {
        match (self, other) {
            (SeenType::Primitive(first), SeenType::Primitive(second)) => first == second,
            (SeenType::Void, SeenType::Void) => true,
            (SeenType::Class(first), SeenType::Class(second)) => first == second,
            (SeenType::Outside(first), SeenType::Outside(second)) => first == second,
            (SeenType::Array(first), SeenType::Array(second)) => first.get().same(second.get()),
            _ => false,
        }
    }

    /// Whether its name reads as nothing, or that of the items of an array does. It takes no memory.
    pub fn is_unread(&self) -> bool
        ensures { result ≡ is_unread (view_type self.now) }
    {
        match self {
            SeenType::Unread => true,
            SeenType::Array(item) => item.get().is_unread(),
            _ => false,
        }
    }
}
