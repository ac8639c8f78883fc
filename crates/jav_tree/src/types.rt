//! Types as they are written (JLS 4.2, 4.3, 8.4.5).
use mol_base::{Boxed, Text};

/// A type as a source writes it.
#[derive(Drop)]
pub enum TypeName {
    /// A primitive type: `boolean`, `byte`, `short`, `char`, `int` or `long`.
    Prim(Text),
    /// A class by its name, whose parts are joined by `.` without spaces.
    Named(Text),
    /// An array of items of this type.
    ArrayOf(Boxed<TypeName>),
    /// `void`, the result of a method that gives no value. It stands nowhere else.
    Void,
}
