//! What the names of types read as in the source file of a class of a program.

mod class_file;
mod reading;
mod simple;

pub use class_file::ClassFile;
pub use mol_scope_classes::superclass_of;
pub use reading::TypeReading;
