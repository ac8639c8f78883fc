//! The source file of a class of a table as a tree (JLS 7, 8).

mod cells;
mod class_parts;
mod declarations;
mod fields;
mod heads;
mod members;
mod methods;
mod trees;
mod unit;
mod unit_writer;
mod values;

pub use unit_writer::UnitWriter;
