//! A log as rows: its header, and line by line the stamp and the operation of an entry, whose words are not read yet.

mod forms;
mod parts;
mod read;
mod row;
mod rows;
mod start;

pub use read::read_row;
pub use row::{
    AddClassRow, AddConstructorRow, AddFieldRow, AddMethodRow, AddOverrideRow, ChangeSignatureRow,
    DeleteRow, MoveClassRow, MoveMethodRow, ParamRow, Recorded, RenameClassRow, RenameMethodRow,
    Row, SetBodyRow, SetValueRow,
};
pub use rows::Rows;
pub use start::{Start, read_start};
