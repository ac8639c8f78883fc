//! A log as rows: its lines, its header, and line by line the stamp and the operation of an entry, whose words are not read yet.
#![tactic(auto)]

mod lines;
mod rows;

pub use lines::{
    Header, LastNumbers, Line, Lines, LogFault, Members, ObjectFault, check_size, header_value,
    items, read_header, read_line,
};
pub use rows::{
    AddClassRow, AddConstructorRow, AddFieldRow, AddMethodRow, AddOverrideRow, ChangeSignatureRow,
    DeleteRow, MoveClassRow, MoveMethodRow, ParamRow, Recorded, RenameClassRow, RenameMethodRow,
    Row, Rows, SetBodyRow, SetValueRow, Start, read_row, read_start,
};
