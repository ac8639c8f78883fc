//! Members of source files, read as the entities that they are. What names mean at their places, an implementation of `Names` answers.

mod member_reader;

pub use member_reader::MemberReader;
