//! Programs as tables, as definitions: what the cells of a program may hold, what lives, refers and mentions, and what tidying,
//! renumbering and additions leave, with the laws of these. Beside them stands only what is added to a table.
#![tactic(auto)]

mod entity;

pub use entity::NewEntity;
