//! What a merge of two logs is, as definitions: in which orders their entries may be taken, where entries of both do not go together,
//! what both leave, which conflicts that has, and the log of both.
//!
//! The definitions stand in `specs/`, and the contracts of the crates above cite them. Nothing here computes.
#![tactic(auto)]
