//! What lies outside the program: a store of files and a sink of bytes, each over memory and over the
//! system.
#![tactic(auto)]

mod dir_files;
mod mem_files;
mod mem_sink;
mod outside;
mod place;
mod span;
mod std_sink;

pub use dir_files::DirFiles;
pub use mem_files::MemFiles;
pub use mem_sink::MemSink;
pub use outside::{Failed, FileFail, Files, Sink};
pub use std_sink::StdSink;
