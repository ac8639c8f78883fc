//! The faults of classes that the headers of source files show: of their paths, full names and imports. Each stands at the beginning
//! of its file.

mod clashes;
mod duplicates;
mod full_names;
mod package_classes;
mod path;

pub use clashes::imports_clash;
pub use duplicates::doubles;
pub use package_classes::packages;
pub use path::path_differs;
