//! The faults of the header of a source file, noted among those of the file.

mod header_faults;

pub use header_faults::HeaderFaults;
