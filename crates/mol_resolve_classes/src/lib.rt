//! The faults of classes of source files: of their headers, and between their members.
#![tactic(auto)]

mod header_faults;
mod headers;
mod namesakes;
mod related;
mod signatures;

pub use header_faults::HeaderFaults;
pub use headers::{doubles, imports_clash, packages, path_differs};
pub use namesakes::{Declaration, Differences, Namesakes};
pub use related::{Members, Related};
pub use signatures::{MemberKind, Signature, Signatures};
