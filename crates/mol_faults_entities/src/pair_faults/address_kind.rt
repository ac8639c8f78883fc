//! The kinds of addresses.

/// What is at an address. The order of the variants is that of the addresses.
#[derive(Clone, Copy, PartialEq, Eq, PartialOrd, Ord)]
pub enum AddressKind {
    Class,
    Field,
    /// A declaration of a method that is no constructor.
    Method,
    /// The declaration of a constructor.
    Constructor,
}
