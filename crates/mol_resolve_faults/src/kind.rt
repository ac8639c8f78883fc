//! The kinds of faults.

/// Why source files are no program. Of several faults of one place the first in this order is reported.
#[derive(Clone, Copy, Debug, PartialEq, Eq, PartialOrd, Ord)]
pub enum FaultKind {
    /// The path is not that of the package and the class.
    PathDiffers,
    /// Another class has the same full name.
    DuplicateClass,
    /// The full name of the class is the package of a class, or such a package begins with it and a dot.
    PackageIsClass,
    /// Following superclasses from the class comes back to it.
    SuperCycle,
    /// Two imports, or an import and the class of the file, have one simple name and different full names.
    ImportClash,
    /// In one class, fields have one name (JLS 8.3), or methods of one name or constructors have parameters of equal types, in
    /// order (JLS 8.4.2, 8.8.2).
    DuplicateMember,
    /// Two methods of one name and number of parameters, in a class or in a class and an ancestor, or two constructors that take as
    /// many, have other parameter types.
    OverloadByType,
    /// Two such methods have different results.
    ResultDiffers,
    /// Two methods of a class and an ancestor have one name and number of parameters, and one or both are static.
    StaticHidden,
    /// A local has the name of a local or parameter in whose scope it is declared, or two parameters have one name.
    Redeclared,
    /// There is no such variable.
    UnknownName,
    /// There is no such type, member or constructor.
    UnknownMember,
    /// A static member is reached through an instance.
    StaticByInstance,
    /// A member of a primitive value, of `null`, of `void` or of a mixed value; or an item of what is no array and not outside.
    ReceiverType,
}
