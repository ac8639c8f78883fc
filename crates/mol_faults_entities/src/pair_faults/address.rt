//! Addresses.
ghost use Rattle.std.specs.Prelude.{◌≡◌};
ghost use Rattle.mol_faults_entities.specs.pair_faults.Addresses.{key_cmp, key_of, names_cmp};

use crate::pair_faults::address_kind::AddressKind;
use mol_base::Id;
use std::cmp::Ordering;

/// Where a source names an entity, which no two that live may share (JLS 7.6, 8.3, 8.4.2, 8.8.2): a class by its package and its name, a
/// field by its class and its name, a declaration of a method by its class and the name and the number of parameters of the method, that
/// of a constructor by its class and its number of parameters. What an address of its kind does not have is empty: `None`, no bytes, or 0.
/// The texts are those of the table.
#[derive(Clone, Copy)]
pub struct Address<'a> {
    pub kind: AddressKind,
    /// The class in which a member stands.
    pub owner: Option<Id>,
    /// The bytes of the package of a class; the unnamed package has none.
    pub package: &'a [u8],
    /// The bytes of the name of a class, a field or a method.
    pub name: &'a [u8],
    /// How many parameters a method or a constructor has.
    pub arity: usize,
}

impl Address<'_> {
    /// How two addresses compare, in a total order: by their kinds, and then by class, package, name and number of parameters; texts by
    /// their bytes. They are equal exactly where they are one address. It takes no memory.
    pub fn compare(&self, latter: &Address<'_>) -> Ordering
        ensures { result ≡ key_cmp (key_of self.now) (key_of latter.now) }
    {
        match self
            .kind
            .cmp(&latter.kind)
            .then(self.owner.cmp(&latter.owner))
        {
            Ordering::Equal => self.compare_names(latter),
            order => order,
        }
    }

    /// How they compare by package, name and number of parameters.
    fn compare_names(&self, latter: &Address<'_>) -> Ordering
        ensures { result ≡ names_cmp (key_of self.now) (key_of latter.now) }
    {
        match self
            .package
            .cmp(&latter.package)
            .then(self.name.cmp(&latter.name))
        {
            Ordering::Equal => self.arity.cmp(&latter.arity),
            order => order,
        }
    }
}
