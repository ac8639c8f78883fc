//! Classes that declare members.
ghost use Rattle.std.specs.Prelude.{◌≡◌};
ghost use Rattle.mol_scope_members.specs.declaring.Owners.{naming_cmp, naming_of, path_cmp, path_of, place_cmp};

use mol_base::Id;
use mol_scope_classes::Position;
use std::cmp::Ordering;

/// A class that declares a field or a method, with the name and the number of parameters of this. Fields have no parameters.
#[derive(Clone, Copy)]
pub(crate) struct Owner<'a> {
    pub arity: usize,
    /// The bytes of the name.
    pub name: &'a [u8],
    pub class: Id,
}

/// Such a class with its position.
#[derive(Clone, Copy)]
pub(crate) struct PlacedOwner<'a> {
    pub arity: usize,
    pub name: &'a [u8],
    pub class: Id,
    pub position: Position,
}

impl PlacedOwner<'_> {
    /// How two compare: by number of parameters, by name, and by where their classes stand.
    pub fn compare(&self, latter: &PlacedOwner<'_>) -> Ordering
        ensures { result ≡ place_cmp self.now latter.now }
    {
        match self.compare_path(latter) {
            Ordering::Equal => self.position.depth.cmp(&latter.position.depth),
            order => order,
        }
    }

    /// How they compare but for the places of their classes on one path.
    pub fn compare_path(&self, latter: &PlacedOwner<'_>) -> Ordering
        ensures { result ≡ path_cmp (path_of self.now) (path_of latter.now) }
    {
        match self.compare_naming(latter.arity, latter.name) {
            Ordering::Equal => self.position.top.cmp(&latter.position.top),
            order => order,
        }
    }

    /// How its member compares with this number of parameters and the bytes of this name.
    pub fn compare_naming(&self, arity: usize, name: &[u8]) -> Ordering
        ensures { result ≡ naming_cmp (naming_of self.now) (record { arity = arity; name = name.now }) }
    {
        self.arity.cmp(&arity).then(self.name.cmp(name))
    }
}
