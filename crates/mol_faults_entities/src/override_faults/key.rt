//! What declarations are sorted by.
ghost use Rattle.std.specs.Prelude.{◌≡◌};
ghost use Rattle.mol_faults_entities.specs.override_faults.Declarations.{key_cmp, key_of, naming_cmp, naming_of, path_cmp, path_of};

use mol_scope_classes::Position;
use std::cmp::Ordering;

/// The number of parameters and the name of a method, and where the class of a declaration stands.
#[derive(Clone, Copy)]
pub(crate) struct Key<'a> {
    pub arity: usize,
    /// The bytes of the name.
    pub name: &'a [u8],
    /// The position of the class on its path.
    pub position: Position,
}

impl Key<'_> {
    /// How two compare: by number of parameters, then by name, then by path, and those of one path from its first class downwards.
    pub fn compare(&self, latter: &Key<'_>) -> Ordering
        ensures { result ≡ key_cmp (key_of self.now) (key_of latter.now) }
    {
        match self.compare_path(latter) {
            Ordering::Equal => self.position.depth.cmp(&latter.position.depth),
            order => order,
        }
    }

    /// How they compare but for how far down the path.
    pub fn compare_path(&self, latter: &Key<'_>) -> Ordering
        ensures { result ≡ path_cmp (path_of (key_of self.now)) (path_of (key_of latter.now)) }
    {
        match self.compare_naming(latter) {
            Ordering::Equal => self.position.top.cmp(&latter.position.top),
            order => order,
        }
    }

    /// How they compare by number of parameters and name alone.
    pub fn compare_naming(&self, latter: &Key<'_>) -> Ordering
        ensures { result ≡ naming_cmp (naming_of (key_of self.now)) (naming_of (key_of latter.now)) }
    {
        self.arity
            .cmp(&latter.arity)
            .then(self.name.cmp(&latter.name))
    }
}
