//! Declarations of methods.
ghost use Rattle.std.specs.Prelude.{◌≡◌};
ghost use Rattle.mol_faults_entities.specs.override_faults.Overridden.{methods_cmp};

use crate::override_faults::key::Key;
use mol_base::Id;
use std::cmp::Ordering;

/// A declaration of a method that is no constructor.
#[derive(Clone, Copy)]
pub(crate) struct Declaration<'a> {
    pub key: Key<'a>,
    /// The class in which it stands.
    pub owner: Id,
    pub method: Id,
    pub id: Id,
}

impl Declaration<'_> {
    /// How two compare by what their methods are named, and then by these.
    pub fn compare_methods(&self, latter: &Declaration<'_>) -> Ordering
        ensures { result ≡ methods_cmp self.now latter.now }
    {
        match self.key.compare_naming(&latter.key) {
            Ordering::Equal => self.method.cmp(&latter.method),
            order => order,
        }
    }
}
