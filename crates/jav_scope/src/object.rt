//! The methods of `Object` (JLS 4.3.2).
ghost use Rattle.std.specs.Prelude.{◌≡◌, ◌==◌, ◌&&◌};
ghost use Rattle.std.specs.List.{list_any};
ghost use Rattle.std.specs.Str.{bytes_eq};
ghost use Rattle.jav_names.specs.Members.{is_object_method};

use mol_base::Text;

/// Each with the number of its parameters.
const OBJECT_METHODS: [(&[u8], u32); 11] = [
    (b"clone", 0),
    (b"equals", 1),
    (b"finalize", 0),
    (b"getClass", 0),
    (b"hashCode", 0),
    (b"notify", 0),
    (b"notifyAll", 0),
    (b"toString", 0),
    (b"wait", 0),
    (b"wait", 1),
    (b"wait", 2),
];

/// Whether `java.lang.Object` has a method of this name and number of parameters (JLS 4.3.2).
pub fn is_object_method(name: &Text, arity: u32) -> bool
    ensures { result ≡ is_object_method name.now arity }
{
    is_listed(&OBJECT_METHODS, name.bytes(), arity)
}

/// Whether a method of this name and number of parameters is one of these.
fn is_listed(methods: &[(&[u8], u32)], name: &[u8], arity: u32) -> bool
    ensures { result ≡ list_any (λ method. bytes_eq name.now method.0.now && arity == method.1) methods.now }
{
    methods
        .iter()
        .any(|method| name == method.0 && arity == method.1)
}
