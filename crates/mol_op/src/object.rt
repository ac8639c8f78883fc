//! The methods of `java.lang.Object`.
ghost use Rattle.std.specs.Prelude.{◌≡◌, ◌==◌, ◌&&◌};
ghost use Rattle.std.specs.List.{list_any};
ghost use Rattle.std.specs.Str.{bytes_eq};
ghost use Rattle.jav_names.specs.Members.{is_object_method};

/// The name and the number of parameters of each (JLS 4.3.2).
const OF_OBJECT: [(&[u8], usize); 11] = [
    (b"clone", 0),
    (b"equals", 1),
    (b"finalize", 0),
    (b"getClass", 0),
    (b"hashCode", 0),
    (b"notify", 0),
    (b"notifyAll", 0),
    (b"toString", 0),
    (b"wait", 0),
    (b"wait", 1),
    (b"wait", 2),
];

/// Whether a method of `java.lang.Object` has this name and this number of parameters. It takes no memory.
pub fn is_of_object(name: &[u8], arity: usize) -> bool
    ensures { result ≡ is_object_method name.now arity }
{
    is_among(&OF_OBJECT, name, arity)
}

/// Whether one of the methods has this name and this number of parameters.
fn is_among(methods: &[(&[u8], usize)], name: &[u8], arity: usize) -> bool
    ensures { result ≡ list_any (λ method. bytes_eq name.now method.0.now && arity == method.1) methods.now }
{
    methods
        .iter()
        .any(|method| name == method.0 && arity == method.1)
}
