//! Parameters of one name.
ghost use Rattle.std.specs.Prelude.{◌≡◌, map};
ghost use Rattle.std.specs.List.{list_any};
ghost use Rattle.std.specs.Str.{bytes_eq};
ghost use Rattle.mol_resolve_faults.specs.First.{all_noted};
ghost use Rattle.mol_resolve_rules.specs.ReadFiles.{is_repeated, repeated_faults};

use jav_tree::Param;
use mol_base::Text;
use mol_resolve_faults::{FaultKind, FirstFault};

/// Notes that two of the parameters of a declaration, which begins at this place in its file, have one name (JLS 8.4.1). It takes no
/// memory. Each is compared with those after it; there are 255 at most.
pub fn note_repeated(faults: &mut FirstFault, at: u32, params: &[Param])
    ensures { faults.new ≡ all_noted faults.old (repeated_faults at params.now) }
{
    if is_repeated(params) {
        faults.note(FaultKind::Redeclared, at);
    }
}

/// Whether two parameters have one name.
fn is_repeated(params: &[Param]) -> bool
    ensures { result ≡ is_repeated (map (λ param. param.name) params.now) }
{
    match params {
        [] => false,
        [first, rest @ ..] => has_name(rest, &first.name) || is_repeated(rest),
    }
}

/// Whether one of these parameters has this name.
fn has_name(params: &[Param], name: &Text) -> bool
    ensures { result ≡ list_any (λ param. bytes_eq name.now param.name) params.now }
{
    params.iter().any(|param| *name == param.name)
}
