//! Classes whose full names are packages.
ghost use Rattle.std.specs.Prelude.{◌≡◌, IfOk, map, nat_eq};
ghost use Rattle.std.specs.Cmp.Lexicographic.{slice_cmp};
ghost use Rattle.std.specs.List.{list_any, starts_with};
ghost use Rattle.std.specs.List.Sorted.{IsPermutation, IsSorted};
ghost use Rattle.std.specs.Ordering.{nat_cmp};
ghost use Rattle.mol_resolve_classes.specs.headers.Headers.{failing};
ghost use Rattle.mol_resolve_classes.specs.headers.Packages.{begins, dotted_name, dotted_package};
ghost use Rattle.mol_resolve_rules.specs.FaultKinds as kind;

use jav_scope::SourceUnit;
use mol_base::{OutOfMemory, Text};
use std::alloc::Global;

/// Of each class of source files whether its full name is the package of a class, or such a package begins with it and a dot
/// (JLS 7.1). The time is that of sorting the packages, and of a look-up among them for each class. `Err` is want of memory.
pub fn packages(alloc: Global, sources: &[SourceUnit]) -> Result<Vec<bool>, OutOfMemory>
    ensures { IfOk result (λ packages. packages.items ≡ failing kind.package_is_class sources.now) }
{
    let sorted = sorted_packages(alloc, sources)?;
    let mut packages = Vec::new(alloc);
    for source in sources {
        let name = dotted_name(alloc, source)?;
        packages.push(any_begins(sorted.as_slice(), name.bytes()))?;
    }
    Ok(packages)
}

/// The packages of source files in the order of their bytes, each with a dot behind it.
fn sorted_packages(alloc: Global, sources: &[SourceUnit]) -> Result<Vec<Text>, OutOfMemory>
    ensures sorted { IfOk result (λ packages. IsSorted (slice_cmp nat_cmp) packages.items) }
    ensures packages { IfOk result (λ packages. IsPermutation (map dotted_package sources.now) packages.items) }
{
    let mut packages = dotted_packages(alloc, sources)?;
    packages.sort_unstable();
    Ok(packages)
}

/// The package of each file, with a dot behind it.
fn dotted_packages(alloc: Global, sources: &[SourceUnit]) -> Result<Vec<Text>, OutOfMemory>
    ensures { IfOk result (λ packages. packages.items ≡ map dotted_package sources.now) }
{
    let mut packages = Vec::new(alloc);
    for source in sources {
        packages.push(dotted_package(alloc, source)?)?;
    }
    Ok(packages)
}

/// The package of a file, with a dot behind it.
fn dotted_package(alloc: Global, source: &SourceUnit) -> Result<Text, OutOfMemory>
    ensures { IfOk result (λ text. text ≡ dotted_package source.now) }
{
    let mut text = String::from_str(alloc, source.unit.package.as_str())?;
    text.push_str(".")?;
    Ok(Text::from_string(text))
}

/// The full name of the class of a file, with a dot behind it.
fn dotted_name(alloc: Global, source: &SourceUnit) -> Result<Text, OutOfMemory>
    ensures { IfOk result (λ text. text ≡ dotted_name source.now) }
{
    let unit = &source.unit;
    let mut text = String::from_str(alloc, unit.package.as_str())?;
    text.push_str(".")?;
    text.push_str(unit.class.name.as_str())?;
    text.push_str(".")?;
    Ok(Text::from_string(text))
}

/// Whether one of these texts begins so, which stand in the order of their bytes. The time is logarithmic in their number.
fn any_begins(sorted: &[Text], front: &[u8]) -> bool
    requires { IsSorted (slice_cmp nat_cmp) sorted.now }
    ensures { result ≡ list_any (begins front.now) sorted.now }
{
    let place = sorted.partition_point(|text| text.bytes().cmp(&front).is_lt());
    match sorted.get(place) {
        Some(text) => text.bytes().starts_with(front),
        None => false,
    }
}
