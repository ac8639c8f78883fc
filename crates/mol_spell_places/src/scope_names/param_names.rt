//! The names of parameters.
ghost use Rattle.std.specs.Prelude.{◌≡◌, IfOk};
ghost use Rattle.jav_names.specs.LookUps.{first_place};
ghost use Rattle.mol_spell_places.specs.scope_names.Params.{param_names, AreFirst, AreIndexed};

use crate::scope_names::few::{FEW, first_of};
use crate::scope_names::nearest::{found_at, put_first};
use indexmap::IndexMap;
use mol_base::OutOfMemory;
use mol_values_types::Param;
use std::alloc::Global;
use std::marker::Model;

/// The names of the parameters of a method or constructor. Contracts see them in the order of the parameters.
#[derive(Drop)]
pub struct ParamNames<'a> {
    params: &'a [Param],
    /// The place of the first parameter of each name, where there are more than a few.
    first: IndexMap<&'a str, Option<usize>>,
}

impl<'a> Model for ParamNames<'a> {
    ghost use Rattle.std.specs.Coded.{coded_list, coded_ℕ};
    ghost use Rattle.jav_names.specs.DottedNames.{Names};
    ghost use Rattle.mol_spell_places.specs.scope_names.Params.{param_names, AreIndexed};

    ghost Value = { Names };

    ghost coded = { coded_list (coded_list coded_ℕ) };

    ghost view = { λ names. param_names names.params.now };

    ghost invariant = { λ names. AreIndexed names.params.now names.first.entries };
}

impl<'a> ParamNames<'a> {
    /// The names of these parameters. The time is near-linear in their number and the length of their names. `Err` is want of memory.
    pub fn new(alloc: Global, params: &'a [Param]) -> Result<ParamNames<'a>, OutOfMemory>
        ensures { IfOk result (λ names. names ≡ param_names params.now) }
    {
        let first = index_of(alloc, params)?;
        Ok(ParamNames { params, first })
    }

    /// The place of a parameter by its name, of several the first, from 0. It takes no memory, and about the same time however many there
    /// are.
    pub fn place_of(&self, name: &str) -> Option<usize>
        ensures { result ≡ first_place name.now self.now }
    {
        if self.params.len() > FEW {
            found_at(&self.first, name)
        } else {
            first_of(self.params, name)
        }
    }
}

/// The place of the first parameter of each name, where there are more than a few.
fn index_of<'a>(
    alloc: Global,
    params: &'a [Param],
) -> Result<IndexMap<&'a str, Option<usize>>, OutOfMemory>
    ensures { IfOk result (λ first. AreIndexed params.now first.entries) }
{
    if params.len() > FEW {
        first_places(alloc, params)
    } else {
        Ok(IndexMap::new(alloc))
    }
}

/// The place of the first parameter of each name.
fn first_places<'a>(
    alloc: Global,
    params: &'a [Param],
) -> Result<IndexMap<&'a str, Option<usize>>, OutOfMemory>
    ensures { IfOk result (λ first. AreFirst (param_names params.now) first.entries) }
{
    let mut first = IndexMap::new(alloc);
    for (place, param) in params.iter().enumerate() {
        put_first(&mut first, param.name.as_str(), place)?;
    }
    Ok(first)
}
