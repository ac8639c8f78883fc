//! Parameters, read with their types.
ghost use Rattle.std.specs.Prelude.{◌≡◌, IfOk, option_map};
ghost use Rattle.std.specs.Option.{option_zip};
ghost use Rattle.mol_resolve_readings.specs.meant.Kept.{view_reading};
ghost use Rattle.mol_resolve_entities.specs.member_entities.Headings.{all_read, listed_as, params_read, put_last};
ghost use Rattle.mol_resolve_readings.specs.reads.Reads.{Reads};

use jav_tree::Param as NamedParam;
use mol_base::{Id, List, OutOfMemory};
use mol_resolve_entities::{listed, note_repeated};
use mol_resolve_faults::FirstFault;
use mol_resolve_readings::{Names, ReadType};
use mol_values_types::Param;
use std::alloc::Global;

/// The parameters of a declaration, which begins at this place in its file, in bytes from 0. One identity is given for each of them, in
/// the same order; parameters or identities that are over are left out of the list. `None` where the type of a parameter reads as
/// nothing, which is noted; that two have one name is noted after the types. `Err` is want of memory; of `faults` nothing is said then.
/// The time is that of reading the types, and of comparing each name with those after it.
pub fn read_params<N: Names>(
    alloc: Global,
    names: &N,
    faults: &mut FirstFault,
    at: u32,
    ids: &[Id],
    params: &[NamedParam],
) -> Result<Option<List<Param>>, OutOfMemory>
    ensures { IfOk result (λ list. Reads (params_read ids.now (N.reader names.now) at params.now) list faults.old faults.new) }
{
    let list = read_all(alloc, names, faults, at, ids, params)?;
    note_repeated(faults, at, params);
    Ok(list)
}

/// Parameters with their types, one after the other; `None` where the type of one has no meaning. Parameters or identities that are
/// over are not read.
fn read_all<N: Names>(
    alloc: Global,
    names: &N,
    faults: &mut FirstFault,
    at: u32,
    ids: &[Id],
    params: &[NamedParam],
) -> Result<Option<List<Param>>, OutOfMemory>
    ensures { IfOk result (λ list. Reads (all_read ids.now (N.reader names.now) at params.now) list faults.old faults.new) }
{
    let room = List::with_capacity(alloc, params.len())?;
    let mut list = Some(room);
    for (id, param) in ids.iter().zip(params) {
        let read = names.read_type(alloc, faults, at, &param.ty)?;
        list = one_more(alloc, list, *id, param, read)?;
    }
    Ok(list)
}

/// One more parameter after others, where its type is read.
fn one_more(
    alloc: Global,
    list: Option<List<Param>>,
    id: Id,
    param: &NamedParam,
    read: Option<ReadType>,
) -> Result<Option<List<Param>>, OutOfMemory>
    ensures { IfOk result (λ longer. longer
        ≡ option_map put_last (option_zip list (option_map (listed_as id param.now) (view_reading read)))) }
{
    let Some(mut list) = list else {
        return Ok(None);
    };
    let Some(read) = read else {
        return Ok(None);
    };
    list.add(listed(alloc, id, param, read.tree)?)?;
    Ok(Some(list))
}
