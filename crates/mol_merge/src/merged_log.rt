//! The log of two logs.
ghost use Rattle.std.specs.Prelude.{◌≡◌, ◌≤◌, ◌++◌, IfOk, OnOk, length};
ghost use Rattle.mol_base.specs.Limits.{most};
ghost use Rattle.mol_base.specs.Order.{tag_cmp};
ghost use Rattle.mol_base.specs.declared.limit.Which.TheVariants.{Operations};
ghost use Rattle.mol_merge.specs.MergedLogs.{MergedReplays};
ghost use Rattle.mol_merge_rules.specs.TwoLogs.{IsMergedLog, ShareNoTag};
ghost use Rattle.mol_spell_rules.specs.Sets.{as_set};

use mol_base::{List, OutOfMemory, Tag, in_order};
use mol_log::{Entry, Log};
use std::alloc::Global;

/// The law of the merged log: where nothing in two logs conflicts that replay on one base, their merged log replays on it to the program
/// that both leave together. The call computes nothing.
#[tactic(auto, using(crate::proofs::Replayed::merged_replays))]
pub fn merged_replays()
    ensures { MergedReplays }
{}

/// The log of two that share no tag, and of which there may be one by the number of their entries: all tags, and the entries of the one
/// before those of the other. `Err` is want of memory.
pub fn merged_log(alloc: Global, one: &Log, other: &Log) -> Result<Log, OutOfMemory>
    requires apart { ShareNoTag one.now other.now }
    requires few { length (one.now.entries ++ other.now.entries) ≤ most Operations }
    ensures { IfOk result (IsMergedLog one.now other.now) }
{
    let tags = all_tags(alloc, one.tags.items(), other.tags.items())?;
    let entries = all_entries(alloc, one.entries.items(), other.entries.items())?;
    Ok(Log {
        base_digest: one.base_digest,
        tags,
        entries,
    })
}

/// All these tags in order, each once.
fn all_tags(alloc: Global, one: &[Tag], other: &[Tag]) -> Result<List<Tag>, OutOfMemory>
    ensures { IfOk result (λ tags. tags ≡ as_set tag_cmp (one.now ++ other.now)) }
{
    let mut tags = Vec::from_slice(alloc, one)?;
    tags.extend_from_slice(other)?;
    Ok(List::from_vec(in_order(tags)))
}

/// Copies of all these entries, in their order.
fn all_entries(alloc: Global, one: &[Entry], other: &[Entry]) -> Result<List<Entry>, OutOfMemory>
    ensures { IfOk result (λ all. all ≡ one.now ++ other.now) }
{
    let mut all = List::new(alloc);
    add_entries(alloc, &mut all, one)?;
    add_entries(alloc, &mut all, other)?;
    Ok(all)
}

/// Adds copies of these entries at the end.
fn add_entries(alloc: Global, all: &mut List<Entry>, added: &[Entry]) -> Result<(), OutOfMemory>
    ensures { OnOk result (all.new ≡ all.old ++ added.now) }
{
    for entry in added {
        all.add(entry.copy(alloc)?)?;
    }
    Ok(())
}
