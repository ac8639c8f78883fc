//! Tags that two logs share.
ghost use Rattle.std.specs.Prelude.{◌≡◌, Option};
ghost use Rattle.std.specs.List.{list_any};
ghost use Rattle.std.specs.Str.{bytes_eq};
ghost use Rattle.mol_merge_rules.specs.TwoLogs.{least_shared as least_shared_of};

use mol_base::Tag;
use mol_log::Log;

/// The least tag that is in the headers of both logs, where there is one. It takes no memory. The time is that of looking for each tag of
/// the one among those of the other, which ascend.
pub fn least_shared(one: &Log, other: &Log) -> Option<Tag>
    ensures { result ≡ least_shared_of one.now other.now }
{
    for tag in one.tags.items() {
        if has_tag(other, tag) {
            return Some(*tag);
        }
    }
    None
}

/// Whether a tag is in the header of a log.
fn has_tag(log: &Log, tag: &Tag) -> bool
    ensures { result ≡ list_any (bytes_eq tag.now) log.now.tags }
{
    log.tags.items().binary_search(tag).is_ok()
}
