//! The order in which two logs are taken.
ghost use Rattle.std.specs.Prelude.{◌≡◌};
ghost use Rattle.mol_merge_rules.specs.TwoLogs.{comes_first as comes_first_of, first_tag as first_tag_of};

use mol_base::Tag;
use mol_log::Log;

/// Whether the first tag of a log is less than that of another one, by bytes. Logs that share no tag have a first one of the two. It takes
/// no memory.
pub fn comes_first(one: &Log, other: &Log) -> bool
    ensures { result ≡ comes_first_of one.now other.now }
{
    first_tag(one).cmp(&first_tag(other)).is_lt()
}

/// The first tag of a log.
fn first_tag(log: &Log) -> Tag
    ensures { result ≡ first_tag_of log.now }
{
    match log.tags.items() {
        [tag, ..] => *tag,
        // A log has a tag.
        [] => Tag::base(),
    }
}
