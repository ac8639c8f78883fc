//! A log as a whole.
ghost use Rattle.mol_log.specs.LogForms.{IsLog};

use crate::entries::Entry;
use mol_base::{List, OutOfMemory, Tag};
use std::alloc::Global;

/// The operations that were recorded over one base, in their order.
#[derive(Drop)]
pub struct Log {
    /// The digest of the base (SHA-256 of its bundle).
    pub base_digest: [u8; 32],
    /// The tags of the entries' stamps: at least one, ascending by bytes. Not each need have an entry.
    pub tags: List<Tag>,
    /// At most 65,535. Each stamp has one of the tags, and the numbers of one tag ascend.
    pub entries: List<Entry>,
    pub ghost formed: { ∥ IsLog tags entries ∥₁ },
}

impl Log {
    ghost use Rattle.std.specs.Prelude.{◌≡◌, ◌<◌, [], ◌∷◌, IfOk, length};

    /// A log of one tag without entries. The tag is not that of a base. `Err` is want of memory.
    pub fn empty(alloc: Global, base_digest: [u8; 32], tag: Tag) -> Result<Log, OutOfMemory>
        requires { 0 < length tag }
        ensures digest { IfOk result (λ log. log.base_digest ≡ base_digest) }
        ensures tags { IfOk result (λ log. log.tags ≡ tag ∷ []) }
        ensures entries { IfOk result (λ log. log.entries ≡ []) }
    {
        // That a tag has the bytes of one is what this call says.
        let _ = tag.bytes();
        let mut tags = List::new(alloc);
        tags.add(tag)?;
        Ok(Log {
            base_digest,
            tags,
            entries: List::new(alloc),
        })
    }
}
