ghost use Rattle.std.specs.Prelude.{◌≡◌, IfOk};

use mol_base::{List, OutOfMemory, Text};
use std::alloc::Global;

/// Texts that equal these.
pub fn copy_texts(alloc: Global, texts: &[Text]) -> Result<List<Text>, OutOfMemory>
    ensures { IfOk result (λ all. all ≡ texts.now) }
{
    let mut all = List::new(alloc);
    for text in texts {
        all.add(text.copy(alloc)?)?;
    }
    Ok(all)
}
