//! A text that grows at its end.
ghost use Rattle.std.specs.Prelude.{◌≡◌, ◌++◌, [], OnOk};
ghost use Rattle.jav_tree.specs.Lines as lines;

use mol_base::{List, OutOfMemory};
use std::alloc::Global;
use std::marker::Model;

/// What was printed so far. Contracts see the list of its bytes.
#[derive(Drop)]
pub struct Page {
    text: String,
}

impl Model for Page {
    ghost use Rattle.std.specs.Prelude.{List, ℕ, string_bytes};
    ghost use Rattle.std.specs.Coded.{coded_list, coded_ℕ};

    ghost Value = { List ℕ };

    ghost coded = { coded_list coded_ℕ };

    ghost view = { λ page. string_bytes page.text };
}

impl Page {
    /// The empty page. It takes no memory.
    pub fn new(alloc: Global) -> Page
        ensures { result ≡ [] }
    {
        Page {
            text: String::new(alloc),
        }
    }

    /// Appends a text.
    pub fn put(&mut self, text: &str) -> Result<(), OutOfMemory>
        ensures { OnOk result (self.new ≡ self.old ++ text.now) }
    {
        self.text.push_str(text)?;
        Ok(())
    }

    /// Appends four spaces for each level.
    pub fn indent(&mut self, depth: usize) -> Result<(), OutOfMemory>
        ensures { OnOk result (self.new ≡ self.old ++ lines.indent depth) }
    {
        for _level in 0..depth {
            self.put("    ")?;
        }
        Ok(())
    }

    /// The bytes. It takes no memory.
    pub fn into_bytes(self) -> List<u8>
        ensures { result ≡ self }
    {
        let Page { text } = self;
        List::from_vec(text.into_bytes())
    }
}
