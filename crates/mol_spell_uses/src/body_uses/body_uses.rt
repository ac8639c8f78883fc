//! Where the uses of bodies are gathered.
ghost use Rattle.std.specs.Prelude.{◌≡◌, ◌++◌, OnOk};
ghost use Rattle.mol_spell_uses.specs.body_uses.PartUses.{body_uses};

use crate::uses::Uses;
use mol_base::OutOfMemory;
use mol_spell_places::{BodyLocals, Places};
use mol_values_types::IBody;
use std::alloc::Global;

/// Where bodies of a program are written. `Err` of its calls is want of memory.
#[derive(Clone, Copy)]
pub struct BodyUses<'p, P> {
    pub alloc: Global,
    pub places: &'p P,
}

impl<P: Places> BodyUses<'_, P> {
    /// Adds what the names of a body use, in the order in which they print. No tree is made. The time is linear in its size, but for what
    /// names cost.
    pub fn add_body(&self, uses: &mut Uses, body: &IBody) -> Result<(), OutOfMemory>
        ensures { OnOk result (uses.new ≡ uses.old ++ body_uses (P.writer self.now.places.now) body.now) }
    {
        let mut locals = BodyLocals::new(self.alloc);
        self.add_block(uses, &mut locals, &body.block)
    }
}
