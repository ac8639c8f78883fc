//! Slots of cells.
ghost use Rattle.std.specs.Prelude.{◌≡◌};
ghost use Rattle.mol_report.specs.Labels.{slot_text};

use mol_values_types::Slot;

/// The word of a slot.
pub(crate) fn slot_word(slot: &Slot) -> &'static str
    ensures { result.now ≡ slot_text slot.now }
{
    match slot {
        Slot::Live => "live",
        Slot::Package => "package",
        Slot::Owner => "owner",
        Slot::Method => "method",
        Slot::Name => "name",
        Slot::Super => "super",
        Slot::Result => "result",
        Slot::Params => "params",
        Slot::Kind => "kind",
        Slot::Fixed => "fixed",
        Slot::Words => "words",
        Slot::Notes => "notes",
        Slot::Body => "body",
        Slot::Value => "value",
    }
}
