//! Whole texts.
ghost use Rattle.std.specs.Prelude.{◌≡◌, IfOk};
ghost use Rattle.jav_print_laws.specs.layout.ParsesBack.{BodyBack, TypeBack, UnitBack};
ghost use Rattle.jav_tree.specs.Layout.{body_alone, unit_text};
ghost use Rattle.jav_tree.specs.TypeText.{type_text};

use crate::page::Page;
use jav_tree::{Block, TypeName, Unit};
use mol_base::{List, OutOfMemory};
use std::alloc::Global;

/// The text of a source file in the one layout. The time is linear in the tree and its text. It parses back
/// where the tree is printable. `Err` is want of memory.
#[tactic(auto, using(crate::proofs::Printings::unit_back))]
pub fn print(alloc: Global, unit: &Unit) -> Result<List<u8>, OutOfMemory>
    ensures same { IfOk result (λ text. text ≡ unit_text unit.now) }
    ensures back { IfOk result (λ text. UnitBack text unit.now) }
{
    let mut page = Page::new(alloc);
    page.unit(unit)?;
    Ok(page.into_bytes())
}

/// The text of a body by itself: at the left margin, without a line end after its last brace.
/// `Err` is want of memory.
#[tactic(auto, using(crate::proofs::Printings::body_back))]
pub fn print_body(alloc: Global, body: &Block) -> Result<List<u8>, OutOfMemory>
    ensures same { IfOk result (λ text. text ≡ body_alone body.now) }
    ensures back { IfOk result (λ text. BodyBack text body.now) }
{
    let mut page = Page::new(alloc);
    page.block(0, body)?;
    Ok(page.into_bytes())
}

/// The text of a type. `Err` is want of memory.
#[tactic(auto, using(crate::proofs::Printings::type_back))]
pub fn print_type(alloc: Global, ty: &TypeName) -> Result<List<u8>, OutOfMemory>
    ensures same { IfOk result (λ text. text ≡ type_text ty.now) }
    ensures back { IfOk result (λ text. TypeBack text ty.now) }
{
    let mut page = Page::new(alloc);
    page.type_name(ty)?;
    Ok(page.into_bytes())
}
