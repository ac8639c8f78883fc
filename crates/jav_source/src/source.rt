//! The tree of a source, and the places of its faults.
ghost use Rattle.std.specs.Prelude.{◌≡◌, ◌<◌, ◌≤◌, ◌^◌, ◌⊎◌, ◌+◌, length, IfOk, IfErr, Ok, Err};
ghost use Rattle.mol_base.specs.Source.{IsSource};
ghost use Rattle.jav_lex.specs.Token.{all_seen};
ghost use Rattle.jav_tree.specs.Trees.{IsUnit};
ghost use Rattle.jav_tree.specs.declared.unit.Unit.{Unit as Tree};
ghost use Rattle.jav_parse_unit.specs.BadToken.{most_items, most_height};
ghost use Rattle.mol_base.specs.Lines.{line, column};
ghost use Rattle.jav_source.specs.FaultTexts.{place};
ghost use Rattle.jav_source.specs.Sources.{IsUnitOf, IsFaultOf, FaultsAs, RefusesTokens, RefusesTree};

use crate::fault::{TextFault, UnitFault};
use jav_lex::{Token, lex};
use jav_parse::parse;
use jav_tree::Unit;
use mol_base::{List, OutOfMemory, line_and_column};
use std::alloc::Global;

/// Reads a source file: the one tree that the grammar gives its tokens within the limits of height and number.
///
/// A fault is the lexical one of least place; where the bytes have tokens, it is that of the first bad token. The time is
/// linear in the bytes, but for sorting the imports.
pub fn unit_of(alloc: Global, bytes: &[u8]) -> Result<Unit, UnitFault>
    requires { length bytes.now < 2 ^ 32 }
    // What is answered is the tree of the source.
    ensures unit { IfOk result (IsUnitOf bytes.now) }
    // The tree of the source is answered, unless memory runs out.
    ensures only { (unit : Tree) → IsUnitOf bytes.now unit → (result ≡ Ok unit) ⊎ (result ≡ Err UnitFault.OutOfMemory) }
    // Any other answer is what is wrong with the source.
    ensures fault { IfErr result (FaultsAs bytes.now) }
{
    let tokens = tokens_of(alloc, bytes)?;
    tree_of(alloc, tokens.items())
}

/// The tokens of a source.
fn tokens_of(alloc: Global, bytes: &[u8]) -> Result<List<Token>, UnitFault>
    requires { length bytes.now < 2 ^ 32 }
    ensures tokens { IfOk result (λ tokens. IsSource bytes.now (all_seen tokens)) }
    ensures fault { IfErr result (RefusesTokens bytes.now) }
{
    match lex(alloc, bytes) {
        Ok(tokens) => Ok(tokens),
        Err(fault) => Err(UnitFault::of_lexical(fault)),
    }
}

/// The tree of the tokens of a source.
fn tree_of(alloc: Global, tokens: &[Token]) -> Result<Unit, UnitFault>
    ensures tree { IfOk result (λ unit. IsUnit most_items most_height unit (all_seen tokens.now)) }
    ensures only { (unit : Tree) → IsUnit most_items most_height unit (all_seen tokens.now) → (result ≡ Ok unit) ⊎ (result ≡ Err UnitFault.OutOfMemory) }
    ensures fault { IfErr result (RefusesTree (all_seen tokens.now)) }
{
    match parse(alloc, tokens) {
        Ok(unit) => Ok(unit),
        Err(fault) => Err(UnitFault::of_syntax(fault)),
    }
}

/// The line and the column of a fault of a source. Both count from 1, the column in characters.
pub fn line_and_column_of(bytes: &[u8], fault: &TextFault) -> (u32, u32)
    requires small { length bytes.now + 1 < 2 ^ 32 }
    requires fault { IsFaultOf bytes.now fault.now }
    ensures line { result.0 ≡ line bytes.now (place fault.now) }
    ensures column { result.1 ≡ column bytes.now (place fault.now) }
{
    line_and_column(bytes, fault.at() as usize)
}
