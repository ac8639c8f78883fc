//! A source file that is printed, and read from its text.
ghost use Rattle.std.specs.Prelude.{Err, IfOk, ◌≡◌, ◌≢◌};
ghost use Rattle.jav_parse_unit.specs.BadToken.{most_height, most_items};
ghost use Rattle.jav_tree.specs.Parens.{unit_without_parens};
ghost use Rattle.jav_tree.specs.Places.{SameUnit};
ghost use Rattle.jav_tree.specs.Printable.{IsPrintable, IsWithinLimits};
ghost use Rattle.jav_tree.specs.WithParens.{unit_with_parens};

use jav_lex::{LexFault, lex};
use jav_parse::parse;
use jav_parse_unit::ParseFault;
use jav_print::print;
use jav_tree::Unit;
use std::alloc::Global;

/// Why no tree was read.
#[derive(Clone, Copy, Debug, PartialEq, Eq)]
pub enum Unread {
    OutOfMemory,
    /// The text has 4 GiB or more.
    TooLong,
    /// The text is no source file.
    Refused,
}

fn of_lex(fault: LexFault) -> Unread
    ensures { result ≡ Unread.Refused → fault ≢ LexFault.OutOfMemory }
{
    match fault {
        LexFault::OutOfMemory => Unread::OutOfMemory,
        _ => Unread::Refused,
    }
}

fn of_parse(fault: ParseFault) -> Unread
    ensures { result ≡ Unread.Refused → fault ≢ ParseFault.OutOfMemory }
{
    match fault {
        ParseFault::OutOfMemory => Unread::OutOfMemory,
        _ => Unread::Refused,
    }
}

/// The tree that is read from the text of a tree. Of a printable one within the limits as printed it is the tree as
/// printed, but for places, so without parentheses it is that tree; and no such text is refused.
pub fn read_again(alloc: Global, unit: &Unit) -> Result<Unit, Unread>
    ensures same { IsPrintable unit.now → IsWithinLimits most_items most_height unit.now → IfOk result (λ u. SameUnit u (unit_with_parens unit.now)) }
    ensures dropped { IsPrintable unit.now → IsWithinLimits most_items most_height unit.now → IfOk result (λ u. SameUnit (unit_without_parens u) (unit_without_parens unit.now)) }
    ensures read { IsPrintable unit.now → IsWithinLimits most_items most_height unit.now → result ≢ Err Unread.Refused }
{
    let text = match print(alloc, unit) {
        Ok(text) => text,
        Err(_) => return Err(Unread::OutOfMemory),
    };
    if text.items().len() >= 4_294_967_296 {
        return Err(Unread::TooLong);
    }
    let tokens = match lex(alloc, text.items()) {
        Ok(tokens) => tokens,
        Err(fault) => return Err(of_lex(fault)),
    };
    match parse(alloc, tokens.items()) {
        Ok(u) => Ok(u),
        Err(fault) => Err(of_parse(fault)),
    }
}
