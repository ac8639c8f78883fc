//! Whole lists of tokens, and their faults, by the grammar.
ghost use Rattle.std.specs.Prelude.{◌≡◌, ◌⊎◌, IfOk, List as Items};
ghost use Rattle.jav_lex.specs.Token.{all_seen};
ghost use Rattle.jav_tree.specs.declared.expr.Expr.{Expr as ExprTree};
ghost use Rattle.jav_tree.specs.declared.stmt.Block.{Block as BlockTree};
ghost use Rattle.jav_tree.specs.declared.types.TypeName.{TypeName as TypeTree};
ghost use Rattle.jav_tree.specs.declared.unit.Member.{Member as MemberTree};
ghost use Rattle.jav_tree.specs.declared.unit.Unit.{Unit as UnitTree};
ghost use Rattle.jav_tree.specs.Trees.{IsUnit, IsMember, IsBody, IsExpr, IsType};
ghost use Rattle.jav_parse_unit.specs.declared.fault.ParseFault.{ParseFault as Fault};
ghost use Rattle.jav_parse_unit.specs.BadToken as bad_token;
ghost use Rattle.jav_parse_unit.specs.BadToken.{most_items, most_height, IsFault};

use jav_lex::Token;
use jav_parse_unit::{ParseFault, read_body, read_expr, read_member, read_type, read_unit};
use jav_tree::{Block, Expr, Member, TypeName, Unit};
use mol_base::List;
use std::alloc::Global;

/// Reads the tokens of a source file (JLS 7.3): the one tree that the grammar gives them with no part higher than 500 and
/// no more than 255 parameters, arguments or pairs of brackets in one place. The imports of the tree ascend by bytes.
///
/// A fault has the byte at which the first bad token starts, the first such that no tree within these limits begins with
/// the tokens up to it and with it; or, where they end too early, the byte at which the last one ends, 0 without tokens.
/// It is the first that holds of: a comment out of place, too deep, too many, a part of Java that is left out, something
/// else expected. Want of memory is answered as such. The time is linear in the tokens, but for sorting the imports.
pub fn parse(alloc: Global, tokens: &[Token]) -> Result<Unit, ParseFault>
    // What is answered is the tree of the tokens.
    ensures tree { IfOk result (λ u. IsUnit most_items most_height u (all_seen tokens.now)) }
    // The tree of the tokens is answered, unless memory runs out.
    ensures only { (u : UnitTree) → IsUnit most_items most_height u (all_seen tokens.now) → (result ≡ Ok u) ⊎ (result ≡ Err ParseFault.OutOfMemory) }
    // Any other fault is that of the first bad token, or of tokens that end too early.
    ensures bad { (f : Fault) → result ≡ Err f → (f ≡ ParseFault.OutOfMemory) ⊎ IsFault bad_token.units (all_seen tokens.now) f }
{
    read_unit(alloc, tokens)
}

/// Reads the tokens of one declaration in a class, with the comments before it (JLS 8.3, 8.4, 8.8): its fields, or a method,
/// or a constructor, which may have any name. Limits and faults are those of `parse`.
pub fn parse_member(alloc: Global, tokens: &[Token]) -> Result<List<Member>, ParseFault>
    ensures tree { IfOk result (λ ms. IsMember most_items most_height ms (all_seen tokens.now)) }
    ensures only { (ms : Items MemberTree) → IsMember most_items most_height ms (all_seen tokens.now) → (result ≡ Ok ms) ⊎ (result ≡ Err ParseFault.OutOfMemory) }
    ensures bad { (f : Fault) → result ≡ Err f → (f ≡ ParseFault.OutOfMemory) ⊎ IsFault bad_token.members (all_seen tokens.now) f }
{
    read_member(alloc, tokens)
}

/// Reads the tokens of the block of a method or constructor, braces included (JLS 14.2, 8.8.7): it may begin with
/// `super(..)`. Limits and faults are those of `parse`.
pub fn parse_body(alloc: Global, tokens: &[Token]) -> Result<Block, ParseFault>
    ensures tree { IfOk result (λ b. IsBody most_items most_height b (all_seen tokens.now)) }
    ensures only { (b : BlockTree) → IsBody most_items most_height b (all_seen tokens.now) → (result ≡ Ok b) ⊎ (result ≡ Err ParseFault.OutOfMemory) }
    ensures bad { (f : Fault) → result ≡ Err f → (f ≡ ParseFault.OutOfMemory) ⊎ IsFault bad_token.bodies (all_seen tokens.now) f }
{
    read_body(alloc, tokens)
}

/// Reads the tokens of an expression (JLS 15); items in braces are none. Limits and faults are those of `parse`.
pub fn parse_expr(alloc: Global, tokens: &[Token]) -> Result<Expr, ParseFault>
    ensures tree { IfOk result (λ e. IsExpr most_items most_height e (all_seen tokens.now)) }
    ensures only { (e : ExprTree) → IsExpr most_items most_height e (all_seen tokens.now) → (result ≡ Ok e) ⊎ (result ≡ Err ParseFault.OutOfMemory) }
    ensures bad { (f : Fault) → result ≡ Err f → (f ≡ ParseFault.OutOfMemory) ⊎ IsFault bad_token.expressions (all_seen tokens.now) f }
{
    read_expr(alloc, tokens)
}

/// Reads the tokens of a type (JLS 4); `void` is none. A type has no height; limits and faults are those of `parse`.
pub fn parse_type(alloc: Global, tokens: &[Token]) -> Result<TypeName, ParseFault>
    ensures tree { IfOk result (λ to. IsType most_items to (all_seen tokens.now)) }
    ensures only { (to : TypeTree) → IsType most_items to (all_seen tokens.now) → (result ≡ Ok to) ⊎ (result ≡ Err ParseFault.OutOfMemory) }
    ensures bad { (f : Fault) → result ≡ Err f → (f ≡ ParseFault.OutOfMemory) ⊎ IsFault bad_token.types (all_seen tokens.now) f }
{
    read_type(alloc, tokens)
}
