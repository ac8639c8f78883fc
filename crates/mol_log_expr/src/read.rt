//! Whole lists of words.
ghost use Rattle.std.specs.Prelude.{[]};
ghost use Rattle.mol_base.specs.Limits.{most};
ghost use Rattle.mol_base.specs.declared.limit.Which.TheVariants.{Height};
ghost use Rattle.mol_log_expr.specs.Expressions.{IsExpr};
ghost use Rattle.mol_log_expr.specs.declared.expr_role.ExprRole.{ExprRole as Role};
ghost use Rattle.mol_log_words.specs.Reads.{IsReading};

use crate::expr_role::ExprRole;
use crate::read_exprs::expr;
use crate::scope::Scope;
use mol_base::Text;
use mol_log_words::{BadWord, Cursor, whole};
use mol_values_types::IExpr;
use std::alloc::Global;

/// The greatest height of a body, and of the first value of a field.
pub const MAX_HEIGHT: u32 = 500;

/// The first value of a field that the words spell: at most 500 high, without local variables. `BadWord::Bad`
/// has a place among the words, from 0: that of the first word with which they are no longer the front of such
/// an expression, or how many they are where they are but a front of one.
pub fn read_expr(alloc: Global, words: &[Text]) -> Result<IExpr, BadWord>
    ensures { IsReading (IsExpr Role.First (most Height) []) words.now result }
{
    let scope = Scope::new(alloc);
    let mut cursor = Cursor::new(words);
    let read = expr(alloc, &mut cursor, ExprRole::First, MAX_HEIGHT, &scope);
    whole(read, words.len(), cursor.left())
}
