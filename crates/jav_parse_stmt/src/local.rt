//! Variables of declarations (JLS 8.3, 14.4).
ghost use Rattle.std.specs.Prelude.{◌≡◌, ◌≤◌, IfOk};
ghost use Rattle.jav_lex.specs.Token.{seen};
ghost use Rattle.jav_parse_stmt.specs.LocalRules as spec;
ghost use Rattle.jav_parse_expr.specs.Nests.{IsLimited};
ghost use Rattle.jav_parse_cursor.specs.Reads.{Reads};

use jav_lex::Token;
use jav_parse_cursor::limits::Limits;
use jav_parse_cursor::sort::Sort;
use jav_parse_cursor::stop::Stop;
use jav_parse_cursor::tall::Tall;
use jav_parse_cursor::tokens::Tokens;
use jav_parse_expr::expr::expr;
use jav_parse_expr::primary::Goal;
use jav_tree::{Declarator, Expr};
use mol_base::{Boxed, List, OutOfMemory, Text};

/// A variable of a declaration, and where its name starts.
#[derive(Drop)]
pub struct Variable {
    pub at: u32,
    pub name: Text,
    pub init: Option<Boxed<Expr>>,
}

/// Variables of a declaration, and the height of the highest first value: 0 where there is none.
#[derive(Drop)]
pub struct VariableList {
    pub items: List<Variable>,
    pub height: usize,
}

/// The variables and one more, without a first value.
fn alone(limits: Limits, all: VariableList, name: &Token) -> Result<VariableList, OutOfMemory>
    ensures { IfOk result (λ y. y ≡ spec.alone all (seen name.now)) }
{
    let VariableList { mut items, height } = all;
    items.add(Variable {
        at: name.start,
        name: name.text.copy(limits.alloc)?,
        init: None,
    })?;
    Ok(VariableList { items, height })
}

/// The variables and one more, with a first value.
fn valued(
    limits: Limits,
    all: VariableList,
    name: &Token,
    x: Tall,
) -> Result<VariableList, OutOfMemory>
    ensures { IfOk result (λ y. y ≡ spec.valued all (seen name.now) x) }
{
    let VariableList { mut items, height } = all;
    let Tall {
        expr,
        height: own,
        ..
    } = x;
    items.add(Variable {
        at: name.start,
        name: name.text.copy(limits.alloc)?,
        init: Some(expr),
    })?;
    Ok(VariableList {
        items,
        height: height.max(own),
    })
}

/// A variable after its name, added to those before it. Its first value is at most `top` high.
#[tactic(auto, unfolding(crate::specs::LocalRules::with_variable))]
fn with_variable(
    limits: Limits,
    tokens: &mut Tokens<'_>,
    top: usize,
    all: VariableList,
    name: &Token,
) -> Result<VariableList, Stop>
    requires limited { IsLimited limits top }
    requires height { all.height ≤ top }
    ensures reads { Reads (spec.with_variable limits top all (seen name.now) tokens.old) result tokens.new }
    ensures low { IfOk result (λ y. y.height ≤ top) }
{
    if !tokens.is(Sort::Equals) {
        return Ok(alone(limits, all, name)?);
    }
    if top == 0 {
        return Err(Stop::Bad);
    }
    tokens.take()?;
    let x = expr(limits, tokens, top, Goal::Init)?;
    Ok(valued(limits, all, name, x)?)
}

/// Further variables, each after a comma.
fn further_variables(
    limits: Limits,
    tokens: &mut Tokens<'_>,
    top: usize,
    first: VariableList,
) -> Result<VariableList, Stop>
    requires limited { IsLimited limits top }
    requires height { first.height ≤ top }
    ensures reads { Reads (spec.further_variables limits top limits.turns first tokens.old) result tokens.new }
    ensures low { IfOk result (λ y. y.height ≤ top) }
{
    let mut all = first;
    for _turn in 0..limits.turns {
        if !tokens.is(Sort::Comma) {
            return Ok(all);
        }
        tokens.take()?;
        let name = tokens.expect(Sort::Name)?;
        all = with_variable(limits, tokens, top, all, name)?;
    }
    Err(Stop::Bad)
}

/// Variables with commas between them, after the first name.
#[tactic(auto, unfolding(crate::specs::LocalRules::variables))]
pub fn variables(
    limits: Limits,
    tokens: &mut Tokens<'_>,
    top: usize,
    name: &Token,
) -> Result<VariableList, Stop>
    requires { IsLimited limits top }
    ensures reads { Reads (spec.variables limits top (seen name.now) tokens.old) result tokens.new }
    ensures low { IfOk result (λ y. y.height ≤ top) }
{
    let none = VariableList {
        items: List::new(limits.alloc),
        height: 0,
    };
    let first = with_variable(limits, tokens, top, none, name)?;
    further_variables(limits, tokens, top, first)
}

/// The variables without their places.
pub fn declarators(
    limits: Limits,
    variables: List<Variable>,
) -> Result<List<Declarator>, OutOfMemory>
    ensures { IfOk result (λ all. all ≡ spec.declarators variables) }
{
    let mut all = List::new(limits.alloc);
    for Variable { name, init, .. } in variables.into_vec() {
        all.add(Declarator {
            name,
            init: init.map(Boxed::into_inner),
        })?;
    }
    Ok(all)
}
