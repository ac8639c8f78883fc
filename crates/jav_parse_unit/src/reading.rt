//! Whole lists of tokens, and their faults.
ghost use Rattle.std.specs.Prelude.{◌≡◌, ◌⊎◌, true, IfOk};
ghost use Rattle.jav_lex.specs.Token.{seen, all_seen};
ghost use Rattle.jav_parse_unit.specs.BadToken as bad_token;
ghost use Rattle.jav_parse_unit.specs.BadToken.{most_items, most_height};
ghost use Rattle.jav_parse_expr.specs.Nests.{IsLimited};
ghost use Rattle.jav_parse_cursor.specs.Reading.{Outcome};
ghost use Rattle.jav_parse_cursor.specs.Reads.{Reads};
ghost use Rattle.jav_parse_cursor.specs.TypeRules as types;
ghost use Rattle.jav_parse_unit.specs.UnitRules as units;
ghost use Rattle.jav_parse_unit.specs.WholeRules as spec;

use crate::fault::ParseFault;
use crate::feature::feature_at;
use crate::member::declared;
use crate::unit::{unit, with_sorted_imports};
use jav_lex::Token;
use jav_parse_cursor::limits::Limits;
use jav_parse_cursor::sort::{Sort, same_sort, sort_of};
use jav_parse_cursor::stop::Stop;
use jav_parse_cursor::tokens::Tokens;
use jav_parse_cursor::types::whole_type;
use jav_parse_expr::expr::expr;
use jav_parse_expr::primary::Goal;
use jav_parse_stmt::stmt::{Rules, stmt};
use jav_tree::{Block, Expr, Member, TypeName, Unit};
use mol_base::{List, MAX_ITEMS, OutOfMemory};
use std::alloc::Global;

/// The greatest height of a tree.
const TALL: usize = 500;

/// What a list of tokens is to be.
#[derive(Clone, Copy)]
pub enum Language {
    Unit,
    Member,
    Body,
    Expr,
    WholeType,
}

/// The end of the last token; 0 without tokens.
fn end_of(tokens: &[Token]) -> u32
    ensures { result ≡ bad_token.end_of (all_seen tokens.now) }
{
    match tokens {
        [] => 0,
        [.., last] => last.end,
    }
}

fn limits_for(alloc: Global, tokens: &[Token], most: usize, builds: bool) -> Limits
    ensures { result ≡ spec.limits_for alloc (all_seen tokens.now) most builds }
{
    Limits {
        alloc,
        most,
        turns: tokens.len() + 1,
        builds,
    }
}

fn members(limits: Limits, tokens: &mut Tokens<'_>, top: usize) -> Result<List<Member>, Stop>
    requires { IsLimited limits top }
    ensures { Reads (spec.declaration limits top tokens.old) result tokens.new }
{
    let notes = tokens.comments(limits, List::new(limits.alloc))?;
    declared(limits, tokens, top, None, notes)
}

fn body(limits: Limits, tokens: &mut Tokens<'_>, top: usize) -> Result<Block, Stop>
    requires { IsLimited limits top }
    ensures { Reads (spec.body limits top tokens.old) result tokens.new }
{
    let rules = Rules { limits, top, stmt };
    let block = rules.constructor_block(tokens, top, List::new(limits.alloc))?;
    Ok(Block {
        items: block.items,
        tail: block.tail,
    })
}

fn expression(limits: Limits, tokens: &mut Tokens<'_>, top: usize) -> Result<Expr, Stop>
    requires { IsLimited limits top }
    ensures { Reads (spec.expression limits top tokens.old) result tokens.new }
{
    let tall = expr(limits, tokens, top, Goal::Level(1))?;
    Ok(tall.expr.into_inner())
}

/// Reads what is asked for, and lets go of it.
fn skip(language: Language, limits: Limits, tokens: &mut Tokens<'_>, top: usize) -> Result<(), Stop>
    requires { IsLimited limits top }
    ensures { spec.SkipsTo (spec.unread_as language limits top tokens.old) result tokens.new }
{
    match language {
        Language::Unit => {
            unit(limits, tokens, top)?;
            Ok(())
        }
        Language::Member => {
            members(limits, tokens, top)?;
            Ok(())
        }
        Language::Body => {
            body(limits, tokens, top)?;
            Ok(())
        }
        Language::Expr => {
            expression(limits, tokens, top)?;
            Ok(())
        }
        Language::WholeType => {
            whole_type(limits, tokens)?;
            Ok(())
        }
    }
}

/// Whether all of these tokens are taken within some limits.
fn takes_all(
    language: Language,
    limits: Limits,
    front: &[Token],
    top: usize,
) -> Result<bool, OutOfMemory>
    requires { IsLimited limits top }
    ensures { IfOk result (λ all. all ≡ spec.is_empty (spec.unread_as language limits top (all_seen front.now))) }
{
    let mut tokens = Tokens::new(front);
    match skip(language, limits, &mut tokens, top) {
        Ok(()) | Err(Stop::Bad) => Ok(tokens.left() == 0),
        Err(Stop::OutOfMemory) => Err(OutOfMemory),
    }
}

/// Why no tree begins with the tokens `front` and `bad`, which are `both`: they are read once more within
/// limits that are as good as none for so many.
fn fault_at(
    alloc: Global,
    language: Language,
    front: &[Token],
    bad: &Token,
    both: &[Token],
) -> Result<ParseFault, OutOfMemory>
    ensures { IfOk result (λ f. f ≡ spec.fault_of alloc language (all_seen front.now) (seen bad.now) (all_seen both.now)) }
{
    let at = bad.start;
    if same_sort(sort_of(bad), Sort::Comment) {
        return Ok(ParseFault::CommentPlace(at));
    }
    let enough = 2 * both.len() + 8;
    if takes_all(
        language,
        limits_for(alloc, both, MAX_ITEMS, false),
        both,
        enough,
    )? {
        return Ok(ParseFault::TooDeep(at));
    }
    if takes_all(
        language,
        limits_for(alloc, both, enough, false),
        both,
        enough,
    )? {
        return Ok(ParseFault::TooMany(at));
    }
    match feature_at(front, bad) {
        Some(feature) => Ok(ParseFault::Refused(feature, at)),
        None => Ok(ParseFault::Expected(at)),
    }
}

/// The fault of tokens of which the last `left` were not read.
fn fault(alloc: Global, language: Language, tokens: &[Token], left: usize) -> ParseFault
    ensures { (result ≡ ParseFault.OutOfMemory) ⊎ (result ≡ spec.wrong alloc language (all_seen tokens.now) left) }
{
    let at = tokens.len().saturating_sub(left);
    let (front, rest) = tokens.split_at(at);
    let [bad, ..] = rest else {
        return ParseFault::Expected(end_of(front));
    };
    match fault_at(alloc, language, front, bad, &tokens[..at + 1]) {
        Ok(fault) => fault,
        Err(OutOfMemory) => ParseFault::OutOfMemory,
    }
}

/// The tree that was read, where no token is left.
fn whole<T: Drop>(
    alloc: Global,
    language: Language,
    all: &[Token],
    rest: &Tokens<'_>,
    read: Result<T, Stop>,
) -> Result<T, ParseFault>
    ensures { (outcome : Outcome T) → Reads outcome read rest.now → spec.Answers alloc language (all_seen all.now) outcome result }
{
    let left = rest.left();
    match read {
        Ok(tree) => {
            if left == 0 {
                Ok(tree)
            } else {
                Err(fault(alloc, language, all, left))
            }
        }
        Err(Stop::Bad) => Err(fault(alloc, language, all, left)),
        Err(Stop::OutOfMemory) => Err(ParseFault::OutOfMemory),
    }
}

/// Reads all tokens as a source file: the tree of its rule with the imports ascending by bytes,
/// or answers the fault at the first token that the rule leaves, of which the rules alone say which it is.
pub fn read_unit(alloc: Global, tokens: &[Token]) -> Result<Unit, ParseFault>
    ensures read { spec.AnswersSorted alloc (all_seen tokens.now) (units.unit (spec.limits_for alloc (all_seen tokens.now) most_items true) most_height (all_seen tokens.now)) result }
{
    let limits = limits_for(alloc, tokens, MAX_ITEMS, true);
    let mut rest = Tokens::new(tokens);
    let read = unit(limits, &mut rest, TALL);
    let unit = whole(alloc, Language::Unit, tokens, &rest, read)?;
    match with_sorted_imports(unit) {
        Ok(unit) => Ok(unit),
        Err(OutOfMemory) => Err(ParseFault::OutOfMemory),
    }
}

/// Reads all tokens as the declaration of a member, or of several fields,
/// or answers the fault at the first token that the rule leaves, of which the rules alone say which it is.
pub fn read_member(alloc: Global, tokens: &[Token]) -> Result<List<Member>, ParseFault>
    ensures read { spec.Answers alloc Language.Member (all_seen tokens.now) (spec.declaration (spec.limits_for alloc (all_seen tokens.now) most_items true) most_height (all_seen tokens.now)) result }
{
    let limits = limits_for(alloc, tokens, MAX_ITEMS, true);
    let mut rest = Tokens::new(tokens);
    let read = members(limits, &mut rest, TALL);
    whole(alloc, Language::Member, tokens, &rest, read)
}

/// Reads all tokens as the block of a body,
/// or answers the fault at the first token that the rule leaves, of which the rules alone say which it is.
pub fn read_body(alloc: Global, tokens: &[Token]) -> Result<Block, ParseFault>
    ensures read { spec.Answers alloc Language.Body (all_seen tokens.now) (spec.body (spec.limits_for alloc (all_seen tokens.now) most_items true) most_height (all_seen tokens.now)) result }
{
    let limits = limits_for(alloc, tokens, MAX_ITEMS, true);
    let mut rest = Tokens::new(tokens);
    let read = body(limits, &mut rest, TALL);
    whole(alloc, Language::Body, tokens, &rest, read)
}

/// Reads all tokens as an expression,
/// or answers the fault at the first token that the rule leaves, of which the rules alone say which it is.
pub fn read_expr(alloc: Global, tokens: &[Token]) -> Result<Expr, ParseFault>
    ensures read { spec.Answers alloc Language.Expr (all_seen tokens.now) (spec.expression (spec.limits_for alloc (all_seen tokens.now) most_items true) most_height (all_seen tokens.now)) result }
{
    let limits = limits_for(alloc, tokens, MAX_ITEMS, true);
    let mut rest = Tokens::new(tokens);
    let read = expression(limits, &mut rest, TALL);
    whole(alloc, Language::Expr, tokens, &rest, read)
}

/// Reads all tokens as a type,
/// or answers the fault at the first token that the rule leaves, of which the rules alone say which it is.
pub fn read_type(alloc: Global, tokens: &[Token]) -> Result<TypeName, ParseFault>
    ensures read { spec.Answers alloc Language.WholeType (all_seen tokens.now) (types.whole_type (spec.limits_for alloc (all_seen tokens.now) most_items true) (all_seen tokens.now)) result }
{
    let limits = limits_for(alloc, tokens, MAX_ITEMS, true);
    let mut rest = Tokens::new(tokens);
    let read = whole_type(limits, &mut rest);
    whole(alloc, Language::WholeType, tokens, &rest, read)
}
