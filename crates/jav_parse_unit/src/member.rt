//! Members of classes (JLS 8.3, 8.4, 8.8).
ghost use Rattle.std.specs.Prelude.{◌≡◌, ◌<◌, ◌-◌, ◌∷◌, [], IfOk, option_map};
ghost use Rattle.jav_lex.specs.Token.{seen};
ghost use Rattle.jav_tree.specs.Blocks.{block_of};
ghost use Rattle.jav_parse_unit.specs.MemberRules as spec;
ghost use Rattle.jav_parse_expr.specs.Nests.{IsLimited};
ghost use Rattle.jav_parse_cursor.specs.Reads.{Reads};

use crate::words::{Words, member_words};
use jav_lex::Token;
use jav_parse_cursor::limits::Limits;
use jav_parse_cursor::sort::Sort;
use jav_parse_cursor::stop::Stop;
use jav_parse_cursor::tokens::Tokens;
use jav_parse_cursor::types::{Names, qualified, type_after, whole_type};
use jav_parse_stmt::local::{Variable, variables};
use jav_parse_stmt::stmt::{Rules, stmt};
use jav_parse_stmt::stmt_tall::TallBlock;
use jav_tree::{Block, Ctor, Field, Member, Method, Param, TypeName};
use mol_base::{Boxed, List, OutOfMemory, Text};

/// The comments before a member, where it begins, and its modifiers.
#[derive(Drop)]
pub struct Front {
    pub notes: List<Text>,
    pub at: u32,
    pub words: Words,
}

/// A parameter after `final`.
#[tactic(auto, unfolding(crate::specs::MemberRules::param_of))]
fn param_of(limits: Limits, tokens: &mut Tokens<'_>) -> Result<Param, Stop>
    ensures { Reads (spec.param_of limits tokens.old) result tokens.new }
{
    let ty = whole_type(limits, tokens)?;
    let name = tokens.expect(Sort::Name)?;
    Ok(Param {
        ty,
        name: name.text.copy(limits.alloc)?,
    })
}

#[tactic(auto, unfolding(crate::specs::MemberRules::param))]
fn param(limits: Limits, tokens: &mut Tokens<'_>) -> Result<Param, Stop>
    ensures { Reads (spec.param limits tokens.old) result tokens.new }
{
    if tokens.is(Sort::Final) {
        tokens.take()?;
    }
    param_of(limits, tokens)
}

/// Further parameters, each after a comma.
fn further_params(
    limits: Limits,
    tokens: &mut Tokens<'_>,
    first: List<Param>,
) -> Result<List<Param>, Stop>
    requires { 0 < limits.most }
    ensures { Reads (spec.further_params limits (limits.most - 1) first tokens.old) result tokens.new }
{
    let mut all = first;
    for _turn in 1..limits.most {
        if !tokens.is(Sort::Comma) {
            return Ok(all);
        }
        tokens.take()?;
        let next = param(limits, tokens)?;
        all.add(next)?;
    }
    Ok(all)
}

/// Parameters after their parenthesis, one at least.
#[tactic(auto, unfolding(crate::specs::MemberRules::some_params))]
fn some_params(limits: Limits, tokens: &mut Tokens<'_>) -> Result<List<Param>, Stop>
    requires { 0 < limits.most }
    ensures { Reads (spec.some_params limits tokens.old) result tokens.new }
{
    let first = param(limits, tokens)?;
    let mut one = List::new(limits.alloc);
    one.add(first)?;
    let all = further_params(limits, tokens, one)?;
    tokens.expect(Sort::Close)?;
    Ok(all)
}

/// The same, where there may be none.
fn params_after(limits: Limits, tokens: &mut Tokens<'_>) -> Result<List<Param>, Stop>
    requires { 0 < limits.most }
    ensures { Reads (spec.params_after limits tokens.old) result tokens.new }
{
    if tokens.is(Sort::Close) {
        tokens.take()?;
        return Ok(List::new(limits.alloc));
    }
    some_params(limits, tokens)
}

/// Parameters in parentheses.
#[tactic(auto, unfolding(crate::specs::MemberRules::params))]
fn params(limits: Limits, tokens: &mut Tokens<'_>) -> Result<List<Param>, Stop>
    requires { 0 < limits.most }
    ensures { Reads (spec.params limits tokens.old) result tokens.new }
{
    tokens.expect(Sort::Open)?;
    params_after(limits, tokens)
}

/// The block of a method, with comments before it.
#[tactic(auto, unfolding(crate::specs::MemberRules::method_block))]
fn method_block(limits: Limits, tokens: &mut Tokens<'_>, top: usize) -> Result<TallBlock, Stop>
    requires { IsLimited limits top }
    ensures { Reads (spec.method_block limits top tokens.old) result tokens.new }
{
    let notes = tokens.comments(limits, List::new(limits.alloc))?;
    let rules = Rules { limits, top, stmt };
    rules.block(tokens, top, notes)
}

fn block_of(block: TallBlock) -> Block
    ensures { result ≡ block_of block.items block.tail }
{
    Block {
        items: block.items,
        tail: block.tail,
    }
}

/// The block of a method, or a semicolon where it is abstract.
#[tactic(auto, unfolding(crate::specs::MemberRules::body_or_semi))]
fn body_or_semi(
    limits: Limits,
    tokens: &mut Tokens<'_>,
    top: usize,
    is_abstract: bool,
) -> Result<Option<Block>, Stop>
    requires { IsLimited limits top }
    ensures { Reads (spec.body_or_semi limits top is_abstract tokens.old) result tokens.new }
{
    if is_abstract {
        tokens.expect(Sort::Semi)?;
        return Ok(None);
    }
    let block = method_block(limits, tokens, top)?;
    Ok(Some(block_of(block)))
}

fn method_of(
    limits: Limits,
    front: Front,
    returned: TypeName,
    name: &Token,
    params: List<Param>,
    block: Option<Block>,
) -> Result<Member, OutOfMemory>
    ensures { IfOk result (λ m. m ≡ spec.method_of front returned (seen name.now) params block) }
{
    Ok(Member::Method(Method {
        front: front.notes,
        at: front.at,
        words: front.words.method_texts(limits)?,
        is_static: front.words.is_static,
        result: returned,
        name: name.text.copy(limits.alloc)?,
        params,
        block,
    }))
}

/// A method from its parameters on.
#[tactic(auto, unfolding(crate::specs::MemberRules::method))]
fn method(
    limits: Limits,
    tokens: &mut Tokens<'_>,
    top: usize,
    front: Front,
    returned: TypeName,
    name: &Token,
) -> Result<Member, Stop>
    requires { IsLimited limits top }
    ensures { Reads (spec.method limits top front returned (seen name.now) tokens.old) result tokens.new }
{
    if !front.words.fit_method() {
        return Err(Stop::Bad);
    }
    let params = params(limits, tokens)?;
    let block = body_or_semi(limits, tokens, top, front.words.is_abstract)?;
    Ok(method_of(limits, front, returned, name, params, block)?)
}

fn constructor_of(
    limits: Limits,
    front: Front,
    params: List<Param>,
    block: TallBlock,
) -> Result<Member, OutOfMemory>
    ensures { IfOk result (λ m. m ≡ spec.constructor_of front params block) }
{
    Ok(Member::Ctor(Ctor {
        front: front.notes,
        at: front.at,
        words: front.words.texts(limits)?,
        params,
        block: block_of(block),
    }))
}

/// A constructor from its parameters on.
#[tactic(auto, unfolding(crate::specs::MemberRules::constructor))]
fn constructor(
    limits: Limits,
    tokens: &mut Tokens<'_>,
    top: usize,
    front: Front,
) -> Result<Member, Stop>
    requires { IsLimited limits top }
    ensures { Reads (spec.constructor limits top front tokens.old) result tokens.new }
{
    let params = params(limits, tokens)?;
    let notes = tokens.comments(limits, List::new(limits.alloc))?;
    let rules = Rules { limits, top, stmt };
    let block = rules.constructor_block(tokens, top, notes)?;
    Ok(constructor_of(limits, front, params, block)?)
}

fn field_of(
    limits: Limits,
    notes: List<Text>,
    at: u32,
    words: Words,
    ty: &TypeName,
    variable: Variable,
) -> Result<Member, OutOfMemory>
    ensures { IfOk result (λ m. m ≡ spec.field_of notes at words ty.now variable) }
{
    Ok(Member::Field(Field {
        front: notes,
        at,
        words: words.texts(limits)?,
        ty: ty.copy(limits.alloc)?,
        name: variable.name,
        init: variable.init.map(Boxed::into_inner),
    }))
}

/// The fields of a declaration.
fn fields_of(
    limits: Limits,
    front: Front,
    ty: TypeName,
    variables: List<Variable>,
) -> Result<List<Member>, OutOfMemory>
    ensures { IfOk result (λ ms. ms ≡ spec.fields_of front ty variables) }
{
    let mut all = List::new(limits.alloc);
    let words = front.words;
    let mut notes = front.notes;
    let mut at = Some(front.at);
    for variable in variables.into_vec() {
        let start = at.unwrap_or(variable.at);
        all.add(field_of(limits, notes, start, words, &ty, variable)?)?;
        notes = List::new(limits.alloc);
        at = None;
    }
    Ok(all)
}

/// Fields after the name of the first.
#[tactic(auto, unfolding(crate::specs::MemberRules::fields))]
fn fields(
    limits: Limits,
    tokens: &mut Tokens<'_>,
    top: usize,
    front: Front,
    ty: TypeName,
    name: &Token,
) -> Result<List<Member>, Stop>
    requires { IsLimited limits top }
    ensures { Reads (spec.fields limits top front ty (seen name.now) tokens.old) result tokens.new }
{
    if !front.words.fit_field() {
        return Err(Stop::Bad);
    }
    let all = variables(limits, tokens, top, name)?;
    tokens.expect(Sort::Semi)?;
    Ok(fields_of(limits, front, ty, all.items)?)
}

fn alone(limits: Limits, member: Member) -> Result<List<Member>, OutOfMemory>
    ensures { IfOk result (λ ms. ms ≡ member ∷ []) }
{
    let mut all = List::new(limits.alloc);
    all.add(member)?;
    Ok(all)
}

/// A method or fields after their type.
#[tactic(auto, unfolding(crate::specs::MemberRules::typed))]
fn typed(
    limits: Limits,
    tokens: &mut Tokens<'_>,
    top: usize,
    front: Front,
    ty: TypeName,
) -> Result<List<Member>, Stop>
    requires { IsLimited limits top }
    ensures { Reads (spec.typed limits top front ty tokens.old) result tokens.new }
{
    let name = tokens.expect(Sort::Name)?;
    if tokens.is(Sort::Open) {
        let member = method(limits, tokens, top, front, ty, name)?;
        return Ok(alone(limits, member)?);
    }
    fields(limits, tokens, top, front, ty, name)
}

/// Whether a constructor may have this name: that of its class; any name where no class is known.
fn fits_class(class: Option<&[u8]>, name: &Token) -> bool
    ensures { result ≡ spec.fits_class (option_map (λ c. c.now) class.entry) name.now.text }
{
    match class {
        None => true,
        Some(class) => class == name.text.bytes(),
    }
}

/// Whether these names may begin a constructor.
fn may_construct(class: Option<&[u8]>, names: &Names<'_>, words: Words) -> bool
    ensures { result ≡ spec.may_construct (option_map (λ c. c.now) class.entry) names.now words }
{
    names.is_one() && (fits_class(class, names.first()) && words.fit_constructor())
}

/// Members that begin with a name, after their modifiers.
#[tactic(auto, unfolding(crate::specs::MemberRules::named))]
fn named(
    limits: Limits,
    tokens: &mut Tokens<'_>,
    top: usize,
    class: Option<&[u8]>,
    front: Front,
) -> Result<List<Member>, Stop>
    requires { IsLimited limits top }
    ensures { Reads (spec.named limits top (option_map (λ c. c.now) class.entry) front tokens.old) result tokens.new }
{
    let names = qualified(limits, tokens)?;
    if tokens.is(Sort::Open) {
        if !may_construct(class, &names, front.words) {
            return Err(Stop::Bad);
        }
        let member = constructor(limits, tokens, top, front)?;
        return Ok(alone(limits, member)?);
    }
    let ty = type_after(limits, tokens, names.named(limits)?, 0)?;
    typed(limits, tokens, top, front, ty)
}

/// A method whose result is `void`.
#[tactic(auto, unfolding(crate::specs::MemberRules::void_method))]
fn void_method(
    limits: Limits,
    tokens: &mut Tokens<'_>,
    top: usize,
    front: Front,
) -> Result<List<Member>, Stop>
    requires { IsLimited limits top }
    ensures { Reads (spec.void_method limits top front tokens.old) result tokens.new }
{
    if !front.words.fit_method() {
        return Err(Stop::Bad);
    }
    tokens.take()?;
    let name = tokens.expect(Sort::Name)?;
    let member = method(limits, tokens, top, front, TypeName::Void, name)?;
    Ok(alone(limits, member)?)
}

/// A declaration of members after the comments before it.
#[tactic(auto, unfolding(crate::specs::MemberRules::declared))]
pub fn declared(
    limits: Limits,
    tokens: &mut Tokens<'_>,
    top: usize,
    class: Option<&[u8]>,
    notes: List<Text>,
) -> Result<List<Member>, Stop>
    requires { IsLimited limits top }
    ensures { Reads (spec.declared limits top (option_map (λ c. c.now) class.entry) notes tokens.old) result tokens.new }
{
    let at = tokens.start();
    let words = member_words(limits, tokens)?;
    let front = Front { notes, at, words };
    match tokens.peek() {
        Sort::Void => void_method(limits, tokens, top, front),
        Sort::Prim => {
            let ty = whole_type(limits, tokens)?;
            typed(limits, tokens, top, front, ty)
        }
        _ => named(limits, tokens, top, class, front),
    }
}
