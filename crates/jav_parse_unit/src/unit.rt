//! Source files (JLS 7.3, 7.4, 7.5, 8.1).
ghost use Rattle.std.specs.Prelude.{◌≡◌, ◌++◌, [], IfOk};
ghost use Rattle.jav_lex.specs.Token.{seen};
ghost use Rattle.jav_tree.specs.Units.{AscendingOf};
ghost use Rattle.jav_parse_expr.specs.Nests.{IsLimited};
ghost use Rattle.jav_parse_cursor.specs.Reads.{Reads};
ghost use Rattle.jav_parse_unit.specs.UnitRules as spec;

use crate::member::declared;
use crate::words::{Words, class_words};
use jav_lex::Token;
use jav_parse_cursor::limits::Limits;
use jav_parse_cursor::sort::Sort;
use jav_parse_cursor::stop::Stop;
use jav_parse_cursor::tokens::Tokens;
use jav_parse_cursor::types::qualified;
use jav_tree::{ClassDecl, Member, TypeName, Unit};
use mol_base::{List, OutOfMemory, Text};

/// Members, and the comments after the last one.
#[derive(Drop)]
pub struct MemberList {
    pub items: List<Member>,
    pub tail: List<Text>,
}

/// Imports in the order of the source, and the comments from `package` to the class.
#[derive(Drop)]
pub struct ImportList {
    pub names: List<Text>,
    pub notes: List<Text>,
}

/// A name with dots, and a semicolon.
#[tactic(auto, unfolding(crate::specs::UnitRules::named))]
fn named(limits: Limits, tokens: &mut Tokens<'_>) -> Result<Text, Stop>
    ensures { Reads (spec.named limits.turns tokens.old) result tokens.new }
{
    let names = qualified(limits, tokens)?;
    tokens.expect(Sort::Semi)?;
    Ok(names.joined(limits)?)
}

/// Imports each with the comments after it, after the comments that are given.
fn further_imports(
    limits: Limits,
    tokens: &mut Tokens<'_>,
    before: List<Text>,
) -> Result<ImportList, Stop>
    ensures { Reads (spec.further_imports limits limits.turns (spec.no_imports before) tokens.old) result tokens.new }
{
    let mut names = List::new(limits.alloc);
    let mut notes = before;
    for _turn in 0..limits.turns {
        if !tokens.is(Sort::Import) {
            return Ok(ImportList { names, notes });
        }
        tokens.take()?;
        names.add(named(limits, tokens)?)?;
        notes = tokens.comments(limits, notes)?;
    }
    Err(Stop::Bad)
}

/// The comments after the package's name, and imports each with the comments after it.
#[tactic(auto, unfolding(crate::specs::UnitRules::import_list))]
fn import_list(limits: Limits, tokens: &mut Tokens<'_>) -> Result<ImportList, Stop>
    ensures { Reads (spec.import_list limits tokens.old) result tokens.new }
{
    let notes = tokens.comments(limits, List::new(limits.alloc))?;
    further_imports(limits, tokens, notes)
}

/// The members of both lists.
fn appended(front: List<Member>, back: List<Member>) -> Result<List<Member>, OutOfMemory>
    ensures { IfOk result (λ all. all ≡ front ++ back) }
{
    let mut all = front;
    for member in back.into_vec() {
        all.add(member)?;
    }
    Ok(all)
}

/// The members of a class up to its last brace.
fn members(
    limits: Limits,
    tokens: &mut Tokens<'_>,
    top: usize,
    class: &[u8],
) -> Result<MemberList, Stop>
    requires { IsLimited limits top }
    ensures { Reads (spec.members limits top (Some class.now) limits.turns [] tokens.old) result tokens.new }
{
    let mut items = List::new(limits.alloc);
    for _turn in 0..limits.turns {
        let notes = tokens.comments(limits, List::new(limits.alloc))?;
        if tokens.is(Sort::Finish) {
            tokens.take()?;
            return Ok(MemberList { items, tail: notes });
        }
        let more = declared(limits, tokens, top, Some(class), notes)?;
        items = appended(items, more)?;
    }
    Err(Stop::Bad)
}

/// `extends` and a name, or nothing.
#[tactic(auto, unfolding(crate::specs::UnitRules::parent))]
fn parent(limits: Limits, tokens: &mut Tokens<'_>) -> Result<Option<TypeName>, Stop>
    ensures { Reads (spec.parent limits.turns tokens.old) result tokens.new }
{
    if !tokens.is(Sort::Extends) {
        return Ok(None);
    }
    tokens.take()?;
    let names = qualified(limits, tokens)?;
    Ok(Some(names.named(limits)?))
}

/// The members of a class, and the comments after them and after the class.
#[tactic(auto, unfolding(crate::specs::UnitRules::class_body))]
fn class_body(
    limits: Limits,
    tokens: &mut Tokens<'_>,
    top: usize,
    name: &Token,
) -> Result<MemberList, Stop>
    requires { IsLimited limits top }
    ensures { Reads (spec.class_body limits top (seen name.now) tokens.old) result tokens.new }
{
    tokens.expect(Sort::Begin)?;
    let MemberList { items, tail } = members(limits, tokens, top, name.text.bytes())?;
    let tail = tokens.comments(limits, tail)?;
    Ok(MemberList { items, tail })
}

fn class_of(
    limits: Limits,
    front: List<Text>,
    words: Words,
    name: &Token,
    parent: Option<TypeName>,
    body: MemberList,
) -> Result<ClassDecl, OutOfMemory>
    ensures { IfOk result (λ c. c ≡ spec.class_of front words (seen name.now) parent body) }
{
    Ok(ClassDecl {
        front,
        words: words.texts(limits)?,
        name: name.text.copy(limits.alloc)?,
        parent,
        members: body.items,
        tail: body.tail,
    })
}

/// A class, with the comments before it.
#[tactic(auto, unfolding(crate::specs::UnitRules::class))]
fn class(
    limits: Limits,
    tokens: &mut Tokens<'_>,
    top: usize,
    front: List<Text>,
) -> Result<ClassDecl, Stop>
    requires { IsLimited limits top }
    ensures { Reads (spec.class limits top front tokens.old) result tokens.new }
{
    let words = class_words(limits, tokens)?;
    tokens.expect(Sort::Class)?;
    let name = tokens.expect(Sort::Name)?;
    let parent = parent(limits, tokens)?;
    let body = class_body(limits, tokens, top, name)?;
    Ok(class_of(limits, front, words, name, parent, body)?)
}

/// A source file, with its imports in the order of the source.
#[tactic(auto, unfolding(crate::specs::UnitRules::unit))]
pub fn unit(limits: Limits, tokens: &mut Tokens<'_>, top: usize) -> Result<Unit, Stop>
    requires { IsLimited limits top }
    ensures { Reads (spec.unit limits top tokens.old) result tokens.new }
{
    let head = tokens.comments(limits, List::new(limits.alloc))?;
    tokens.expect(Sort::Package)?;
    let package = named(limits, tokens)?;
    let ImportList { names, notes } = import_list(limits, tokens)?;
    let class = class(limits, tokens, top, notes)?;
    Ok(Unit {
        head,
        package,
        imports: names,
        class,
    })
}

/// The same file with its imports ascending by bytes.
pub fn with_sorted_imports(unit: Unit) -> Result<Unit, OutOfMemory>
    ensures same { IfOk result (λ u. unit ≡ record u { imports = unit.imports }) }
    ensures sorted { IfOk result (λ u. AscendingOf unit.imports u.imports) }
{
    let Unit {
        head,
        package,
        imports,
        class,
    } = unit;
    let mut sorted = imports.into_vec();
    sorted.sort()?;
    Ok(Unit {
        head,
        package,
        imports: List::from_vec(sorted),
        class,
    })
}
