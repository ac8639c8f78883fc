//! Modifiers (JLS 8.1.1, 8.3.1, 8.4.3, 8.8.3, 9.6.4.4).
ghost use Rattle.std.specs.Prelude.{◌≡◌, IfOk, OnOk, not, ◌&&◌, ◌||◌};
ghost use Rattle.jav_parse_cursor.specs.Reads.{Reads, ReadsToken};
ghost use Rattle.jav_parse_unit.specs.WordRules as spec;

use jav_lex::Token;
use jav_parse_cursor::limits::Limits;
use jav_parse_cursor::sort::Sort;
use jav_parse_cursor::stop::Stop;
use jav_parse_cursor::tokens::Tokens;
use mol_base::{List, OutOfMemory, Text};

/// The modifiers of a declaration.
#[derive(Clone, Copy)]
pub struct Words {
    /// `@Override`
    pub overrides: bool,
    pub is_public: bool,
    pub is_protected: bool,
    pub is_private: bool,
    pub is_abstract: bool,
    pub is_static: bool,
    pub is_final: bool,
    pub is_transient: bool,
    pub is_volatile: bool,
}

pub const NO_WORDS: Words = Words {
    overrides: false,
    is_public: false,
    is_protected: false,
    is_private: false,
    is_abstract: false,
    is_static: false,
    is_final: false,
    is_transient: false,
    is_volatile: false,
};

impl Words {
    fn has_access(self) -> bool
        ensures { result ≡ spec.has_access self }
    {
        self.is_public || (self.is_protected || self.is_private)
    }

    /// Whether a class may have them.
    pub fn fit_class(self) -> bool
        ensures { result ≡ spec.fit_class self }
    {
        !(self.overrides
            || (self.is_protected
                || (self.is_private
                    || (self.is_static || (self.is_transient || self.is_volatile)))))
    }

    /// Whether a field may have them.
    pub fn fit_field(self) -> bool
        ensures { result ≡ spec.fit_field self }
    {
        !(self.overrides || self.is_abstract)
    }

    /// Whether a method may have them, with or without a block.
    pub fn fit_method(self) -> bool
        ensures { result ≡ spec.fit_method self }
    {
        !(self.is_transient || (self.is_volatile || (self.is_abstract && self.is_static)))
    }

    /// Whether a constructor may have them.
    pub fn fit_constructor(self) -> bool
        ensures { result ≡ spec.fit_constructor self }
    {
        self.fit_field() && (self.fit_method() && !(self.is_static || self.is_final))
    }

    /// Whether a member may have them.
    pub fn fit_member(self) -> bool
        ensures { result ≡ spec.fit_member self }
    {
        self.fit_field() || self.fit_method()
    }

    /// These, where the one that was added was not there.
    fn once(self, is_there: bool) -> Option<Words>
        ensures { result ≡ spec.once is_there self }
    {
        if is_there { None } else { Some(self) }
    }

    /// These and one more, or none where it is there, or is a second access word.
    fn and(self, sort: Sort) -> Option<Words>
        ensures { result ≡ spec.and_word self sort }
    {
        let mut more = self;
        let is_there = match sort {
            Sort::At => {
                more.overrides = true;
                self.overrides
            }
            Sort::Public => {
                more.is_public = true;
                self.has_access()
            }
            Sort::Protected => {
                more.is_protected = true;
                self.has_access()
            }
            Sort::Private => {
                more.is_private = true;
                self.has_access()
            }
            Sort::Abstract => {
                more.is_abstract = true;
                self.is_abstract
            }
            Sort::Static => {
                more.is_static = true;
                self.is_static
            }
            Sort::Final => {
                more.is_final = true;
                self.is_final
            }
            Sort::Transient => {
                more.is_transient = true;
                self.is_transient
            }
            Sort::Volatile => {
                more.is_volatile = true;
                self.is_volatile
            }
            _ => return None,
        };
        more.once(is_there)
    }

    /// The modifiers as texts, in the order in which they are printed.
    #[tactic(auto, unfolding(crate::specs::WordRules::texts))]
    pub fn texts(self, limits: Limits) -> Result<List<Text>, OutOfMemory>
        ensures { IfOk result (λ all. all ≡ spec.texts self) }
    {
        let mut all = List::new(limits.alloc);
        add_if(limits, &mut all, self.overrides, "@Override")?;
        add_if(limits, &mut all, self.is_public, "public")?;
        add_if(limits, &mut all, self.is_protected, "protected")?;
        add_if(limits, &mut all, self.is_private, "private")?;
        add_if(limits, &mut all, self.is_abstract, "abstract")?;
        add_if(limits, &mut all, self.is_static, "static")?;
        add_if(limits, &mut all, self.is_final, "final")?;
        add_if(limits, &mut all, self.is_transient, "transient")?;
        add_if(limits, &mut all, self.is_volatile, "volatile")?;
        Ok(all)
    }

    /// The same without `abstract` and `static`, which a method keeps elsewhere.
    pub fn method_texts(self, limits: Limits) -> Result<List<Text>, OutOfMemory>
        ensures { IfOk result (λ all. all ≡ spec.method_texts self) }
    {
        let mut kept = self;
        kept.is_abstract = false;
        kept.is_static = false;
        kept.texts(limits)
    }
}

/// Adds a text where it is there.
fn add_if(
    limits: Limits,
    all: &mut List<Text>,
    is_there: bool,
    word: &str,
) -> Result<(), OutOfMemory>
    ensures { OnOk result (all.new ≡ spec.with_if all.old is_there word.now) }
{
    if is_there {
        all.add(Text::from_str(limits.alloc, word)?)?;
    }
    Ok(())
}

/// Whether a token begins a modifier.
pub fn is_word(sort: Sort) -> bool
    ensures { result ≡ spec.is_word sort }
{
    match sort {
        Sort::At | Sort::Public | Sort::Protected | Sort::Private | Sort::Abstract => true,
        Sort::Static | Sort::Final | Sort::Transient | Sort::Volatile => true,
        _ => false,
    }
}

/// Takes a modifier.
#[tactic(auto, unfolding(crate::specs::WordRules::take_word))]
fn take_word<'a>(tokens: &mut Tokens<'a>) -> Result<&'a Token, Stop>
    ensures { ReadsToken (spec.take_word tokens.old) result tokens.new }
{
    if tokens.is(Sort::At) {
        tokens.take()?;
        return tokens.expect_override();
    }
    tokens.take()
}

/// The modifiers of a class.
pub fn class_words(limits: Limits, tokens: &mut Tokens<'_>) -> Result<Words, Stop>
    ensures { Reads (spec.words spec.fit_class limits.turns spec.no_words tokens.old) result tokens.new }
{
    let mut all = NO_WORDS;
    for _turn in 0..limits.turns {
        let next = tokens.peek();
        if !is_word(next) {
            return Ok(all);
        }
        all = match all.and(next) {
            Some(more) if more.fit_class() => more,
            _ => return Err(Stop::Bad),
        };
        take_word(tokens)?;
    }
    Err(Stop::Bad)
}

/// The modifiers of a member.
pub fn member_words(limits: Limits, tokens: &mut Tokens<'_>) -> Result<Words, Stop>
    ensures { Reads (spec.words spec.fit_member limits.turns spec.no_words tokens.old) result tokens.new }
{
    let mut all = NO_WORDS;
    for _turn in 0..limits.turns {
        let next = tokens.peek();
        if !is_word(next) {
            return Ok(all);
        }
        all = match all.and(next) {
            Some(more) if more.fit_member() => more,
            _ => return Err(Stop::Bad),
        };
        take_word(tokens)?;
    }
    Err(Stop::Bad)
}
