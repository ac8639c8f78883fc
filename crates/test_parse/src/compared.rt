//! What the calls on trees answer of two of them: their heights, copies, trees without parentheses, and whether they are the same.
use crate::languages::{Language, Tree};
use jav_lex::Token;
use jav_tree::{Block, Expr, Unit};
use mol_base::OutOfMemory;
use std::alloc::Global;

/// A tree that the calls can be asked of.
trait Whole: Tree {
    /// Where it begins, in bytes; 0 for one that has no place of its own.
    fn place(&self) -> u32;

    /// How high it is.
    fn levels(&self) -> u32;

    /// Whether it is the same as another one.
    fn is_same(&self, other: &Self) -> bool;

    /// A copy.
    fn copied(&self, alloc: Global) -> Result<Self, OutOfMemory>;

    /// The tree without its parentheses.
    fn bare(&self, alloc: Global) -> Result<Self, OutOfMemory>;
}

impl Whole for Expr {
    fn place(&self) -> u32 {
        self.at
    }

    fn levels(&self) -> u32 {
        self.height()
    }

    fn is_same(&self, other: &Expr) -> bool {
        self.same(other)
    }

    fn copied(&self, alloc: Global) -> Result<Expr, OutOfMemory> {
        self.copy(alloc)
    }

    fn bare(&self, alloc: Global) -> Result<Expr, OutOfMemory> {
        self.drop_parens(alloc)
    }
}

impl Whole for Block {
    fn place(&self) -> u32 {
        0
    }

    fn levels(&self) -> u32 {
        self.height()
    }

    fn is_same(&self, other: &Block) -> bool {
        self.same(other)
    }

    fn copied(&self, alloc: Global) -> Result<Block, OutOfMemory> {
        self.copy(alloc)
    }

    fn bare(&self, alloc: Global) -> Result<Block, OutOfMemory> {
        self.drop_parens(alloc)
    }
}

impl Whole for Unit {
    fn place(&self) -> u32 {
        0
    }

    fn levels(&self) -> u32 {
        self.height()
    }

    fn is_same(&self, other: &Unit) -> bool {
        self.same(other)
    }

    fn copied(&self, alloc: Global) -> Result<Unit, OutOfMemory> {
        self.copy(alloc)
    }

    fn bare(&self, alloc: Global) -> Result<Unit, OutOfMemory> {
        self.drop_parens(alloc)
    }
}

/// What the calls answer of the trees of these tokens.
pub fn compared_of(
    alloc: Global,
    language: Language,
    first: &[Token],
    second: &[Token],
) -> Result<String, OutOfMemory> {
    match language {
        Language::Expr => of_texts::<Expr>(alloc, first, second),
        Language::Body => of_texts::<Block>(alloc, first, second),
        Language::Unit => of_texts::<Unit>(alloc, first, second),
        Language::Member | Language::Type => Ok(String::from_str(alloc, "not compared")?),
    }
}

/// What the calls answer of the trees of these tokens, in one language.
fn of_texts<T: Whole>(
    alloc: Global,
    first: &[Token],
    second: &[Token],
) -> Result<String, OutOfMemory> {
    match T::read(alloc, first) {
        Ok(tree) => of_text(alloc, &tree, second),
        Err(_) => Ok(String::from_str(alloc, "no tree")?),
    }
}

/// What the calls answer of a tree and of that of these tokens.
fn of_text<T: Whole>(alloc: Global, tree: &T, second: &[Token]) -> Result<String, OutOfMemory> {
    match T::read(alloc, second) {
        Ok(other) => of_trees(alloc, tree, &other),
        Err(_) => Ok(String::from_str(alloc, "no second tree")?),
    }
}

/// What the calls answer of a tree and another one.
fn of_trees<T: Whole>(alloc: Global, tree: &T, other: &T) -> Result<String, OutOfMemory> {
    let bare = tree.bare(alloc)?;
    of_bare(alloc, tree, other, &bare)
}

/// What the calls answer of a tree, another one, and the first without its parentheses.
fn of_bare<T: Whole>(alloc: Global, tree: &T, other: &T, bare: &T) -> Result<String, OutOfMemory> {
    let is_copy = is_as_copy(alloc, tree)?;
    let is_bare = is_as_bare(alloc, bare)?;
    let sides = sides_shown(tree.is_same(other), other.is_same(tree));
    Ok(format!(in alloc;
        "{sides}; height {}, same as its copy {is_copy}; without parentheses: height {}, at {}, same as the other {}, as before {}, as once more {is_bare}",
        tree.levels(),
        bare.levels(),
        bare.place(),
        bare.is_same(other),
        bare.is_same(tree)
    )?)
}

/// Whether a tree is the same as its copy.
fn is_as_copy<T: Whole>(alloc: Global, tree: &T) -> Result<bool, OutOfMemory> {
    let copy = tree.copied(alloc)?;
    Ok(copy.is_same(tree))
}

/// Whether a tree stays the same without its parentheses.
fn is_as_bare<T: Whole>(alloc: Global, tree: &T) -> Result<bool, OutOfMemory> {
    let bare = tree.bare(alloc)?;
    Ok(bare.is_same(tree))
}

/// Whether two trees are the same, as each of them says.
fn sides_shown(first: bool, second: bool) -> &'static str {
    match (first, second) {
        (true, true) => "same",
        (false, false) => "others",
        _ => "one side says same",
    }
}
