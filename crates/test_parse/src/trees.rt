//! Trees, as text: types that are no arrays of arrays, statements that hold no others, and fields of literals.
use jav_tree::{Block, Expr, ExprNode, Field, Member, Stmt, StmtNode, TypeName};
use mol_base::OutOfMemory;
use std::alloc::Global;

/// A type.
pub fn type_shown(alloc: Global, ty: &TypeName) -> Result<String, OutOfMemory> {
    match ty {
        TypeName::ArrayOf(item) => item_shown(alloc, "array of ", item.get()),
        _ => item_shown(alloc, "", ty),
    }
}

/// A type that is no array, behind these words.
fn item_shown(alloc: Global, front: &str, ty: &TypeName) -> Result<String, OutOfMemory> {
    let (kind, name) = match ty {
        TypeName::Prim(name) => ("primitive ", name.as_str()),
        TypeName::Named(name) => ("class ", name.as_str()),
        TypeName::ArrayOf(_) => ("array", ""),
        TypeName::Void => ("void", ""),
    };
    Ok(format!(in alloc; "{front}{kind}{name}")?)
}

/// The statements of a block, and how many comments stand behind them.
pub fn block_shown(alloc: Global, block: &Block) -> Result<String, OutOfMemory> {
    let mut shown = String::new(alloc);
    for stmt in block.items.items() {
        push_stmt(alloc, &mut shown, stmt)?;
    }
    let tail = format!(in alloc; "{} comments", block.tail.items().len())?;
    shown.push_str(tail.as_str())?;
    Ok(shown)
}

/// Adds a statement: what it is, where it begins, and how many comments stand before it.
fn push_stmt(alloc: Global, shown: &mut String, stmt: &Stmt) -> Result<(), OutOfMemory> {
    let kind = match &stmt.node {
        StmtNode::Empty => "empty",
        _ => "another",
    };
    let notes = stmt.notes.items().len();
    let piece = format!(in alloc; "{kind} at {}, {notes} comments; ", stmt.at)?;
    shown.push_str(piece.as_str())?;
    Ok(())
}

/// The members of a declaration.
pub fn members_shown(alloc: Global, members: &[Member]) -> Result<String, OutOfMemory> {
    let mut shown = String::new(alloc);
    for member in members {
        let piece = member_shown(alloc, member)?;
        shown.push_str(piece.as_str())?;
    }
    Ok(shown)
}

fn member_shown(alloc: Global, member: &Member) -> Result<String, OutOfMemory> {
    match member {
        Member::Field(field) => field_shown(alloc, field),
        Member::Method(_) => Ok(String::from_str(alloc, "method; ")?),
        Member::Ctor(_) => Ok(String::from_str(alloc, "constructor; ")?),
    }
}

/// A field: its name, where it begins, its type, how many comments and modifiers it has, and its first value.
fn field_shown(alloc: Global, field: &Field) -> Result<String, OutOfMemory> {
    let ty = type_shown(alloc, &field.ty)?;
    let value = value_shown(alloc, &field.init)?;
    Ok(format!(in alloc;
        "{} at {}, {ty}, {} comments, {} modifiers, {value}; ",
        field.name.as_str(),
        field.at,
        field.front.items().len(),
        field.words.items().len()
    )?)
}

/// A first value, if there is any, that is a literal.
fn value_shown(alloc: Global, value: &Option<Expr>) -> Result<String, OutOfMemory> {
    match value {
        None => Ok(String::from_str(alloc, "no value")?),
        Some(Expr { at, node }) => match node {
            ExprNode::Lit(text) => Ok(format!(in alloc; "literal {} at {at}", text.as_str())?),
            _ => Ok(String::from_str(alloc, "another value")?),
        },
    }
}
