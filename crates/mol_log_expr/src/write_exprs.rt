//! Expressions as words.
ghost use Rattle.std.specs.Prelude.{◌≡◌, ℕ, ◌++◌, ◌∷◌, [], List as Items, IfOk, OnOk, map, codes};
ghost use Rattle.mol_base.specs.Identity.{spelled_id};
ghost use Rattle.mol_log_expr.specs.Expressions.{IsExpr};
ghost use Rattle.mol_log_expr.specs.ExpressionWords.{expr_words, argument_words, counted};
ghost use Rattle.mol_log_words.specs.Words.{numeral};
ghost use Rattle.mol_log_words.specs.TypeWords.{type_words};
ghost use Rattle.mol_log_expr.specs.declared.expr_role.ExprRole.{ExprRole as Role};

use mol_base::{Id, List, OutOfMemory, Text};
use mol_log_words::Written;
use mol_values_types::{Argument, IExpr, IType};
use std::alloc::Global;

/// The words of an expression, as a log has them. They are in the form wherever any words of the expression
/// are. `Err` is want of memory.
pub fn write_expr(alloc: Global, e: &IExpr) -> Result<List<Text>, OutOfMemory>
    ensures words { IfOk result (λ words. words ≡ expr_words e.now) }
    ensures form { IfOk result (λ words. (r : Role) (d : ℕ) (s : Items ℕ) (ts : Items (Items ℕ)) →
        IsExpr r d s e.now ts → IsExpr r d s e.now words) }
{
    let mut words = Written::new(alloc);
    add_expr(&mut words, e)?;
    Ok(words.into_list())
}

/// Adds the words of an expression. `Err` is want of memory.
#[cycle(write_expr)]
pub fn add_expr(words: &mut Written, e: &IExpr) -> Result<(), OutOfMemory>
    ensures { OnOk result (words.new ≡ words.old ++ expr_words e.now) }
{
    match e {
        IExpr::Lit(text) => words.text_after("lit", text),
        IExpr::This => words.word("this"),
        IExpr::Local(number) => local(words, *number),
        IExpr::Param(id) => words.id_after("param", id),
        IExpr::Own(id) => words.id_after("own", id),
        IExpr::StaticField(id) => words.id_after("sfield", id),
        IExpr::Field(id, e) => member(words, "field", id, e.get()),
        IExpr::Call(id, args) => call(words, "call", id, args.items()),
        IExpr::StaticCall(id, args) => call(words, "scall", id, args.items()),
        IExpr::CallOn(id, e, args) => {
            member(words, "callon", id, e.get())?;
            add_arguments(words, args.items())
        }
        IExpr::SuperCall(id, args) => call(words, "super", id, args.items()),
        IExpr::New(id, args) => call(words, "newc", id, args.items()),
        IExpr::NewDefault(id) => words.id_after("newd", id),
        IExpr::Cond(test, a, b) => {
            after(words, "cond", test.get())?;
            add_expr(words, a.get())?;
            add_expr(words, b.get())
        }
        IExpr::OutsideName(name) => words.text_after("outname", name),
        IExpr::OutsideClass(full) => words.text_after("outclass", full),
        IExpr::OutsideField(name, e) => operand(words, "outfield", name, e.get()),
        IExpr::OutsideCall(name, args) => outside(words, "outcall", name, args.items()),
        IExpr::OutsideCallOn(name, e, args) => {
            operand(words, "outcallon", name, e.get())?;
            add_exprs(words, args.items())
        }
        IExpr::OutsideSuperCall(name, args) => outside(words, "outsuper", name, args.items()),
        IExpr::NewOutside(ty, args) => typed(words, "newout", args.items(), ty),
        IExpr::NewArray(ty, sizes, pairs) => new_array(words, sizes.items(), ty, *pairs),
        IExpr::ArrayLit(ty, items) => typed(words, "arrlit", items.items(), ty),
        IExpr::Braces(items) => braces(words, items.items()),
        IExpr::Index(e, i) => {
            after(words, "index", e.get())?;
            add_expr(words, i.get())
        }
        IExpr::Unary(op, e) => operand(words, "unary", op, e.get()),
        IExpr::Post(op, e) => operand(words, "post", op, e.get()),
        IExpr::Binary(op, a, b) => {
            operand(words, "binary", op, a.get())?;
            add_expr(words, b.get())
        }
        IExpr::Assign(op, a, b) => {
            operand(words, "assign", op, a.get())?;
            add_expr(words, b.get())
        }
        IExpr::Cast(ty, e) => cast(words, e.get(), ty),
        IExpr::InstanceOf(e, ty) => {
            after(words, "instanceof", e.get())?;
            words.ty(ty)
        }
    }
}

fn local(words: &mut Written, number: u32) -> Result<(), OutOfMemory>
    ensures { OnOk result (words.new ≡ words.old ++ (codes "local" ∷ numeral number ∷ [])) }
{
    words.word("local")?;
    words.number(number as u64)
}

#[cycle(write_expr)]
fn after(words: &mut Written, word: &str, e: &IExpr) -> Result<(), OutOfMemory>
    ensures { OnOk result (words.new ≡ words.old ++ (word.now ∷ expr_words e.now)) }
{
    words.word(word)?;
    add_expr(words, e)
}

#[cycle(write_expr)]
fn member(words: &mut Written, word: &str, id: &Id, e: &IExpr) -> Result<(), OutOfMemory>
    ensures { OnOk result (words.new ≡ words.old ++ (word.now ∷ spelled_id id.now ∷ expr_words e.now)) }
{
    words.id_after(word, id)?;
    add_expr(words, e)
}

#[cycle(write_expr)]
fn call(words: &mut Written, word: &str, id: &Id, args: &[Argument]) -> Result<(), OutOfMemory>
    ensures { OnOk result (words.new ≡ words.old ++ (word.now ∷ spelled_id id.now ∷ counted (map argument_words args.now))) }
{
    words.id_after(word, id)?;
    add_arguments(words, args)
}

#[cycle(write_expr)]
fn operand(words: &mut Written, word: &str, text: &Text, e: &IExpr) -> Result<(), OutOfMemory>
    ensures { OnOk result (words.new ≡ words.old ++ (word.now ∷ text.now ∷ expr_words e.now)) }
{
    words.text_after(word, text)?;
    add_expr(words, e)
}

#[cycle(write_expr)]
fn outside(words: &mut Written, word: &str, name: &Text, args: &[IExpr]) -> Result<(), OutOfMemory>
    ensures { OnOk result (words.new ≡ words.old ++ (word.now ∷ name.now ∷ counted (map expr_words args.now))) }
{
    words.text_after(word, name)?;
    add_exprs(words, args)
}

#[cycle(write_expr)]
fn typed(words: &mut Written, word: &str, items: &[IExpr], ty: &IType) -> Result<(), OutOfMemory>
    ensures { OnOk result (words.new ≡ words.old ++ (word.now ∷ (type_words ty.now ++ counted (map expr_words items.now)))) }
{
    words.word(word)?;
    words.ty(ty)?;
    add_exprs(words, items)
}

#[cycle(write_expr)]
fn new_array(
    words: &mut Written,
    sizes: &[IExpr],
    ty: &IType,
    pairs: u32,
) -> Result<(), OutOfMemory>
    ensures { OnOk result (words.new ≡ words.old
        ++ (codes "newarr" ∷ (type_words ty.now ++ (counted (map expr_words sizes.now) ++ numeral pairs ∷ [])))) }
{
    typed(words, "newarr", sizes, ty)?;
    words.number(pairs as u64)
}

#[cycle(write_expr)]
fn braces(words: &mut Written, items: &[IExpr]) -> Result<(), OutOfMemory>
    ensures { OnOk result (words.new ≡ words.old ++ (codes "braces" ∷ counted (map expr_words items.now))) }
{
    words.word("braces")?;
    add_exprs(words, items)
}

#[cycle(write_expr)]
fn cast(words: &mut Written, e: &IExpr, ty: &IType) -> Result<(), OutOfMemory>
    ensures { OnOk result (words.new ≡ words.old ++ (codes "cast" ∷ (type_words ty.now ++ expr_words e.now))) }
{
    words.word("cast")?;
    words.ty(ty)?;
    add_expr(words, e)
}

/// Adds how many arguments there are, and their words. `Err` is want of memory.
#[cycle(write_expr)]
pub fn add_arguments(words: &mut Written, args: &[Argument]) -> Result<(), OutOfMemory>
    ensures { OnOk result (words.new ≡ words.old ++ counted (map argument_words args.now)) }
{
    words.number(args.len() as u64)?;
    for arg in args {
        add_argument(words, arg)?;
    }
    Ok(())
}

#[cycle(write_expr)]
fn add_argument(words: &mut Written, arg: &Argument) -> Result<(), OutOfMemory>
    ensures { OnOk result (words.new ≡ words.old ++ argument_words arg.now) }
{
    words.id(&arg.param)?;
    add_expr(words, &arg.value)
}

/// Adds how many expressions there are, and their words. `Err` is want of memory.
#[cycle(write_expr)]
pub fn add_exprs(words: &mut Written, es: &[IExpr]) -> Result<(), OutOfMemory>
    ensures { OnOk result (words.new ≡ words.old ++ counted (map expr_words es.now)) }
{
    words.number(es.len() as u64)?;
    for e in es {
        add_expr(words, e)?;
    }
    Ok(())
}
