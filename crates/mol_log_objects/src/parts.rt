//! Parts of an operation as JSON, and as members of an object.
ghost use Rattle.std.specs.Prelude.{◌≡◌, IfOk, OnOk, option_map};
ghost use Rattle.serde_json.specs.Data.{put, string};
ghost use Rattle.serde_json.specs.View.{view};
ghost use Rattle.mol_log_words.specs.TypeWords.{type_words};
ghost use Rattle.mol_log_expr.specs.ExpressionWords.{expr_words};
ghost use Rattle.mol_log_body.specs.BodyWords.{body_words};
ghost use Rattle.mol_log_objects.specs.ParamRows.{param_row, param_rows};
ghost use Rattle.mol_log_rows.specs.lines.Objects.{texts_data, maybe_texts};
ghost use Rattle.mol_log_rows.specs.rows.RowData.{kind_data, param_data, params_data, class_notes as class_notes_of};
ghost use Rattle.mol_log_objects.specs.Members.{members_in};

use crate::object::{Object, texts_value};
use mol_base::OutOfMemory;
use mol_log_body::write_body;
use mol_log_expr::write_expr;
use mol_log_words::write_type;
use mol_values_types::{IBody, IExpr, IType, MethodKind, Notes, Param};
use serde_json::Value;
use std::alloc::Global;

impl Object {
    /// Puts the name of an instance or a static method at the key. A constructor has none.
    pub fn kind(&mut self, key: &str, kind: MethodKind) -> Result<(), OutOfMemory>
        ensures { OnOk result (members_in self.new ≡ put key.now (kind_data kind) (members_in self.old)) }
    {
        self.text(key, kind_name(kind))
    }

    /// Puts the comments of a class at the key.
    pub fn class_notes(&mut self, key: &str, notes: &Notes) -> Result<(), OutOfMemory>
        ensures { OnOk result (members_in self.new ≡ put key.now (class_notes_of notes.now) (members_in self.old)) }
    {
        let value = notes_value(self.alloc(), notes)?;
        self.add(key, value)
    }

    /// Puts the words of a type at the key.
    pub fn ty(&mut self, key: &str, ty: &IType) -> Result<(), OutOfMemory>
        ensures { OnOk result (members_in self.new ≡ put key.now (texts_data (type_words ty.now)) (members_in self.old)) }
    {
        let value = type_value(self.alloc(), ty)?;
        self.add(key, value)
    }

    /// Puts the words of a superclass at the key, or `null` where there is none.
    pub fn superclass(&mut self, key: &str, ty: &Option<IType>) -> Result<(), OutOfMemory>
        ensures { OnOk result (members_in self.new ≡ put key.now (maybe_texts (option_map type_words ty.now)) (members_in self.old)) }
    {
        let value = superclass_value(self.alloc(), ty)?;
        self.add(key, value)
    }

    /// Puts the words of a first value at the key, or `null` where there is none.
    pub fn first_value(&mut self, key: &str, init: &Option<IExpr>) -> Result<(), OutOfMemory>
        ensures { OnOk result (members_in self.new ≡ put key.now (maybe_texts (option_map expr_words init.now)) (members_in self.old)) }
    {
        let value = init_value(self.alloc(), init)?;
        self.add(key, value)
    }

    /// Puts the words of a body at the key, or `null` where there is none.
    pub fn body(&mut self, key: &str, body: &Option<IBody>) -> Result<(), OutOfMemory>
        ensures { OnOk result (members_in self.new ≡ put key.now (maybe_texts (option_map body_words body.now)) (members_in self.old)) }
    {
        let value = body_value(self.alloc(), body)?;
        self.add(key, value)
    }

    /// Puts the list of the parameters at the key.
    pub fn params(&mut self, key: &str, params: &[Param]) -> Result<(), OutOfMemory>
        ensures { OnOk result (members_in self.new ≡ put key.now (params_data (param_rows params.now)) (members_in self.old)) }
    {
        let value = params_value(self.alloc(), params)?;
        self.add(key, value)
    }
}

/// The name of an instance or a static method, and no text for a constructor, which is added without one.
pub fn kind_name(kind: MethodKind) -> &'static str
    ensures { string result.now ≡ kind_data kind }
{
    match kind {
        MethodKind::Instance => "instance",
        MethodKind::Static => "static",
        MethodKind::Constructor => "",
    }
}

/// The list of the words of a type.
pub fn type_value(alloc: Global, ty: &IType) -> Result<Value, OutOfMemory>
    ensures { IfOk result (λ value. view value ≡ texts_data (type_words ty.now)) }
{
    let words = write_type(alloc, ty)?;
    texts_value(alloc, words.items())
}

/// The list of the words of a superclass, or `null` where there is none.
pub fn superclass_value(alloc: Global, ty: &Option<IType>) -> Result<Value, OutOfMemory>
    ensures { IfOk result (λ value. view value ≡ maybe_texts (option_map type_words ty.now)) }
{
    match ty {
        Some(ty) => type_value(alloc, ty),
        None => Ok(Value::Null),
    }
}

/// The list of the words of an expression.
fn expr_value(alloc: Global, expr: &IExpr) -> Result<Value, OutOfMemory>
    ensures { IfOk result (λ value. view value ≡ texts_data (expr_words expr.now)) }
{
    let words = write_expr(alloc, expr)?;
    texts_value(alloc, words.items())
}

/// The list of the words of a first value, or `null` where there is none.
pub fn init_value(alloc: Global, init: &Option<IExpr>) -> Result<Value, OutOfMemory>
    ensures { IfOk result (λ value. view value ≡ maybe_texts (option_map expr_words init.now)) }
{
    match init {
        Some(init) => expr_value(alloc, init),
        None => Ok(Value::Null),
    }
}

/// The list of the words of a body that is there.
fn block_value(alloc: Global, body: &IBody) -> Result<Value, OutOfMemory>
    ensures { IfOk result (λ value. view value ≡ texts_data (body_words body.now)) }
{
    let words = write_body(alloc, body)?;
    texts_value(alloc, words.items())
}

/// The list of the words of a body, or `null` where there is none.
pub fn body_value(alloc: Global, body: &Option<IBody>) -> Result<Value, OutOfMemory>
    ensures { IfOk result (λ value. view value ≡ maybe_texts (option_map body_words body.now)) }
{
    match body {
        Some(body) => block_value(alloc, body),
        None => Ok(Value::Null),
    }
}

/// The object of the comments of a class.
pub fn notes_value(alloc: Global, notes: &Notes) -> Result<Value, OutOfMemory>
    ensures { IfOk result (λ value. view value ≡ class_notes_of notes.now) }
{
    let mut object = Object::new(alloc);
    object.texts("front", notes.front.items())?;
    object.texts("head", notes.head.items())?;
    object.texts("tail", notes.tail.items())?;
    Ok(object.into_value())
}

/// The list of the parameters' objects.
pub fn params_value(alloc: Global, params: &[Param]) -> Result<Value, OutOfMemory>
    ensures { IfOk result (λ value. view value ≡ params_data (param_rows params.now)) }
{
    let mut items = Vec::new(alloc);
    for param in params {
        items.push(param_value(alloc, param)?)?;
    }
    Ok(Value::Array(items))
}

/// The object of a parameter.
fn param_value(alloc: Global, param: &Param) -> Result<Value, OutOfMemory>
    ensures { IfOk result (λ value. view value ≡ param_data (param_row param.now)) }
{
    let mut object = Object::new(alloc);
    object.text("filler", param.filler.as_str())?;
    object.id("id", &param.id)?;
    object.text("name", param.name.as_str())?;
    object.ty("type", &param.ty)?;
    Ok(object.into_value())
}
