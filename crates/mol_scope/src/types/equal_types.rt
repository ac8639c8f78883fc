//! Equal types.
ghost use Rattle.std.specs.Prelude.{◌≡◌, IfOk};
ghost use Rattle.std.specs.Ordering.{is_eq};
ghost use Rattle.std.specs.Str.{bytes_eq};
ghost use Rattle.jav_names.specs.StaticTypes.{same_type};
ghost use Rattle.jav_names.specs.TypeTexts.{imported_text};
ghost use Rattle.jav_names.specs.Views.{class_type, outside_type, primitive_type};
ghost use Rattle.mol_base.specs.Order.{id_cmp};
ghost use Rattle.mol_resolve_rules.specs.ProgramViews.{seen};

use mol_base::{Id, OutOfMemory, Text};
use mol_values_types::IType;
use std::alloc::Global;

/// Whether two types are equal (JLS 4.3.4, 10.1): those outside by their texts.
pub(crate) fn same_types(alloc: Global, first: &IType, second: &IType) -> Result<bool, OutOfMemory>
    ensures { IfOk result (λ same. same ≡ same_type id_cmp (seen first.now) (seen second.now)) }
{
    match first {
        IType::Boolean => Ok(is_primitive(second, "boolean")),
        IType::Byte => Ok(is_primitive(second, "byte")),
        IType::Short => Ok(is_primitive(second, "short")),
        IType::Char => Ok(is_primitive(second, "char")),
        IType::Int => Ok(is_primitive(second, "int")),
        IType::Long => Ok(is_primitive(second, "long")),
        IType::Void => Ok(matches!(second, IType::Void)),
        IType::Class(class) => Ok(is_class(second, class)),
        IType::Imported(full, rest) => is_outside(alloc, second, full, rest.get().as_str()),
        IType::Written(text) => is_outside(alloc, second, text, ""),
        IType::Array(item) => match second {
            IType::Array(further) => same_types(alloc, item.get(), further.get()),
            _ => Ok(false),
        },
    }
}

/// Whether a type is the primitive type of this name.
fn is_primitive(ty: &IType, name: &str) -> bool
    ensures { result ≡ same_type id_cmp (primitive_type name.now) (seen ty.now) }
{
    match ty {
        IType::Boolean => name == "boolean",
        IType::Byte => name == "byte",
        IType::Short => name == "short",
        IType::Char => name == "char",
        IType::Int => name == "int",
        IType::Long => name == "long",
        _ => false,
    }
}

/// Whether a type is this class.
fn is_class(ty: &IType, class: &Id) -> bool
    ensures { result ≡ same_type id_cmp (class_type class.now) (seen ty.now) }
{
    match ty {
        IType::Class(own) => same_class(class, own),
        _ => false,
    }
}

/// Whether two classes are one.
pub(crate) fn same_class(first: &Id, second: &Id) -> bool
    ensures { result ≡ is_eq (id_cmp first.now second.now) }
{
    first == second
}

/// Whether a type is outside, with the text of this full name and, after a dot, the names that follow it.
fn is_outside(alloc: Global, ty: &IType, full: &Text, rest: &str) -> Result<bool, OutOfMemory>
    ensures { IfOk result (λ same. same ≡ same_type id_cmp (outside_type (imported_text full.now rest.now)) (seen ty.now)) }
{
    match ty {
        IType::Imported(own, more) => same_texts(alloc, full, rest, own, more.get().as_str()),
        IType::Written(text) => same_texts(alloc, full, rest, text, ""),
        _ => Ok(false),
    }
}

/// Whether two full names, each with the names that follow it after a dot, are one text.
fn same_texts(
    alloc: Global,
    full: &Text,
    rest: &str,
    own: &Text,
    more: &str,
) -> Result<bool, OutOfMemory>
    ensures { IfOk result (λ same. same ≡ bytes_eq (imported_text full.now rest.now) (imported_text own.now more.now)) }
{
    let first = imported_text(alloc, full, rest)?;
    let second = imported_text(alloc, own, more)?;
    Ok(first == second)
}

/// A full name, and after a dot the names that follow it, if there are any.
fn imported_text(alloc: Global, full: &Text, rest: &str) -> Result<Text, OutOfMemory>
    ensures { IfOk result (λ text. text ≡ imported_text full.now rest.now) }
{
    if rest.is_empty() {
        return full.copy(alloc);
    }
    let mut text = String::from_str(alloc, full.as_str())?;
    text.push_str(".")?;
    text.push_str(rest)?;
    Ok(Text::from_string(text))
}
