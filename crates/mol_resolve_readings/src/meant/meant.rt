//! Expressions as they are read.
ghost use Rattle.std.specs.Prelude.{◌≡◌, IfOk};
ghost use Rattle.jav_names.specs.seen.Kept.{view_type, view_value};
ghost use Rattle.jav_names.specs.OnValues.{outside_value};
ghost use Rattle.jav_names.specs.StaticTypes.{of_type, of_literal};
ghost use Rattle.mol_resolve_readings.specs.meant.Kept.{view_meant};
ghost use Rattle.mol_resolve_readings.specs.meant.Made.{made, this_in};
ghost use Rattle.mol_values_types.specs.declared.iexpr.IExpr.TheVariants as exprs;

use jav_names::{SeenType, StaticType};
use mol_base::{Boxed, OutOfMemory, Text};
use mol_values_types::IExpr;
use std::alloc::Global;

/// An expression as it is read.
#[derive(Drop)]
pub struct Meant {
    /// The expression of a program, on the heap, where a greater one takes it as it is.
    pub tree: Boxed<IExpr>,
    /// Whether it is `this`.
    pub is_this: bool,
    /// Its static type.
    pub ty: StaticType,
}

impl Meant {
    /// An expression that is not `this`. `Err` is want of memory.
    pub fn new(alloc: Global, tree: IExpr, ty: StaticType) -> Result<Meant, OutOfMemory>
        ensures { IfOk result (λ value. view_meant value ≡ made tree (view_value ty)) }
    {
        let tree = Boxed::new(alloc, tree)?;
        Ok(Meant {
            tree,
            is_this: false,
            ty,
        })
    }

    /// An expression of a type: a variable or a call (JLS 6.5.6, 15.12.3). `Err` is want of memory.
    pub fn of_type(alloc: Global, tree: IExpr, ty: &SeenType) -> Result<Meant, OutOfMemory>
        ensures { IfOk result (λ value. view_meant value ≡ made tree (of_type (view_type ty.now))) }
    {
        let tree = Boxed::new(alloc, tree)?;
        let ty = StaticType::of_type(alloc, ty)?;
        Ok(Meant {
            tree,
            is_this: false,
            ty,
        })
    }

    /// `this` in a class, by the number of its file (JLS 15.8.3). `Err` is want of memory.
    pub fn this(alloc: Global, class: u32) -> Result<Meant, OutOfMemory>
        ensures { IfOk result (λ value. view_meant value ≡ this_in class) }
    {
        let tree = Boxed::new(alloc, IExpr::This)?;
        Ok(Meant {
            tree,
            is_this: true,
            ty: StaticType::Class(class),
        })
    }

    /// A literal by its text (JLS 15.8.1). `Err` is want of memory.
    pub fn literal(alloc: Global, text: &Text) -> Result<Meant, OutOfMemory>
        ensures { IfOk result (λ value. view_meant value ≡ made (exprs.Lit text.now) (of_literal text.now)) }
    {
        let tree = IExpr::Lit(text.copy(alloc)?);
        Meant::new(alloc, tree, StaticType::of_literal(text))
    }

    /// A name that is nothing of the program, such as a field of a superclass outside (JLS 6.5.6.1).
    /// `Err` is want of memory.
    pub fn outside_name(alloc: Global, name: &Text) -> Result<Meant, OutOfMemory>
        ensures { IfOk result (λ value. view_meant value ≡ made (exprs.OutsideName name.now) outside_value) }
    {
        let tree = IExpr::OutsideName(name.copy(alloc)?);
        Meant::new(alloc, tree, StaticType::Outside)
    }

    /// The name of an imported class outside, by its full name (JLS 7.5.1). `Err` is want of memory.
    pub fn outside_class(alloc: Global, import: &Text) -> Result<Meant, OutOfMemory>
        ensures { IfOk result (λ value. view_meant value ≡ made (exprs.OutsideClass import.now) outside_value) }
    {
        let tree = IExpr::OutsideClass(import.copy(alloc)?);
        Meant::new(alloc, tree, StaticType::Outside)
    }

    /// The expression of a program alone. It takes no memory.
    pub fn into_tree(self) -> IExpr
        ensures { result ≡ self.tree }
    {
        self.tree.into_inner()
    }
}
