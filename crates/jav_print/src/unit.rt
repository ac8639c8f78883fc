//! Source files and classes.
ghost use Rattle.std.specs.Prelude.{◌≡◌, ◌++◌, OnOk, map};
ghost use Rattle.jav_tree.specs.Layout as spec;
ghost use Rattle.jav_tree.specs.Lines.{all_of};
ghost use Rattle.jav_print.specs.Modifiers.{class_header};

mod members;
mod modifiers;

use crate::page::Page;
use jav_tree::{ClassDecl, Member, TypeName, Unit};
use mol_base::{OutOfMemory, Text};

impl Page {
    /// Appends a source file.
    pub fn unit(&mut self, unit: &Unit) -> Result<(), OutOfMemory>
        ensures { OnOk result (self.new ≡ self.old ++ spec.unit_text unit.now) }
    {
        self.comments(0, unit.head.items())?;
        self.put("package ")?;
        self.put(unit.package.as_str())?;
        self.put(";\n\n")?;
        self.imports(unit.imports.items())?;
        self.class(&unit.class)
    }

    /// Appends the imports, and an empty line if there is one.
    fn imports(&mut self, imports: &[Text]) -> Result<(), OutOfMemory>
        ensures { OnOk result (self.new ≡ self.old ++ spec.import_lines imports.now) }
    {
        match imports {
            [] => Ok(()),
            [_, ..] => {
                self.import_lines(imports)?;
                self.put("\n")
            }
        }
    }

    fn import_lines(&mut self, imports: &[Text]) -> Result<(), OutOfMemory>
        ensures { OnOk result (self.new ≡ self.old ++ all_of (map spec.import_line imports.now)) }
    {
        for import in imports {
            self.put("import ")?;
            self.put(import.as_str())?;
            self.put(";\n")?;
        }
        Ok(())
    }

    fn class(&mut self, class: &ClassDecl) -> Result<(), OutOfMemory>
        ensures { OnOk result (self.new ≡ self.old ++ spec.class_text class.now) }
    {
        self.class_header(class)?;
        self.members(&class.name, class.members.items())?;
        self.last_comments(class.members.items(), class.tail.items())?;
        self.put("}\n")
    }

    /// Appends what stands before the members.
    fn class_header(&mut self, class: &ClassDecl) -> Result<(), OutOfMemory>
        ensures { OnOk result (self.new ≡ self.old ++ class_header class.now) }
    {
        self.comments(0, class.front.items())?;
        self.modifiers(class.words.items(), false, false)?;
        self.put("class ")?;
        self.put(class.name.as_str())?;
        self.parent(&class.parent)?;
        self.put(" {\n")
    }

    fn parent(&mut self, parent: &Option<TypeName>) -> Result<(), OutOfMemory>
        ensures { OnOk result (self.new ≡ self.old ++ spec.parent_text parent.now) }
    {
        match parent {
            Some(ty) => {
                self.put(" extends ")?;
                self.type_name(ty)
            }
            None => Ok(()),
        }
    }

    /// Appends members with an empty line between two.
    fn members(&mut self, class: &Text, members: &[Member]) -> Result<(), OutOfMemory>
        ensures { OnOk result (self.new ≡ self.old ++ spec.members_lines class.now members.now) }
    {
        if let [first, rest @ ..] = members {
            self.class_member(class, first)?;
            for each in rest {
                self.put("\n")?;
                self.class_member(class, each)?;
            }
        }
        Ok(())
    }

    /// Appends the last comments of a class, after an empty line if there are members.
    fn last_comments(&mut self, members: &[Member], tail: &[Text]) -> Result<(), OutOfMemory>
        ensures { OnOk result (self.new ≡ self.old ++ spec.tail_lines members.now tail.now) }
    {
        match (tail, members) {
            ([], _) => Ok(()),
            ([_, ..], []) => self.comments(1, tail),
            ([_, ..], [_, ..]) => {
                self.put("\n")?;
                self.comments(1, tail)
            }
        }
    }
}
