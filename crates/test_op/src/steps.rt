//! The steps that a line may ask for.
use crate::answer::Answer;
use crate::cells::{slot_of, value_of};
use crate::fault::CaseFault;
use crate::line::Line;
use crate::operations::read_operation;
use mol_base::Tag;
use mol_op::{ApplyFault, OpFault, Operation};
use mol_table::Table;
use mol_values::same_value;
use mol_values_types::{Cell, Value};
use std::alloc::Global;

/// The table that the steps go through, and the base that was kept.
#[derive(Drop)]
pub struct Tables {
    table: Table,
    base: Table,
}

impl Tables {
    /// Two tables that know nothing.
    pub fn new(alloc: Global) -> Tables {
        Tables {
            table: Table::new(alloc),
            base: Table::new(alloc),
        }
    }
}

/// What a line asks for.
#[derive(Clone, Copy)]
enum Step {
    Apply,
    Ask,
    Known,
    Lives,
    Is,
    Base,
    Keep,
    Tidy,
}

impl Step {
    /// The step of this name.
    fn of(word: &str) -> Option<Step> {
        match word {
            "apply" => Some(Step::Apply),
            "ask" => Some(Step::Ask),
            "known" => Some(Step::Known),
            "lives" => Some(Step::Lives),
            "is" => Some(Step::Is),
            "base" => Some(Step::Base),
            "keep" => Some(Step::Keep),
            "tidy" => Some(Step::Tidy),
            _ => None,
        }
    }
}

/// What `apply` answers, where `applies` has to answer the same.
fn answer_of_both(
    asked: Result<(), OpFault>,
    applied: Result<(), ApplyFault>,
) -> Result<Answer, CaseFault> {
    match (asked, applied) {
        (_, Err(ApplyFault::OutOfMemory)) => Err(CaseFault::OutOfMemory),
        (Ok(()), Ok(())) => Ok(Answer::plain("applied")),
        (Err(asked), Err(ApplyFault::Refused(fault))) => Ok(refused(asked, fault)),
        _ => Ok(Answer::plain(DIFFER)),
    }
}

/// What is printed where `applies` and `apply` do not say the same.
const DIFFER: &str = "applies and apply differ";

/// The fault that both calls answer.
fn refused(asked: OpFault, fault: OpFault) -> Answer {
    if asked == fault {
        Answer::refused(fault)
    } else {
        Answer::plain(DIFFER)
    }
}

/// Applies an operation, if nothing else is left of its line.
fn apply_whole<O: Operation>(
    alloc: Global,
    table: &mut Table,
    tag: Tag,
    operation: &O,
    line: &Line<'_>,
) -> Result<Answer, CaseFault> {
    line.end()?;
    let asked = operation.applies(tag, table);
    let applied = operation.apply(alloc, tag, table);
    answer_of_both(asked, applied)
}

/// Applies an operation, if it was read.
fn apply_read<O: Operation + Drop>(
    alloc: Global,
    table: &mut Table,
    tag: Tag,
    read: Result<O, CaseFault>,
    line: &Line<'_>,
) -> Result<Answer, CaseFault> {
    match read {
        Ok(operation) => apply_whole(alloc, table, tag, &operation, line),
        Err(fault) => Err(fault),
    }
}

/// Applies the operation that follows.
fn apply(alloc: Global, table: &mut Table, line: &mut Line<'_>) -> Result<Answer, CaseFault> {
    let tag = line.tag();
    let read = read_operation(alloc, line);
    apply_read(alloc, table, tag, read, line)
}

/// Whether an operation applies.
fn answer_of_applies<O: Operation>(table: &Table, tag: Tag, operation: &O) -> Answer {
    match operation.applies(tag, table) {
        Ok(()) => Answer::plain("applies"),
        Err(fault) => Answer::refused(fault),
    }
}

/// Whether an operation applies, if it was read.
fn ask_read<O: Operation + Drop>(
    table: &Table,
    tag: Tag,
    read: Result<O, CaseFault>,
) -> Result<Answer, CaseFault> {
    match read {
        Ok(operation) => Ok(answer_of_applies(table, tag, &operation)),
        Err(fault) => Err(fault),
    }
}

/// Whether the operation that follows applies.
fn ask(alloc: Global, table: &Table, line: &mut Line<'_>) -> Result<Answer, CaseFault> {
    let tag = line.tag();
    ask_read(table, tag, read_operation(alloc, line))
}

/// Whether a cell holds this value.
fn held(table: &Table, cell: &Cell, value: &Value) -> Answer {
    match table.get(cell) {
        Some(held) => Answer::truth(same_value(held, value)),
        None => Answer::plain("no such cell"),
    }
}

/// Whether a cell holds this value, which is let go of here, once.
fn held_or_not(table: &Table, cell: &Cell, value: Value) -> Answer {
    held(table, cell, &value)
}

/// Whether a cell of this slot holds the value that follows.
fn compare_slot(
    alloc: Global,
    table: &Table,
    line: &mut Line<'_>,
    cell: &Cell,
) -> Result<Answer, CaseFault> {
    match value_of(alloc, line, cell.slot) {
        Ok(value) => Ok(held_or_not(table, cell, value)),
        Err(fault) => Err(fault),
    }
}

/// Whether a cell holds the value that follows.
fn compare(alloc: Global, table: &Table, line: &mut Line<'_>) -> Result<Answer, CaseFault> {
    let id = line.id();
    match slot_of(line.word()) {
        Some(slot) => compare_slot(alloc, table, line, &Cell { id, slot }),
        None => Err(CaseFault::Unread),
    }
}

/// Puts a copy of the base in the place of the table.
fn make(alloc: Global, tables: &mut Tables) -> Result<Answer, CaseFault> {
    tables.table = tables.base.copy(alloc)?;
    Ok(Answer::plain("made"))
}

/// Keeps a copy of the table as the base.
fn keep(alloc: Global, tables: &mut Tables) -> Result<Answer, CaseFault> {
    tables.base = tables.table.copy(alloc)?;
    Ok(Answer::plain("kept"))
}

/// Puts the tidied table in the place of the table.
fn tidy(alloc: Global, tables: &mut Tables) -> Result<Answer, CaseFault> {
    tables.table = tables.table.tidy(alloc)?;
    Ok(Answer::plain("tidied"))
}

/// Takes a step, which reads what is left of a line.
fn answer_to(
    alloc: Global,
    tables: &mut Tables,
    step: Step,
    line: &mut Line<'_>,
) -> Result<Answer, CaseFault> {
    match step {
        Step::Apply => apply(alloc, &mut tables.table, line),
        Step::Ask => ask(alloc, &tables.table, line),
        Step::Is => compare(alloc, &tables.table, line),
        Step::Known => Ok(Answer::known(tables.table.known(line.id()))),
        Step::Lives => Ok(Answer::truth(tables.table.lives(line.id()))),
        Step::Base => make(alloc, tables),
        Step::Keep => keep(alloc, tables),
        Step::Tidy => tidy(alloc, tables),
    }
}

/// The answer to a line.
fn answer_of(alloc: Global, tables: &mut Tables, line: &str) -> Result<Answer, CaseFault> {
    let mut line = Line::new(line);
    let Some(step) = Step::of(line.word()) else {
        return Err(CaseFault::Unread);
    };
    match answer_to(alloc, tables, step, &mut line) {
        Ok(answer) => match line.end() {
            Ok(()) => Ok(answer),
            Err(fault) => Err(fault),
        },
        Err(fault) => Err(fault),
    }
}

/// The answer to a line, or why it has none.
pub fn answer_or_fault(alloc: Global, tables: &mut Tables, line: &str) -> Answer {
    match answer_of(alloc, tables, line) {
        Ok(answer) => answer,
        Err(fault) => Answer::plain(fault.name()),
    }
}
