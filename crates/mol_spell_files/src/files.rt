//! A program as source files in the one layout, with the heights of their trees.
ghost use Rattle.std.specs.Prelude.{◌≡◌, IfOk, map};
ghost use Rattle.mol_base.specs.Files.{file_pair, file_pairs};
ghost use Rattle.mol_spell_rules.specs.PrintedFiles.{printed_text};
ghost use Rattle.mol_spell.specs.keys.Keys.{key_of};
ghost use Rattle.mol_spell.specs.Spelt.{spelled_of, unit_at};
ghost use Rattle.mol_table_rules.specs.Tidy.{tidy};
ghost use Rattle.mol_spell_files.specs.ProgramTexts.{printed_height, program_heights, program_texts, written_text};

use jav_print::print;
use jav_print_height::printed_height;
use mol_base::{File, List, OutOfMemory};
use mol_spell::{SpeltUnit, UnitKey, file_keys, file_of};
use mol_spell_names::ProgramIndex;
use std::alloc::Global;

/// Files in the one layout, and of each in turn the height of its tree as printed.
#[derive(Drop)]
pub struct ProgramFiles {
    /// The files, with their paths relative to the folder of the sources.
    pub texts: Vec<File>,
    /// As many heights as there are files, as `printed_height` of `jav_print_height` counts them.
    pub heights: Vec<u32>,
}

/// The files of a program in the one layout, in the order of their paths, with the heights of their trees as printed: what a command writes
/// of the program, and what its digest is of.
///
/// Each value of the program is tidied already, as it is of each program that sources read as. No limit is tried: `refuse_large` does that.
/// The time is near-linear in the known identities and in the bytes of the files, but for what names cost. `Err` is want of memory.
pub fn program_files(alloc: Global, program: &ProgramIndex<'_>) -> Result<ProgramFiles, OutOfMemory>
    requires { tidy program.now ≡ program.now }
    ensures texts { IfOk result (λ made. file_pairs made.texts.items ≡ program_texts program.now) }
    ensures heights { IfOk result (λ made. made.heights.items ≡ program_heights program.now) }
{
    let keys = file_keys(alloc, program)?;
    files_of(alloc, program, keys)
}

/// The files of these keys in the one layout. Each is spelled and printed, and its tree let go of, before the next, so that memory never holds
/// more than one tree beside the program and the texts.
fn files_of(
    alloc: Global,
    program: &ProgramIndex<'_>,
    keys: Vec<UnitKey>,
) -> Result<ProgramFiles, OutOfMemory>
    ensures texts { IfOk result (λ made. file_pairs made.texts.items
        ≡ map written_text (map printed_text (map (unit_at program.now) (map key_of keys.items)))) }
    ensures heights { IfOk result (λ made. made.heights.items
        ≡ map printed_height (map (unit_at program.now) (map key_of keys.items))) }
{
    let mut texts: Vec<File> = Vec::new(alloc);
    let mut heights: Vec<u32> = Vec::new(alloc);
    for key in keys {
        let spelt = file_of(alloc, program, key)?;
        let PrintedFile { file, height } = printed_file(alloc, spelt)?;
        texts.push(file)?;
        heights.push(height)?;
    }
    Ok(ProgramFiles { texts, heights })
}

/// A file in the one layout, and the height of its tree as printed.
#[derive(Drop)]
struct PrintedFile {
    file: File,
    height: u32,
}

/// This file in the one layout.
fn printed_file(alloc: Global, spelt: SpeltUnit) -> Result<PrintedFile, OutOfMemory>
    ensures text { IfOk result (λ printed. file_pair printed.file ≡ written_text (printed_text (spelled_of spelt))) }
    ensures height { IfOk result (λ printed. printed.height ≡ printed_height (spelled_of spelt)) }
{
    let SpeltUnit {
        class: _,
        path,
        unit,
    } = spelt;
    let bytes = fitted(print(alloc, &unit)?);
    Ok(PrintedFile {
        file: File { path, bytes },
        height: printed_height(&unit),
    })
}

/// The same bytes without room to grow, for files that stand in memory together.
pub fn fitted(bytes: List<u8>) -> List<u8>
    ensures { result ≡ bytes }
{
    let mut bytes = bytes.into_vec();
    bytes.shrink_to_fit();
    List::from_vec(bytes)
}
