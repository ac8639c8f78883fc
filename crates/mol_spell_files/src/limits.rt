//! The limits of the files of a result.
ghost use Rattle.std.specs.Prelude.{◌≡◌, None, Some, IfErr, OnOk};
ghost use Rattle.mol_base.specs.Files.{file_pairs};
ghost use Rattle.mol_spell_files.specs.FileLimits.{IsAbove, files_limit, long_text, long_texts, many_files, tall_tree};

use mol_base::{File, Which};

/// A number that passes its limit.
#[derive(Clone, Copy, Debug, PartialEq, Eq)]
pub struct LimitFault {
    pub which: Which,
    /// How many of them there are: more than `which.most()`.
    pub number: u64,
}

/// Refuses files that pass a limit of a result, with the heights of their trees as printed: first how many there are, then the bytes of each,
/// then those of all together, then the heights. To be asked before the first of them is written.
///
/// The number of the fault is the first that passes, in the order of the files; of the bytes of all it is the sum up to and with the first file
/// at which it passes.
pub fn refuse_large(texts: &[File], heights: &[u32]) -> Result<(), LimitFault>
    ensures allowed { OnOk result (files_limit (file_pairs texts.now) heights.now ≡ None) }
    ensures refused { IfErr result (λ fault. files_limit (file_pairs texts.now) heights.now ≡ Some fault) }
    ensures above { IfErr result IsAbove }
{
    refuse_many(texts)?;
    refuse_long_text(texts)?;
    refuse_long_texts(texts)?;
    refuse_tall_tree(heights)
}

/// Refuses more files than a result may have.
fn refuse_many(texts: &[File]) -> Result<(), LimitFault>
    ensures allowed { OnOk result (many_files (file_pairs texts.now) ≡ None) }
    ensures refused { IfErr result (λ fault. many_files (file_pairs texts.now) ≡ Some fault) }
    ensures above { IfErr result IsAbove }
{
    let number = texts.len() as u64;
    if number > Which::Files.most() {
        return Err(LimitFault {
            which: Which::Files,
            number,
        });
    }
    Ok(())
}

/// Refuses the first text that passes the limit of one file.
fn refuse_long_text(texts: &[File]) -> Result<(), LimitFault>
    ensures allowed { OnOk result (long_text (file_pairs texts.now) ≡ None) }
    ensures refused { IfErr result (λ fault. long_text (file_pairs texts.now) ≡ Some fault) }
    ensures above { IfErr result IsAbove }
{
    for text in texts {
        let number = text.bytes.items().len() as u64;
        if number > Which::FileBytes.most() {
            return Err(LimitFault {
                which: Which::FileBytes,
                number,
            });
        }
    }
    Ok(())
}

/// Refuses texts that pass the limit of all files together.
fn refuse_long_texts(texts: &[File]) -> Result<(), LimitFault>
    ensures allowed { OnOk result (long_texts 0 (file_pairs texts.now) ≡ None) }
    ensures refused { IfErr result (λ fault. long_texts 0 (file_pairs texts.now) ≡ Some fault) }
    ensures above { IfErr result IsAbove }
{
    let mut total: u64 = 0;
    for text in texts {
        total += text.bytes.items().len() as u64;
        if total > Which::SourceBytes.most() {
            return Err(LimitFault {
                which: Which::SourceBytes,
                number: total,
            });
        }
    }
    Ok(())
}

/// Refuses the first height that passes the limit of a tree.
fn refuse_tall_tree(heights: &[u32]) -> Result<(), LimitFault>
    ensures allowed { OnOk result (tall_tree heights.now ≡ None) }
    ensures refused { IfErr result (λ fault. tall_tree heights.now ≡ Some fault) }
    ensures above { IfErr result IsAbove }
{
    for height in heights {
        let number = u64::from(*height);
        if number > Which::Height.most() {
            return Err(LimitFault {
                which: Which::Height,
                number,
            });
        }
    }
    Ok(())
}
