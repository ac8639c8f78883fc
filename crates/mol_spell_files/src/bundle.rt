//! The digest of files: that of their bundle, in which each stands after its path and its length.
ghost use Rattle.std.specs.Prelude.{List as Items, ◌≡◌, ◌++◌, ◌∷◌, [], ℕ, IfOk, OnOk, length};
ghost use Rattle.std.specs.Fmt.{decimal};
ghost use Rattle.sha2.specs.Hashers.{Holds256};
ghost use Rattle.sha2.specs.Sha256.{sha256};
ghost use Rattle.mol_base.specs.Files.{file_pair, file_pairs};
ghost use Rattle.mol_spell_files.specs.Bundle.{bundle, bundled, head_of};

use crate::append::push_number;
use mol_base::{File, OutOfMemory};
use sha2::{Digest, Sha256};
use std::alloc::Global;

/// SHA-256 (FIPS 180-4) of the files in this order, each as its path, LF, its length in bytes, in decimal, LF and its bytes.
///
/// Of the files of a base, in the order of their paths, it is the digest that the header of a log has. The files are taken one after another,
/// so that no second copy of them is made. The time is linear in their bytes. `Err` is want of memory.
pub fn digest_of_files(alloc: Global, files: &[File]) -> Result<[u8; 32], OutOfMemory>
    ensures { IfOk result (λ digest. digest ≡ sha256 (bundle (file_pairs files.now))) }
{
    let mut hasher = Sha256::new();
    for file in files {
        add_file(alloc, &mut hasher, file)?;
    }
    Ok(hasher.finalize())
}

/// Adds what a file is in a bundle to the message.
fn add_file(alloc: Global, hasher: &mut Sha256, file: &File) -> Result<(), OutOfMemory>
    ensures { OnOk result ((message : Items ℕ) → Holds256 hasher.old message
        → Holds256 hasher.new (message ++ bundled (file_pair file.now))) }
{
    let head = file_head(alloc, file)?;
    hasher.update(head.as_slice());
    hasher.update(file.bytes.items());
    Ok(())
}

/// What stands before the bytes of a file: its path and its length, each with LF behind it.
fn file_head(alloc: Global, file: &File) -> Result<Vec<u8>, OutOfMemory>
    ensures { IfOk result (λ head. head.items ≡ head_of (file_pair file.now)) }
{
    let mut head = Vec::new(alloc);
    head.extend_from_slice(file.path.bytes())?;
    head.push(b'\n')?;
    push_number(alloc, &mut head, file.bytes.items().len() as u64)?;
    head.push(b'\n')?;
    Ok(head)
}
