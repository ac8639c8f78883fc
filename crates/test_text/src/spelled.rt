//! Tags, identities and stamps.
use crate::escapes::bytes_of;
use mol_base::{Id, OutOfMemory, Stamp, Tag};
use std::alloc::Global;

/// The tag of this text and how many bytes it has, or why the text is none; that of a base where there is no text.
pub fn tag(alloc: Global, text: &str) -> Result<String, OutOfMemory> {
    if text == "base" {
        return shown_tag(alloc, Tag::base());
    }
    let bytes = bytes_of(alloc, text)?;
    match Tag::parse(bytes.as_slice()) {
        Ok(tag) => shown_tag(alloc, tag),
        Err(fault) => Ok(format!(in alloc; "{fault:?}")?),
    }
}

fn shown_tag(alloc: Global, tag: Tag) -> Result<String, OutOfMemory> {
    let count = tag.bytes().len();
    Ok(format!(in alloc; "\"{}\", {count}", tag.as_str())?)
}

/// The tag and the number of the identity that this text spells, and how it is written again.
pub fn identity(alloc: Global, text: &str) -> Result<String, OutOfMemory> {
    let bytes = bytes_of(alloc, text)?;
    match Id::parse(bytes.as_slice()) {
        Some(id) => shown_identity(alloc, id),
        None => Ok(String::from_str(alloc, "none")?),
    }
}

fn shown_identity(alloc: Global, id: Id) -> Result<String, OutOfMemory> {
    let written = id.write(alloc)?;
    Ok(format!(in alloc; "\"{}\" {} {}", id.tag.as_str(), id.num, written.as_str())?)
}

/// The tag and the number of the stamp that this text spells, and how it is written again.
pub fn stamp(alloc: Global, text: &str) -> Result<String, OutOfMemory> {
    let bytes = bytes_of(alloc, text)?;
    match Stamp::parse(bytes.as_slice()) {
        Some(stamp) => shown_stamp(alloc, stamp),
        None => Ok(String::from_str(alloc, "none")?),
    }
}

fn shown_stamp(alloc: Global, stamp: Stamp) -> Result<String, OutOfMemory> {
    let written = stamp.write(alloc)?;
    Ok(format!(in alloc;
        "\"{}\" {} {}",
        stamp.tag.as_str(),
        stamp.seq,
        written.as_str()
    )?)
}
