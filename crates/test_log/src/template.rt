//! Logs as lines with marks.
use mol_base::OutOfMemory;
use std::alloc::Global;

const DIGEST: &str = "ba7816bf8f01cfea414140de5dae2223b00361a396177a9cb410ff61f20015ad";

/// The bytes that a line with marks stands for.
pub fn bytes_of(alloc: Global, line: &str) -> Result<Vec<u8>, OutOfMemory> {
    let mut bytes = Vec::new(alloc);
    let mut pieces = line.split('#');
    if let Some(first) = pieces.next() {
        bytes.extend_from_slice(first.as_bytes())?;
    }
    for piece in pieces {
        add_piece(alloc, &mut bytes, piece)?;
    }
    Ok(bytes)
}

/// Adds a piece that begins with a mark, without its `#`.
fn add_piece(alloc: Global, bytes: &mut Vec<u8>, piece: &str) -> Result<(), OutOfMemory> {
    if let Some(behind) = piece.strip_prefix('H') {
        add_header(bytes, "\"ann\"")?;
        add(bytes, behind)
    } else if let Some(behind) = piece.strip_prefix('B') {
        add_header(bytes, "\"ann\",\"bob\"")?;
        add(bytes, behind)
    } else if let Some(behind) = piece.strip_prefix('n') {
        add(bytes, "\n")?;
        add(bytes, behind)
    } else if let Some(behind) = piece.strip_prefix('x') {
        bytes.push(0xff)?;
        add(bytes, behind)
    } else if let Some(behind) = piece.strip_prefix('r') {
        add_copies(alloc, bytes, behind)
    } else {
        Ok(())
    }
}

fn add(bytes: &mut Vec<u8>, text: &str) -> Result<(), OutOfMemory> {
    bytes.extend_from_slice(text.as_bytes())?;
    Ok(())
}

/// Adds a header with these tags, and its LF.
fn add_header(bytes: &mut Vec<u8>, tags: &str) -> Result<(), OutOfMemory> {
    add(bytes, "{\"base\":\"")?;
    add(bytes, DIGEST)?;
    add(bytes, "\",\"format\":1,\"tags\":[")?;
    add(bytes, tags)?;
    add(bytes, "]}\n")
}

/// Adds the copies of a text, as `3(TEXT)`, and what stands behind them.
fn add_copies(alloc: Global, bytes: &mut Vec<u8>, piece: &str) -> Result<(), OutOfMemory> {
    let Some((count, behind)) = piece.split_once('(') else {
        return Ok(());
    };
    let Some((copy, behind)) = behind.split_once(')') else {
        return Ok(());
    };
    let count = count.parse::<u32>().unwrap_or(0);
    for number in 1..=count {
        add_copy(alloc, bytes, copy, number)?;
    }
    add(bytes, behind)
}

/// Adds the copy of this number.
fn add_copy(
    alloc: Global,
    bytes: &mut Vec<u8>,
    copy: &str,
    number: u32,
) -> Result<(), OutOfMemory> {
    for byte in copy.as_bytes() {
        match *byte {
            b'^' => add_number(alloc, bytes, number)?,
            b'$' => bytes.push(b'\n')?,
            byte => bytes.push(byte)?,
        }
    }
    Ok(())
}

/// Adds the digits of a number.
fn add_number(alloc: Global, bytes: &mut Vec<u8>, number: u32) -> Result<(), OutOfMemory> {
    let digits = format!(in alloc; "{number}")?;
    add(bytes, digits.as_str())
}
