//! The first line of a log.
#![tactic(auto, unfolding(crate::specs::lines::Reader::and_then))]

ghost use Rattle.std.specs.Prelude.{◌≡◌, ◌==◌, Some, is_some, codes, IfOk, IfErr};
ghost use Rattle.std.specs.List.{list_all};
ghost use Rattle.std.specs.Str.{bytes_eq};
ghost use Rattle.hex.specs.Hex.{encode_lower};
ghost use Rattle.mol_base.specs.Spelled.{is_tag};
ghost use Rattle.serde_json.specs.View.{view};
ghost use Rattle.mol_log_rows.specs.lines.HeaderReader.{digest_from, format_from, tags_from, header_from};
ghost use Rattle.mol_log_rows.specs.lines.Headers.{IsHeader, header_data, are_tags, ascend as ascend_of};
ghost use Rattle.mol_log_rows.specs.lines.Objects.{texts_data};
ghost use Rattle.mol_log_rows.specs.lines.Reader.{Gives, Reads, ReadsKnown, kept, members_left, part};
ghost use Rattle.mol_log_rows.specs.declared.lines.header.Header.{Header as AnyHeader};

use crate::lines::{Members, ObjectFault, parts};
use mol_base::{List, OutOfMemory, Tag, Text};
use serde_json::{Value, json};
use std::alloc::Global;

/// The number of the format.
const FORMAT: u64 = 1;

/// What the first line of a log says.
#[derive(Drop)]
pub struct Header {
    /// The digest of the base (SHA-256 of its bundle).
    pub base_digest: [u8; 32],
    /// The tags of the entries' stamps: at least one, ascending.
    pub tags: List<Tag>,
}

/// The header that the first line is the object of.
///
/// Refuses what is no object with exactly the keys `base`, 64 lower-case hexadecimal digits, `format`, the
/// number 1, and `tags`, at least one, strictly ascending.
pub fn read_header(alloc: Global, value: Value) -> Result<Header, ObjectFault>
    ensures is { IfOk result (λ header. IsHeader (view value) header) }
    ensures none { IfErr result (λ fault. fault ≡ ObjectFault.WrongForm → (header : AnyHeader) → IsHeader (view value) header → ⊥) }
{
    header_in(alloc, value)
}

/// The header, member after member.
fn header_in(alloc: Global, value: Value) -> Result<Header, ObjectFault>
    ensures { Gives (header_from (view value)) result }
{
    let mut members = Members::of(value)?;
    let base_digest = base_digest(&mut members)?;
    format(&mut members)?;
    let tags = tags(alloc, &mut members)?;
    members.end()?;
    Ok(Header { base_digest, tags })
}

/// The digest at the key `base`.
fn base_digest(members: &mut Members) -> Result<[u8; 32], ObjectFault>
    ensures { Reads (part (codes "base") digest_from (members_left members.old)) result (members_left members.new) }
{
    digest(members.part("base")?)
}

/// The digest in 64 lower-case hexadecimal digits.
fn digest(value: Value) -> Result<[u8; 32], ObjectFault>
    ensures { Gives (digest_from (view value)) result }
{
    let text = parts::text(value)?;
    let mut digest = [0; 32];
    if hex::decode_to_slice(text.bytes(), &mut digest).is_err() {
        return Err(ObjectFault::WrongForm);
    }
    if is_hex_of(&digest, text.bytes()) {
        Ok(digest)
    } else {
        Err(ObjectFault::WrongForm)
    }
}

/// Whether these are the lower-case digits of the digest. Decoding takes upper-case ones too.
fn is_hex_of(digest: &[u8; 32], text: &[u8]) -> bool
    ensures { result ≡ bytes_eq text.now (encode_lower digest.now) }
{
    let mut digits = [0; 64];
    hex::encode_to_slice(digest, &mut digits).is_ok() && text == digits.as_slice()
}

/// Nothing, where the number 1 stands at the key `format`.
fn format(members: &mut Members) -> Result<(), ObjectFault>
    ensures { ReadsKnown 1 (part (codes "format") format_from (members_left members.old)) result (members_left members.new) }
{
    let value = members.part("format")?;
    if is_format(value.as_u64()) {
        Ok(())
    } else {
        Err(ObjectFault::WrongForm)
    }
}

/// Whether this is the number of the format.
fn is_format(number: Option<u64>) -> bool
    ensures { result ≡ is_some (kept (λ number. number == 1) number) }
{
    match number {
        Some(number) => number == FORMAT,
        None => false,
    }
}

/// The tags at the key `tags`.
fn tags(alloc: Global, members: &mut Members) -> Result<List<Tag>, ObjectFault>
    ensures { Reads (part (codes "tags") tags_from (members_left members.old)) result (members_left members.new) }
{
    let texts = members.texts(alloc, "tags")?;
    tags_of(alloc, texts.items())
}

/// The tags that the texts are: at least one, strictly ascending.
fn tags_of(alloc: Global, texts: &[Text]) -> Result<List<Tag>, ObjectFault>
    ensures { Gives (kept are_tags (Some texts.now)) result }
{
    let tags = all_tags(alloc, texts)?;
    if !tags.items().is_empty() && ascend(tags.items()) {
        Ok(tags)
    } else {
        Err(ObjectFault::WrongForm)
    }
}

/// The tags that the texts are.
fn all_tags(alloc: Global, texts: &[Text]) -> Result<List<Tag>, ObjectFault>
    ensures { Gives (kept (list_all is_tag) (Some texts.now)) result }
{
    let mut tags = List::new(alloc);
    for text in texts {
        match Tag::parse(text.bytes()) {
            Ok(tag) => tags.add(tag)?,
            Err(_) => return Err(ObjectFault::WrongForm),
        }
    }
    Ok(tags)
}

/// Whether each tag is less than the next one.
fn ascend(tags: &[Tag]) -> bool
    ensures { result ≡ ascend_of tags.now }
{
    tags.is_sorted_by(|tag, next| tag < next)
}

/// The object of a header. `Err` is want of memory.
pub fn header_value(
    alloc: Global,
    base_digest: &[u8; 32],
    tags: &[Tag],
) -> Result<Value, OutOfMemory>
    ensures { IfOk result (λ value. view value ≡ header_data (record { base_digest = base_digest.now; tags = tags.now })) }
{
    let base = hex::encode(alloc, base_digest)?;
    let tags = tags_value(alloc, tags)?;
    Ok(json!(in alloc; {"base": base.as_str(), "format": 1u64, "tags": tags})?)
}

/// The tags as a list of texts.
fn tags_value(alloc: Global, tags: &[Tag]) -> Result<Value, OutOfMemory>
    ensures { IfOk result (λ value. view value ≡ texts_data tags.now) }
{
    let mut items = Vec::new(alloc);
    for tag in tags {
        items.push(Value::try_from_str(alloc, tag.as_str())?)?;
    }
    Ok(Value::Array(items))
}
