//! Finding files among the spans, and putting them there.
ghost use Rattle.std.specs.Prelude.{◌≡◌, ◌≤◌, ◌<◌, ◌+◌, length, take, slice_get, vec_len, vec_capacity, IfOk, IfErr, IfSome, IsSomeAnd};
ghost use Rattle.std.specs.Ordering.{nat_cmp};
ghost use Rattle.std.specs.declared.cmp.Ordering.TheVariants.{Less, Equal};
ghost use Rattle.std.specs.Cmp.Lexicographic.{slice_cmp};
ghost use Rattle.std.specs.FinMap.{put};
ghost use Rattle.mol_outside.specs.Stored.{all_stored, AreWithin, Ascend, ComeBefore};

use crate::span::{Span, span_at};
use std::cmp::Ordering;

/// The place of a path among the files, which ascend: where it is, or where it belongs.
pub fn place(buffer: &[u8], spans: &[Span], path: &[u8]) -> Result<usize, usize>
    requires within { AreWithin (length buffer.now) spans.now }
    requires ascend { Ascend (all_stored buffer.now spans.now) }
    ensures found { IfOk result (λ i. ComeBefore path.now (take i (all_stored buffer.now spans.now))
        × IsSomeAnd (slice_get (all_stored buffer.now spans.now) i) (λ f. slice_cmp nat_cmp path.now f.0 ≡ Equal)
        × (i < length spans.now)) }
    ensures absent { IfErr result (λ i. (i ≤ length spans.now) × ComeBefore path.now (take i (all_stored buffer.now spans.now))
        × IfSome (slice_get (all_stored buffer.now spans.now) i) (λ f. slice_cmp nat_cmp path.now f.0 ≡ Less)) }
{
    let mut low = 0;
    let mut high = spans.len();
    while low < high {
        let middle = low + (high - low) / 2;
        let span = span_at(spans, middle, buffer.len());
        match path.cmp(span.path(buffer)) {
            Ordering::Greater => low = middle + 1,
            Ordering::Equal => return Ok(middle),
            Ordering::Less => high = middle,
        }
    }
    Err(low)
}

/// Puts a file: its bytes go to the end of the buffer, and its span to its place.
pub fn put_file(buffer: &mut Vec<u8>, spans: &mut Vec<Span>, path: &[u8], bytes: &[u8])
    requires within { AreWithin (vec_len buffer.old) spans.old.items }
    requires ascend { Ascend (all_stored buffer.old.items spans.old.items) }
    requires room { vec_len buffer.old + length path.now + length bytes.now ≤ vec_capacity buffer.old }
    requires places { vec_len spans.old < vec_capacity spans.old }
    ensures within { AreWithin (vec_len buffer.new) spans.new.items }
    ensures files { all_stored buffer.new.items spans.new.items ≡ put (slice_cmp nat_cmp) path.now bytes.now (all_stored buffer.old.items spans.old.items) }
    ensures len { vec_len buffer.new ≡ vec_len buffer.old + length path.now + length bytes.now }
    ensures capacity { vec_capacity buffer.old ≤ vec_capacity buffer.new }
    ensures one_more { vec_len spans.new ≤ vec_len spans.old + 1 }
    ensures spans_capacity { vec_capacity spans.old ≤ vec_capacity spans.new }
{
    let at = place(buffer, spans, path);
    let start = buffer.len();
    let mid = start + path.len();
    let end = mid + bytes.len();
    let Ok(()) = buffer.extend_from_slice(path) else {
        unreachable!();
    };
    let Ok(()) = buffer.extend_from_slice(bytes) else {
        unreachable!();
    };
    let span = Span { start, mid, end };
    match at {
        Ok(i) => spans[i] = span,
        Err(i) => {
            let Ok(()) = spans.insert(i, span) else {
                unreachable!();
            };
        }
    }
}
