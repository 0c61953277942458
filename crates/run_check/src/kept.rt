//! Messages that are kept without their writes: each write stands once in a table, which has a list for each
//! origin, and a message has the spans of its writes there.
ghost use Rattle.std.specs.Prelude.{◌≡◌, ◌<◌, ◌≤◌, ◌+◌, [], ◌∷◌, ◌++◌, IsTrue, IfOk, OnOk, OnErr, IfSome, All, length, slice_index_or, slice_set};
ghost use Rattle.std.specs.List.{between, flat_map};
ghost use Rattle.run_check.specs.declared.kept.TheConstants.{SPAN_MAX};
ghost use Rattle.run_check.specs.Keeping.{of_origin, writes_of, whole_of, IsSpanIn, IsSpanOf, IsPlaced, HasGrown};

use run_model::Message;
use std::alloc::Global;
use tact_base::{HISTORY_MAX, Items, NoMemory, SharedWrites, Weight, Write, WriteList};

/// A span of a table of writes: where consecutive writes of one origin stand.
#[derive(Clone, Copy, Debug)]
pub(crate) struct Span {
    /// The origin whose list it is in.
    pub origin: u32,
    /// The place of its first write in this list, which is the index of this write in a run.
    pub first: u32,
    /// The place behind its last.
    pub past: u32,
}

/// A message, with its writes or without.
#[derive(Debug, Drop)]
pub(crate) struct Kept {
    /// The message, with those of its writes that stand in none of the spans.
    pub message: Message,
    /// Where its other writes stand, which come before those.
    pub spans: Items<Span>,
}

// Whether two writes are the same.
fn are_same(one: &Write, other: &Write) -> bool
    ensures { IsTrue result → one.now ≡ other.now }
{
    one.stamp == other.stamp
        && one.origin == other.origin
        && one.index == other.index
        && one.moment == other.moment
        && one.op == other.op
        && are_same_weights(one.weights.items(), other.weights.items())
}

// Whether two lists have the same weights. They are short, and compared item by item, which costs less than what
// compares slices of any length.
fn are_same_weights(ones: &[Weight], others: &[Weight]) -> bool
    ensures { IsTrue result → ones.now ≡ others.now }
{
    if ones.len() != others.len() {
        return false;
    }
    for place in 0..ones.len() {
        if ones[place] != others[place] {
            return false;
        }
    }
    true
}

// Whether two lists have the same writes.
fn are_same_writes(ones: &[Write], others: &[Write]) -> bool
    ensures { IsTrue result → ones.now ≡ others.now }
{
    if ones.len() != others.len() {
        return false;
    }
    for place in 0..ones.len() {
        if !are_same(&ones[place], &others[place]) {
            return false;
        }
    }
    true
}

/// Puts an item at the end of the list at a place. `NoMemory` leaves the lists as they were.
pub(crate) fn push_last<T: Drop>(
    lists: &mut Vec<Items<T>>,
    place: usize,
    item: T,
) -> Result<(), NoMemory>
    requires { place < length lists.old.items }
    ensures ok { OnOk result (lists.new.items ≡ slice_set lists.old.items place (slice_index_or lists.old.items place [] ++ item ∷ [])) }
    ensures err { OnErr result (lists.new.items ≡ lists.old.items) }
{
    let list = &mut lists[place];
    list.push(item)
}

// Puts writes at the end of the list of their origin. `NoMemory` leaves the table as it was.
fn append_to(
    written: &mut Vec<Items<Write>>,
    origin: usize,
    writes: &[Write],
) -> Result<(), NoMemory>
    requires { origin < length written.old.items }
    ensures ok { OnOk result (written.new.items
        ≡ slice_set written.old.items origin (of_origin written.old.items origin ++ writes.now)) }
    ensures err { OnErr result (written.new.items ≡ written.old.items) }
{
    let list = &mut written[origin];
    list.append(writes)
}

// Whether the writes of an origin from a place on are those that are told. What its list has of them is compared, and
// where that is the same, the rest is put behind it. `NoMemory` leaves the table as it was.
fn put_told(
    written: &mut Vec<Items<Write>>,
    origin: usize,
    first: usize,
    told: &[Write],
) -> Result<bool, NoMemory>
    requires origin { origin < length written.old.items }
    requires first { first ≤ length (of_origin written.old.items origin) }
    ensures grown { HasGrown written.old.items written.new.items }
    ensures within { IfOk result (λ is. IsTrue is
        → first + length told.now ≤ length (of_origin written.new.items origin)) }
    ensures told { IfOk result (λ is. IsTrue is
        → between first (first + length told.now) (of_origin written.new.items origin) ≡ told.now) }
{
    let list = written[origin].items();
    let known = told.len().min(list.len() - first);
    if !are_same_writes(&list[first..first + known], &told[..known]) {
        return Ok(false);
    }
    append_to(written, origin, &told[known..])?;
    Ok(true)
}

// The most writes of a span. So many are copied by words: a machine copies longer ones by bytes, which counts more
// steps.
const SPAN_MAX: usize = 16;

// How many of these writes, from the first on, are consecutive ones of one origin, and at most as many as a span has.
fn count_of_one(writes: &[Write]) -> usize
    requires { 0 < length writes.now }
    ensures some { 0 < result }
    ensures within { result ≤ length writes.now }
    ensures few { result ≤ SPAN_MAX }
{
    let first = &writes[0];
    let most = writes.len().min(SPAN_MAX);
    for place in 1..most {
        let write = &writes[place];
        if write.origin != first.origin || write.index.wrapping_sub(first.index) != place as u64 {
            return place;
        }
    }
    most
}

// The span of the first of these writes and those that follow on it, which its origin and index tell. There is none
// where other writes stand there or the list of the origin ends earlier. `NoMemory` leaves the table as it was.
fn span_of(written: &mut Vec<Items<Write>>, writes: &[Write]) -> Result<Option<Span>, NoMemory>
    requires { 0 < length writes.now }
    ensures grown { HasGrown written.old.items written.new.items }
    ensures ok { IfOk result (λ found. IfSome found (IsSpanOf written.new.items writes.now)) }
{
    let (origin, first) = (writes[0].origin, writes[0].index);
    if origin as usize >= written.len() || first >= HISTORY_MAX {
        return Ok(None);
    }
    if first as usize > written[origin as usize].len() {
        return Ok(None);
    }
    let count = count_of_one(writes);
    if !put_told(written, origin as usize, first as usize, &writes[..count])? {
        return Ok(None);
    }
    Ok(Some(Span {
        origin,
        first: first as u32,
        past: first as u32 + count as u32,
    }))
}

// The spans of writes, in order, where each write is in one.
fn spans_of(
    alloc: Global,
    written: &mut Vec<Items<Write>>,
    writes: &[Write],
) -> Result<Option<Items<Span>>, NoMemory>
    ensures grown { HasGrown written.old.items written.new.items }
    ensures within { IfOk result (λ found. IfSome found (All (IsSpanIn written.new.items))) }
    ensures ok { IfOk result (λ found. IfSome found
        (λ spans. flat_map (writes_of written.new.items) spans ≡ writes.now)) }
{
    let mut spans = Items::with_capacity(alloc, writes.len().min(written.len()))?;
    let mut rest = writes;
    while !rest.is_empty() {
        match span_of(written, rest)? {
            Some(span) => {
                spans.push(span)?;
                rest = &rest[(span.past - span.first) as usize..];
            }
            None => return Ok(None),
        }
    }
    Ok(Some(spans))
}

/// A message to be kept. Those of its writes that aren't in the table are put there; where one is in no span, the
/// message stays whole. What stood in the table stays where it is, also where memory is wanting.
pub(crate) fn kept_of(
    alloc: Global,
    written: &mut Vec<Items<Write>>,
    message: Message,
) -> Result<Kept, NoMemory>
    ensures grown { HasGrown written.old.items written.new.items }
    ensures placed { IfOk result (IsPlaced written.new.items) }
    ensures ok { IfOk result (λ kept. whole_of written.new.items kept ≡ message) }
{
    let mut message = message;
    let spans = match spans_of(alloc, written, message.writes.items()) {
        Ok(Some(spans)) => spans,
        Ok(None) => {
            return Ok(Kept {
                message,
                spans: Items::new(alloc),
            });
        }
        Err(fault) => return Err(fault),
    };
    message.writes = SharedWrites::empty();
    Ok(Kept { message, spans })
}

// The writes of a span.
fn writes_of(written: &[Items<Write>], span: Span) -> &[Write]
    requires { IsSpanIn written.now span }
    ensures { result.now ≡ writes_of written.now span }
{
    let list = written[span.origin as usize].items();
    &list[span.first as usize..span.past as usize]
}

// How many writes spans have: how much memory they want.
fn count_of(spans: &[Span]) -> usize {
    let mut count = 0usize;
    for span in spans {
        count = count.saturating_add(span.past.saturating_sub(span.first) as usize);
    }
    count
}

// The writes of spans, in memory of `alloc`.
fn writes_at(alloc: Global, written: &[Items<Write>], spans: &[Span]) -> Result<WriteList, NoMemory>
    requires { All (IsSpanIn written.now) spans.now }
    ensures { IfOk result (λ writes. writes ≡ flat_map (writes_of written.now) spans.now) }
{
    let mut writes = Items::with_capacity(alloc, count_of(spans))?;
    for span in spans {
        writes.append(writes_of(written, *span))?;
    }
    Ok(writes)
}

/// A kept message made whole, in memory of `alloc` and of the allocator of its lists.
pub(crate) fn made_whole(
    alloc: Global,
    written: &[Items<Write>],
    kept: &Kept,
) -> Result<Message, NoMemory>
    requires { IsPlaced written.now kept.now }
    ensures { IfOk result (λ message. message ≡ whole_of written.now kept.now) }
{
    let mut message = match kept.message.clone() {
        Ok(message) => message,
        Err(fault) => return Err(fault.into()),
    };
    let mut writes = writes_at(alloc, written, kept.spans.items())?;
    writes.append(kept.message.writes.items())?;
    message.writes = SharedWrites::new(alloc, writes)?;
    Ok(message)
}
