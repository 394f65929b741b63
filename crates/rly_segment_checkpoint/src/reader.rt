ghost use Rattle.std.specs.Prelude.{◌≡◌, ◌≤◌, ◌<◌, ◌*◌, ◌^◌, ℕ, Err, List, length, map};
ghost use Rattle.rly_core.specs.Limits.{IsWithinLimits};
ghost use Rattle.rly_record.specs.HelpersReader.{Gives, many_at, field_at};
ghost use Rattle.rly_segment_checkpoint.specs.Checkpoint.{least_checkpoint_length};
ghost use Rattle.rly_segment_checkpoint.specs.HelpersReader.{codel_at, counts_at, entry_at, flag_at, hop_bytes_at};
ghost use Rattle.rly_segment_checkpoint.specs.HelpersReader.{entries_at, lines_at, whole_state};
ghost use Rattle.rly_segment_checkpoint.specs.Widths.{entry_width};
ghost use Rattle.rly_machine.specs.Kept.{hop_state, state_of};

use crate::form::Form;
use crate::head_form::HeadForm;
use byteorder::{BigEndian, ByteOrder};
use rly_core::Params;
use rly_machine::{CodelState, Content, Hop, Item, Queue};
use rly_record::DecodeFault;
use std::alloc::Global;
use std::collections::VecDeque;

/// The parts of a spool in a checkpoint.
#[derive(Drop)]
pub(crate) struct Parts<C: Content> {
    pub(crate) seq: u64,
    pub(crate) lasts: Vec<u64>,
    pub(crate) hops: Vec<Hop<C>>,
}

/// The numbers of datagrams that a hop took, dropped and released, and of those that expired.
#[derive(Clone, Copy)]
struct Counts {
    taken: u64,
    dropped: u64,
    released: u64,
    expired: u64,
}

/// The datagrams of a hop in flight, and those that wait.
#[derive(Drop)]
struct Lines<C> {
    flight: Vec<Item<C>>,
    queue: Vec<Item<C>>,
}

/// Reads a number of two bytes, and returns it and the bytes after it.
fn u16_of(bytes: &[u8]) -> Result<(u16, &[u8]), DecodeFault>
    ensures { Gives (λ x. (x.0, x.1.now)) result (field_at 2 bytes.now) }
{
    if bytes.len() < 2 {
        return Err(DecodeFault::Malformed);
    }
    Ok((BigEndian::read_u16(bytes), &bytes[2..]))
}

/// Reads a number of four bytes, and returns it and the bytes after it.
fn u32_of(bytes: &[u8]) -> Result<(u32, &[u8]), DecodeFault>
    ensures { Gives (λ x. (x.0, x.1.now)) result (field_at 4 bytes.now) }
{
    if bytes.len() < 4 {
        return Err(DecodeFault::Malformed);
    }
    Ok((BigEndian::read_u32(bytes), &bytes[4..]))
}

/// Reads a number of `width` bytes, and returns it and the bytes after it. A number of no bytes is 0.
pub(crate) fn number_of(bytes: &[u8], width: usize) -> Result<(u64, &[u8]), DecodeFault>
    requires { width ≤ 8 }
    ensures { Gives (λ x. (x.0, x.1.now)) result (field_at width bytes.now) }
{
    if width == 0 {
        return Ok((0, bytes));
    }
    if bytes.len() < width {
        return Err(DecodeFault::Malformed);
    }
    Ok((BigEndian::read_uint(bytes, width), &bytes[width..]))
}

/// Reads a number of eight bytes, and returns it and the bytes after it.
fn u64_of(bytes: &[u8]) -> Result<(u64, &[u8]), DecodeFault>
    ensures { Gives (λ x. (x.0, x.1.now)) result (field_at 8 bytes.now) }
{
    if bytes.len() < 8 {
        return Err(DecodeFault::Malformed);
    }
    Ok((BigEndian::read_u64(bytes), &bytes[8..]))
}

/// Reads a flag, and returns it and the bytes after it.
#[tactic(auto, unfolding(crate::specs::HelpersReader::flag_at))]
fn flag_of(bytes: &[u8]) -> Result<(bool, &[u8]), DecodeFault>
    ensures { Gives (λ x. (x.0, x.1.now)) result (flag_at bytes.now) }
{
    match bytes {
        [0, rest @ ..] => Ok((false, rest)),
        [1, rest @ ..] => Ok((true, rest)),
        _ => Err(DecodeFault::Malformed),
    }
}

/// Reads CoDel's state, and returns it and the bytes after it.
#[tactic(auto, unfolding(crate::specs::HelpersReader::codel_at))]
fn codel_of(form: HeadForm, bytes: &[u8]) -> Result<(CodelState, &[u8]), DecodeFault>
    ensures { Gives (λ x. (x.0, x.1.now)) result (codel_at form bytes.now) }
{
    let (first_above_time, rest) = number_of(bytes, form.moment_len())?;
    let (drop_next, rest) = number_of(rest, form.moment_len())?;
    let (count, rest) = number_of(rest, form.count_len())?;
    let (lastcount, rest) = number_of(rest, form.count_len())?;
    let (dropping, rest) = flag_of(rest)?;
    let codel = CodelState {
        first_above_time,
        drop_next,
        count,
        lastcount,
        dropping,
    };
    Ok((codel, rest))
}

/// Reads an entry, and returns it and the bytes after it.
#[tactic(auto, unfolding(crate::specs::HelpersReader::entry_at))]
fn entry_of<C: Form>(
    alloc: Global,
    form: HeadForm,
    bytes: &[u8],
) -> Result<(Item<C>, &[u8]), DecodeFault>
    ensures { Gives (λ x. (x.0, x.1.now)) result (entry_at form (C.form_at form) bytes.now) }
{
    let (id, rest) = number_of(bytes, form.count_len())?;
    let (stamp, rest) = number_of(rest, form.moment_len())?;
    let (limit, rest) = number_of(rest, form.limit_len())?;
    let (size, rest) = u16_of(rest)?;
    let (payload, rest) = C::read_form(alloc, form, size, rest)?;
    let item = Item {
        id,
        stamp,
        limit,
        payload,
    };
    Ok((item, rest))
}

/// Reads the numbers of datagrams that a hop took, dropped and released and of those that expired, and returns them and
/// the bytes after them.
#[tactic(auto, unfolding(crate::specs::HelpersReader::counts_at))]
fn counts_of(form: HeadForm, bytes: &[u8]) -> Result<(Counts, &[u8]), DecodeFault>
    ensures { Gives (λ x. ((x.0.taken, (x.0.dropped, (x.0.released, x.0.expired))), x.1.now)) result
        (counts_at form bytes.now) }
{
    let (taken, rest) = number_of(bytes, form.count_len())?;
    let (dropped, rest) = number_of(rest, form.count_len())?;
    let (released, rest) = number_of(rest, form.count_len())?;
    let (expired, rest) = number_of(rest, form.expired_len())?;
    let counts = Counts {
        taken,
        dropped,
        released,
        expired,
    };
    Ok((counts, rest))
}

/// Reads `count` entries, and returns them and the bytes after them.
#[tactic(auto, unfolding(crate::specs::HelpersReader::entries_at))]
fn line_of<C: Form>(
    alloc: Global,
    form: HeadForm,
    count: usize,
    bytes: &[u8],
) -> Result<(Vec<Item<C>>, &[u8]), DecodeFault>
    requires { count < 2 ^ 32 }
    ensures { Gives (λ x. (x.0.items, x.1.now)) result (entries_at form (C.form_at form) count bytes.now) }
{
    if bytes.len() < entries_len(form, count) {
        return Err(DecodeFault::Malformed);
    }
    entries_of(alloc, form, count, bytes)
}

/// Returns the minimum size in bytes of `count` entries.
fn entries_len(form: HeadForm, count: usize) -> usize
    requires { count < 2 ^ 32 }
    ensures { result ≡ entry_width form * count }
{
    match form {
        HeadForm::First => 19 * count,
        HeadForm::Second => 21 * count,
    }
}

/// Reads `count` entries, with their memory reserved, and returns them and the bytes after them.
fn entries_of<C: Form>(
    alloc: Global,
    form: HeadForm,
    count: usize,
    bytes: &[u8],
) -> Result<(Vec<Item<C>>, &[u8]), DecodeFault>
    ensures { Gives (λ x. (x.0.items, x.1.now)) result (many_at (entry_at form (C.form_at form)) count bytes.now) }
{
    let mut entries = Vec::with_capacity(alloc, count)?;
    let mut rest = bytes;
    for _ in 0..count {
        let (entry, after) = entry_of(alloc, form, rest)?;
        entries.push_reserved(entry);
        rest = after;
    }
    Ok((entries, rest))
}

/// Reads the datagrams in flight and the waiting ones, and returns them and the bytes after them.
#[tactic(auto, unfolding(crate::specs::HelpersReader::lines_at))]
fn lines_of<C: Form>(
    alloc: Global,
    form: HeadForm,
    bytes: &[u8],
) -> Result<(Lines<C>, &[u8]), DecodeFault>
    ensures { Gives (λ x. ((x.0.flight.items, x.0.queue.items), x.1.now)) result
        (lines_at form (C.form_at form) bytes.now) }
{
    let (in_flight, rest) = u16_of(bytes)?;
    let (waiting, rest) = u32_of(rest)?;
    let (flight, rest) = line_of(alloc, form, usize::from(in_flight), rest)?;
    let (queue, rest) = line_of(alloc, form, waiting as usize, rest)?;
    Ok((Lines { flight, queue }, rest))
}

/// Reads a hop, and returns it and the bytes after it.
#[tactic(auto, unfolding(crate::specs::HelpersReader::hop_bytes_at))]
fn hop_of_bytes<C: Form>(
    alloc: Global,
    form: HeadForm,
    bytes: &[u8],
) -> Result<(Hop<C>, &[u8]), DecodeFault>
    ensures { Gives (λ x. (hop_state x.0, x.1.now)) result (hop_bytes_at form (C.form_at form) bytes.now) }
{
    let (moment, rest) = number_of(bytes, form.moment_len())?;
    let (codel, rest) = codel_of(form, rest)?;
    let (counts, rest) = counts_of(form, rest)?;
    let (lines, rest) = lines_of(alloc, form, rest)?;
    let hop = Hop {
        queue: Queue::of(alloc, lines.queue)?,
        flight: VecDeque::from_vec(lines.flight),
        codel,
        moment,
        taken: counts.taken,
        dropped: counts.dropped,
        expired: counts.expired,
        released: counts.released,
    };
    Ok((hop, rest))
}

/// Reads `count` hops, and returns them and the bytes after them.
fn hops_of<C: Form>(
    alloc: Global,
    form: HeadForm,
    count: usize,
    bytes: &[u8],
) -> Result<(Vec<Hop<C>>, &[u8]), DecodeFault>
    ensures { Gives (λ x. (map hop_state x.0.items, x.1.now)) result
        (many_at (hop_bytes_at form (C.form_at form)) count bytes.now) }
{
    let mut hops = Vec::with_capacity(alloc, count)?;
    let mut rest = bytes;
    for _ in 0..count {
        let (hop, after) = hop_of_bytes(alloc, form, rest)?;
        hops.push_reserved(hop);
        rest = after;
    }
    Ok((hops, rest))
}

/// Reads `count` numbers of eight bytes, and returns them and the bytes after them.
fn numbers_of(alloc: Global, count: usize, bytes: &[u8]) -> Result<(Vec<u64>, &[u8]), DecodeFault>
    ensures { Gives (λ x. (x.0.items, x.1.now)) result (many_at (field_at 8) count bytes.now) }
{
    let mut numbers = Vec::with_capacity(alloc, count)?;
    let mut rest = bytes;
    for _ in 0..count {
        let (number, after) = u64_of(rest)?;
        numbers.push_reserved(number);
        rest = after;
    }
    Ok((numbers, rest))
}

/// Reads the parts of a spool with these parameters, which have to be all of the bytes. Allocates nothing if the bytes
/// are too few for its peers and hops.
pub(crate) fn parts_of<C: Form>(
    alloc: Global,
    form: HeadForm,
    params: Params,
    bytes: &[u8],
) -> Result<Parts<C>, DecodeFault>
    requires { IsWithinLimits params }
    ensures gives { Gives (λ parts. state_of params parts.hops parts.lasts parts.seq) result
        (whole_state form (C.form_at form) params bytes.now) }
    ensures memory { result ≡ Err DecodeFault.OutOfMemory → least_checkpoint_length form params ≤ length bytes.now }
{
    C::law_forms();
    if bytes.len() < least_len(form, params) {
        return Err(DecodeFault::Malformed);
    }
    whole_parts_of(alloc, form, params, bytes)
}

/// Returns the size in bytes of the shortest checkpoint.
fn least_len(form: HeadForm, params: Params) -> usize
    requires { IsWithinLimits params }
    ensures { result ≡ least_checkpoint_length form params }
{
    let peers = params.peers as usize;
    let hops = params.hops as usize;
    match form {
        HeadForm::First => 8 + 8 * peers + 71 * hops,
        HeadForm::Second => 8 + 8 * peers + 64 * hops,
    }
}

/// The same, if the bytes suffice for the peers and hops.
#[tactic(auto, unfolding(crate::specs::HelpersReader::state_at, crate::specs::HelpersReader::whole_state))]
fn whole_parts_of<C: Form>(
    alloc: Global,
    form: HeadForm,
    params: Params,
    bytes: &[u8],
) -> Result<Parts<C>, DecodeFault>
    requires { IsWithinLimits params }
    ensures { Gives (λ parts. state_of params parts.hops parts.lasts parts.seq) result
        (whole_state form (C.form_at form) params bytes.now) }
{
    let (seq, rest) = u64_of(bytes)?;
    let (lasts, rest) = numbers_of(alloc, params.peers as usize, rest)?;
    let (hops, rest) = hops_of(alloc, form, params.hops as usize, rest)?;
    if !rest.is_empty() {
        return Err(DecodeFault::Malformed);
    }
    Ok(Parts { seq, lasts, hops })
}
