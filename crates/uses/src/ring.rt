//! A ring between two threads: one publishes all blocks, the other takes some by batches and leaves.
ghost use Rattle.std.specs.Prelude.{◌≡◌, ◌+◌, ◌≤◌, ◌<◌, true, false, [], IfOk, IfErr, length, min, vec_len, vec_capacity};
ghost use Rattle.crn_limits.specs.declared.TheConstants.{BLOCK_LIMIT};
ghost use Rattle.crn_ring.specs.Calls.{AllFresh, IsFresh, IsProducerOf, IsReaderOf, producer_part, reader_number, reader_part};
ghost use Rattle.uses.specs.Passing.{CameThrough, CameThroughARing};

use crate::taken::Taken;
use crn_cipher::{Block, StreamId, block};
use crn_proto::{RingFault, RingSpec};
use crn_ring::{Batch, LeftReader, Producer, Reader, Ring};
use crn_run::feed;
use crossbeam_utils::Backoff;
use std::alloc::{AllocError, Global};
use std::snapshot::Snapshot;
use std::sync::Wait;
use std::thread;
use std::thread::{Promise, PromisedHandle, Scope, SpawnError, Threads};

// The most blocks that are taken at once.
const BATCH: usize = 4;

/// Why the first blocks of a key were not taken.
#[derive(Clone, Copy, Debug, PartialEq, Eq)]
pub enum BlocksFault {
    /// The ring was not opened: an allocation failed.
    Ring(RingFault),
    /// The thread that takes them failed to start.
    Thread,
    /// The end was marked before them. `feed` marks none, but no contract tells a reader so.
    Short,
}

impl From<AllocError> for BlocksFault {
    fn from(refused: AllocError) -> BlocksFault {
        BlocksFault::Ring(RingFault::Memory(refused))
    }
}

impl From<RingFault> for BlocksFault {
    fn from(fault: RingFault) -> BlocksFault {
        BlocksFault::Ring(fault)
    }
}

impl<F: Drop> From<SpawnError<F>> for BlocksFault {
    fn from(_refused: SpawnError<F>) -> BlocksFault {
        BlocksFault::Thread
    }
}

/// Returns the first blocks of a key: `most` of those below `total`, or all if these are fewer. They go through a ring of 16
/// slots: another thread takes them and then leaves, while the calling thread publishes all blocks below `total`. What is left
/// of the ring's reader shows that it has taken just these blocks.
///
/// # Asks
///
/// `total` is at most 65,536.
///
/// # Errors
///
/// `Ring` if an allocation fails. `Thread` if the thread fails to start: then nothing is published, and nobody waits.
pub fn first_blocks<R: Threads + Wait + Sync>(
    rt: &R,
    alloc: Global,
    key: [u64; 4],
    total: u64,
    most: usize,
) -> Result<(Taken, LeftReader), BlocksFault>
    requires { total ≤ BLOCK_LIMIT }
    ensures blocks { IfOk result (λ r. (r.0.key ≡ key) × (r.0.first ≡ 0)) }
    ensures count { IfOk result (λ r. vec_len r.0.blocks ≡ min most total) }
    ensures through { IfOk result (λ r. CameThroughARing key total (min most total) r.0 r.1) }
{
    let count = most.min(total as usize);
    let room = Vec::with_capacity(alloc, count)?;
    let spec = RingSpec {
        size: 16,
        readers: 1,
        id: StreamId {
            key,
            first: 0,
            total,
        },
    };
    let (ring, producer, readers) = Ring::open(alloc, spec)?;
    let reader = first_of(&ring, readers);
    pass_on(rt, &ring, producer, reader, count, room)
}

// Returns the reader of a ring that was opened with one.
fn first_of(ring: &Ring, mut readers: Vec<Reader>) -> Reader
    requires { (length readers.items ≡ 1) × AllFresh ring.now readers.items }
    ensures { IsFresh ring.now 0 result }
{
    match readers.pop() {
        Some(reader) => reader,
        None => unreachable!(),
    }
}

// What a thread promises: if it was not kept from it by an early end, the next blocks of a reader, as many as asked for.
#[derive(Drop)]
struct TakesSome {
    ring: Snapshot<Ring>,
    reader: Snapshot<Reader>,
    most: usize,
}

impl Promise<Result<(Taken, LeftReader), Reader>> for TakesSome {
    ghost kept_by = { λ p r. IfOk r (λ x. CameThrough p.ring.value (reader_number p.reader.value) (reader_part p.reader.value).taken p.most x.0 x.1) };
}

// Publishes all blocks of the ring's stream, while another thread takes the first `most` of them. If that thread fails to
// start, nothing is published.
fn pass_on<'r, R: Threads + Wait + Sync>(
    rt: &'r R,
    ring: &'r Ring,
    producer: Producer,
    reader: Reader,
    most: usize,
    room: Vec<Block>,
) -> Result<(Taken, LeftReader), BlocksFault>
    requires producer { IsProducerOf ring.now producer × ((producer_part producer).ended ≡ false) }
    requires reader { IsReaderOf ring.now reader × ((reader_part reader).seen_end ≡ false) }
    requires room { (room.items ≡ []) × (most ≤ vec_capacity room) }
    ensures blocks { IfOk result (λ x. CameThrough ring.now (reader_number reader) (reader_part reader).taken most x.0 x.1) }
{
    thread::scope(
        thread::scope_env(),
        rt,
        |scope| -> Result<(Taken, LeftReader), BlocksFault>
            requires producer { IsProducerOf ring.now producer × ((producer_part producer).ended ≡ false) }
            requires reader { IsReaderOf ring.now reader × ((reader_part reader).seen_end ≡ false) }
            requires room { (room.items ≡ []) × (most ≤ vec_capacity room) }
            ensures blocks { IfOk result (λ x. CameThrough ring.entry.now (reader_number reader) (reader_part reader).taken most x.0 x.1) }
        {
            let child = start(rt, scope, ring, reader, most, room)?;
            let mut producer = producer;
            feed(rt, ring, &mut producer);
            child.join(rt).map_err(|_reader| BlocksFault::Short)
        },
    )
}

// Starts a thread that takes the next `most` blocks of a reader.
fn start<'s, 'e: 's, R: Wait + Sync>(
    rt: &'e R,
    scope: &'s Scope<'s, &'e ()>,
    ring: &'e Ring,
    reader: Reader,
    most: usize,
    room: Vec<Block>,
) -> Result<PromisedHandle<Result<(Taken, LeftReader), Reader>, TakesSome>, BlocksFault>
    requires reader { IsReaderOf ring.now reader × ((reader_part reader).seen_end ≡ false) }
    requires room { (room.items ≡ []) × (most ≤ vec_capacity room) }
    ensures { IfOk result (λ h. (h.promise.ring.value ≡ ring.now) × (h.promise.reader.value ≡ reader) × (h.promise.most ≡ most)) }
{
    let promise = TakesSome {
        ring: Snapshot::of(ring),
        reader: Snapshot::of(&reader),
        most,
    };
    let work = move || -> Result<(Taken, LeftReader), Reader>
        requires reader { IsReaderOf ring.now reader × ((reader_part reader).seen_end ≡ false) }
        requires room { (room.items ≡ []) × (most ≤ vec_capacity room) }
        ensures { IfOk result (λ x. CameThrough ring.entry.now (reader_number reader) (reader_part reader).taken most x.0 x.1) }
    { take_some(rt, ring, reader, most, room) };
    Ok(scope.spawn_with(promise, work)?)
}

/// Takes the next `most` blocks by batches, and then leaves, so that the producer no longer waits for this reader. Returns them
/// in the vector that it was given, with what is left of the reader. Between two looks it yields. Allocates nothing.
///
/// # Asks
///
/// The reader is one of the ring's and has not seen the end. `room` is empty and has capacity for `most` blocks.
///
/// # Errors
///
/// The reader, if it has seen the end before `most` blocks.
pub fn take_some<R: Wait>(
    rt: &R,
    ring: &Ring,
    mut reader: Reader,
    most: usize,
    room: Vec<Block>,
) -> Result<(Taken, LeftReader), Reader>
    requires reader { IsReaderOf ring.now reader × ((reader_part reader).seen_end ≡ false) }
    requires room { (room.items ≡ []) × (most ≤ vec_capacity room) }
    ensures through { IfOk result (λ x. CameThrough ring.now (reader_number reader) (reader_part reader).taken most x.0 x.1) }
    ensures early { IfErr result (λ x. ((reader_part x).seen_end ≡ true) × ((reader_part x).taken < (reader_part reader).taken + most)) }
{
    let key = ring.spec().id.key;
    let mut taken = Taken {
        key,
        first: reader.taken(),
        blocks: room,
    };
    let mut batch = [block(key, 0); BATCH];
    let backoff = Backoff::new();
    for _ in rt.forever() {
        let places = BATCH.min(most - taken.blocks.len());
        if places == 0 {
            return Ok((taken, reader.into_left(ring)));
        }
        match reader.take_batch(ring, &mut batch[..places]) {
            Batch::Got { count } => {
                taken.append(&batch, count);
                backoff.reset();
            }
            Batch::Empty { published: _ } => backoff.snooze(),
            Batch::Ended { published: _ } => return Err(reader),
        }
    }
    unreachable!()
}
