//! What a thread does between two looks at a ring that show it nothing to do.
ghost use Rattle.std.specs.Prelude.{◌≡◌};
ghost use Rattle.std.specs.Duration.{as_nanos};
ghost use Rattle.crn_ring.specs.Calls.{producer_part, reader_part, spec_of};
ghost use Rattle.crn_run.specs.Waits.{Waits, producer_sleep, reader_sleep};
ghost use Rattle.crn_run.specs.Inner.Looks.{HasSeenNoBlock, HasSeenNoSlot};

use crate::pausing::{Pause, Paused, Pauses};
use crn_ring::{Producer, Reader, Ring};
use std::snapshot::Snapshot;
use std::sync::Wait;
use std::time::Duration;

// The least size of a large ring, where each wait sleeps: so many slots keep the other threads at work meanwhile.
const LARGE_RING: u64 = 128;

// How many waits in a row only spin on a smaller ring, each for twice as many hints as the one before: its threads need one
// another after a few blocks.
const SPINS: u32 = 4;

// How many waits in a row snooze there after that: a thread's first seven snoozes spin, all later ones yield. If other work
// has the processors, a yield gives it a whole turn, so that more of them would cost more than a sleep.
const YIELDS: u32 = 16;

// A reader sleeps a microsecond for so many slots, about as long as the producer takes to fill the ring.
const READER_SLOTS: u64 = 8;

// The producer sleeps a microsecond for so many slots: all readers wait for it.
const PRODUCER_SLOTS: u64 = 64;

// By how many microseconds at least a timer is late; the system adds up to 50.
const LATENESS: u64 = 16;

// The least microseconds of a sleep. A shorter one may be over before its thread has left the processor. Under a real-time
// policy a thread that never leaves it keeps off the one that it waits for.
const LEAST_SLEEP: u64 = 8;

/// What a thread's next pause follows from.
#[derive(Drop)]
pub(crate) struct Counted {
    // The number of the block that it last waited for, to take or to publish it.
    block: u64,
    // How many waits for that block, in a row, did not sleep.
    awake: u32,
}

/// The waits of one thread for the others of its ring, on which it looks by its producer or reader `A`.
#[derive(Drop)]
pub(crate) struct Waiting<A> {
    counted: Counted,
    // What the thread knew before its last look, or after its last wait.
    since: Snapshot<A>,
    pauses: Pauses,
}

impl<A> Waiting<A> {
    /// Returns the waits of a thread that has not waited yet.
    pub(crate) fn new(actor: &A) -> Waiting<A>
        ensures counted { result.counted.awake ≡ 0 }
        ensures since { result.since.value ≡ actor.now }
    {
        Waiting {
            counted: Counted { block: 0, awake: 0 },
            since: Snapshot::of(actor),
            pauses: Pauses::new(),
        }
    }

    /// Remembers what the thread knows before a look.
    #[inline(always)]
    pub(crate) fn before_look(&mut self, actor: &A)
        ensures counted { self.new.counted ≡ self.old.counted }
        ensures since { self.new.since.value ≡ actor.now }
    {
        self.since = Snapshot::of(actor);
    }
}

// Calls of a wait stay calls: inlined, they would take registers from the loop that runs blocks.
impl Waiting<Reader> {
    /// Waits before a reader's next look for a block, and returns the pause that it made. On a small ring the first few waits
    /// for the same block do not sleep.
    ///
    /// # Asks
    ///
    /// Since its last look began, and after its last wait, the reader's one load of the ring cursor has shown no block that it has
    /// not taken, and no end.
    #[cold]
    #[inline(never)]
    pub(crate) fn wait_for_block<R: Wait>(&mut self, rt: &R, ring: &Ring, reader: &Reader) -> Paused
        requires { HasSeenNoBlock (reader_part self.old.since.value) (reader_part reader.now) }
        ensures waits { Waits (spec_of ring.now).size (reader_sleep (spec_of ring.now).size) (reader_part reader.now).taken self.old.counted self.new.counted result.pause }
        ensures since { self.new.since.value ≡ reader.now }
    {
        self.since = Snapshot::of(reader);
        let pause = self.counted.before_taking(ring, reader.taken());
        self.pauses.make(rt, pause)
    }
}

impl Waiting<Producer> {
    /// Waits before the producer's next look for a free slot, and returns the pause that it made. On a small ring the first
    /// few waits for the same block do not sleep.
    ///
    /// # Asks
    ///
    /// Since its last look began, and after its last wait, the producer's loads of the readers' cursors have shown one that has
    /// not freed the slot of the next block, and it has stored nothing.
    #[cold]
    #[inline(never)]
    pub(crate) fn wait_for_slot<R: Wait>(
        &mut self,
        rt: &R,
        ring: &Ring,
        producer: &Producer,
    ) -> Paused
        requires { HasSeenNoSlot (spec_of ring.now) (producer_part self.old.since.value) (producer_part producer.now) }
        ensures waits { Waits (spec_of ring.now).size (producer_sleep (spec_of ring.now).size) (producer_part producer.now).published self.old.counted self.new.counted result.pause }
        ensures since { self.new.since.value ≡ producer.now }
    {
        self.since = Snapshot::of(producer);
        let pause = self.counted.before_publishing(ring, producer.published());
        self.pauses.make(rt, pause)
    }
}

impl Counted {
    // Returns the pause before a reader's next look for block number `block`, and counts it.
    fn before_taking(&mut self, ring: &Ring, block: u64) -> Pause
        ensures { Waits (spec_of ring.now).size (reader_sleep (spec_of ring.now).size) block self.old self.new result }
    {
        let size = ring.spec().size;
        let micros = (size / READER_SLOTS)
            .saturating_sub(LATENESS)
            .max(LEAST_SLEEP);
        self.next_pause(size, Duration::from_micros(micros), block)
    }

    // Returns the pause before the producer's next look for a slot for block number `block`, and counts it.
    fn before_publishing(&mut self, ring: &Ring, block: u64) -> Pause
        ensures { Waits (spec_of ring.now).size (producer_sleep (spec_of ring.now).size) block self.old self.new result }
    {
        let size = ring.spec().size;
        let micros = (size / PRODUCER_SLOTS).max(LEAST_SLEEP);
        self.next_pause(size, Duration::from_micros(micros), block)
    }

    // Returns the next pause for a block on a ring of so many slots, where a thread sleeps for so long, and counts it.
    fn next_pause(&mut self, size: u64, sleep: Duration, block: u64) -> Pause
        ensures { Waits size (as_nanos sleep) block self.old self.new result }
    {
        if block != self.block {
            self.block = block;
            self.awake = 0;
        }
        if size >= LARGE_RING || self.awake >= SPINS + YIELDS {
            return Pause::Sleep(sleep);
        }
        let pause = if self.awake < SPINS {
            Pause::Spin(1 << self.awake)
        } else {
            Pause::Yield
        };
        self.awake += 1;
        pause
    }
}
