//! The ring as a machine that takes one step at a time.

ghost use Rattle.std.specs.Prelude.{◌≡◌, ℕ, ◌+◌, ◌-◌, ◌*◌, ◌/◌, ◌%◌, ◌^◌, ◌<◌, ◌≤◌, ◌↔◌, true, false, ◌++◌, length, slice_index, List, take, drop, Some, IfOk, IfErr, OnErr};
ghost use Rattle.std.specs.List.{All};
ghost use Rattle.crn_proto.specs.Ring.{IsRing, left_mark, place, word_count};
ghost use Rattle.crn_proto.specs.Opening.{CanOpen, RefusesRing};
ghost use Rattle.crn_proto.specs.Machine.{MachineState, machine_of, machine_steps, ends, loads_gate, stores_word, publishes, producer_steps, finish_steps, loads_cursor, loads_word, takes, leaves, reader_steps, leave_steps, IsActor, open_machine, taker_at, machine_after, machine_answers};
ghost use Rattle.crn_proto.specs.Inner.Machine.{MachineFits, TakerFits};

mod shown;

use crate::{Actor, Kind, LEFT, RingFault, RingSpec, Step};
use crn_cipher::{BLOCK_WORDS, block};
use crn_limits::{POLICY_LIMIT, SLOT_LIMIT};
use std::alloc::{AllocError, Global};
use std::marker::Model;

/// Where a reader of a machine stands.
#[derive(Clone, Copy, Debug, PartialEq, Eq)]
pub struct Taker {
    /// The number of the next block to take.
    pub taken: u64,
    /// Whether it has left.
    pub left: bool,
    /// Whether it has seen the end mark, with all blocks taken.
    pub seen_end: bool,
    /// Whether it has begun to read the next block.
    pub reading: bool,
    /// The words of that block that it has read.
    pub read: u64,
}

/// A ring with all its actors, which takes one step at a time: the step of whichever actor is named. The producer
/// publishes one block at a time and loads every reader's cursor before each, and a reader takes one block at a time.
///
/// A contract sees its words and where each actor stands.
#[derive(Drop)]
pub struct Machine {
    spec: RingSpec,
    words: Vec<u64>,
    published: u64,
    ended: bool,
    // the readers whose cursors have let the next block in, in order
    passed: u32,
    // the words of the next block that are stored
    stored: u64,
    takers: Vec<Taker>,
}

impl Model for Machine {
    ghost Value = { MachineState };

    ghost view = { λ m. machine_of m.spec m.words.items m.published m.ended m.passed m.stored m.takers.items };

    ghost invariant = { λ m. MachineFits (machine_of m.spec m.words.items m.published m.ended m.passed m.stored m.takers.items) };
}

// Returns the index of word `i` of block `n`.
#[inline(always)]
#[tactic(auto, unfolding(crate::specs::Ring::place))]
fn place_of(spec: &RingSpec, n: u64, i: u64) -> u64
    requires size { 0 < spec.now.size }
    requires small { spec.now.size ≤ SLOT_LIMIT }
    requires readers { spec.now.readers ≤ POLICY_LIMIT }
    requires word { i < BLOCK_WORDS }
    ensures place { result ≡ place spec.now n i }
    ensures not_first { 0 < result }
    ensures within { result < word_count spec.now }
{
    1 + u64::from(spec.readers) + BLOCK_WORDS as u64 * (n % spec.size) + i
}

impl Machine {
    /// Opens a ring: nothing is published or taken yet. Allocates the words and the readers; no step allocates any more.
    ///
    /// # Errors
    ///
    /// The fault that [`RingSpec::judge`] finds, or else `Memory` if an allocation fails. Then nothing is kept.
    pub fn open(alloc: Global, spec: RingSpec) -> Result<Machine, RingFault>
        ensures opened { IfOk result (λ m. m ≡ open_machine spec) }
        ensures is_ring { IfOk result (λ m. IsRing spec) }
        ensures valid { IfOk result (λ m. CanOpen spec) }
        ensures refused { IfErr result (λ f. RefusesRing spec f) }
    {
        spec.judge()?;
        Ok(Machine::before_any_step(alloc, spec)?)
    }

    // Opens a ring whose spec was judged.
    fn before_any_step(alloc: Global, spec: RingSpec) -> Result<Machine, AllocError>
        requires { CanOpen spec }
        ensures { IfOk result (λ m. m ≡ open_machine spec) }
    {
        let words = spec.opening_words(alloc)?;
        let taker = Taker {
            taken: spec.id.first,
            left: false,
            seen_end: false,
            reading: false,
            read: 0,
        };
        let takers = vec![in alloc; taker; spec.readers as usize]?;
        Ok(Machine {
            spec,
            words,
            published: spec.id.first,
            ended: false,
            passed: 0,
            stored: 0,
            takers,
        })
    }

    // Stores the end mark.
    fn end(&mut self) -> Step
        ensures state { self.new ≡ (ends self.old).0 }
        ensures answer { Some result ≡ (ends self.old).1 }
    {
        let value = 2 * self.published + 1;
        self.words[0] = value;
        self.ended = true;
        Step {
            kind: Kind::P3,
            word: 0,
            value,
        }
    }

    // Loads the cursor of the next reader. If it leaves no room, the producer begins with the first again.
    fn load_gate(&mut self) -> Step
        requires { self.old.passed < self.old.spec.readers }
        ensures state { self.new ≡ (loads_gate self.old).0 }
        ensures answer { Some result ≡ (loads_gate self.old).1 }
    {
        let word = 1 + self.passed as usize;
        let count = self.words[word];
        let passes = count == LEFT || self.published < count.saturating_add(self.spec.size);
        self.passed = if passes { self.passed + 1 } else { 0 };
        Step {
            kind: Kind::P1,
            word: word as u64,
            value: count,
        }
    }

    // Stores the next word of the next block.
    fn store_word(&mut self) -> Step
        requires { self.old.stored < BLOCK_WORDS }
        ensures state { self.new ≡ (stores_word self.old).0 }
        ensures answer { Some result ≡ (stores_word self.old).1 }
    {
        let word = place_of(&self.spec, self.published, self.stored);
        let value = block(self.spec.id.key, self.published).word(self.stored as usize);
        self.words[word as usize] = value;
        self.stored += 1;
        Step {
            kind: Kind::P2,
            word,
            value,
        }
    }

    // Publishes the next block, which stands whole in its slot.
    fn publish(&mut self) -> Step
        requires going { self.old.ended ≡ false }
        requires more { self.old.published < self.old.spec.id.total }
        ensures state { self.new ≡ (publishes self.old).0 }
        ensures answer { Some result ≡ (publishes self.old).1 }
    {
        self.published += 1;
        let value = 2 * self.published;
        self.words[0] = value;
        self.passed = 0;
        self.stored = 0;
        Step {
            kind: Kind::P3,
            word: 0,
            value,
        }
    }

    #[tactic(auto, unfolding(crate::specs::Machine::producer_steps))]
    fn producer_step(&mut self) -> Option<Step>
        ensures state { self.new ≡ (producer_steps self.old).0 }
        ensures answer { result ≡ (producer_steps self.old).1 }
    {
        if self.ended {
            None
        } else if self.published == self.spec.id.total {
            Some(self.end())
        } else if self.passed < self.spec.readers {
            Some(self.load_gate())
        } else if self.stored < BLOCK_WORDS as u64 {
            Some(self.store_word())
        } else {
            Some(self.publish())
        }
    }

    #[tactic(auto, unfolding(crate::specs::Machine::finish_steps))]
    fn finish_step(&mut self) -> Option<Step>
        ensures state { self.new ≡ (finish_steps self.old).0 }
        ensures answer { result ≡ (finish_steps self.old).1 }
    {
        if self.ended || self.passed != 0 || self.stored != 0 {
            None
        } else {
            Some(self.end())
        }
    }

    // Returns where reader `r` stands.
    #[inline(always)]
    fn taker(&self, r: u32) -> Taker
        requires { r < self.now.spec.readers }
        ensures stands { result ≡ taker_at self.now r }
        ensures fits { TakerFits self.now.spec.id.total result }
    {
        self.takers[r as usize]
    }

    // Loads the ring cursor, by reader `r`, to see how far blocks are published.
    fn load_cursor(&mut self, r: u32) -> Step
        requires { r < self.old.spec.readers }
        ensures state { self.new ≡ (loads_cursor self.old r).0 }
        ensures answer { Some result ≡ (loads_cursor self.old r).1 }
    {
        let value = self.words[0];
        let mut taker = self.taker(r);
        taker.seen_end = value == 2 * taker.taken + 1;
        taker.reading = taker.taken < value / 2;
        self.takers[r as usize] = taker;
        Step {
            kind: Kind::R1,
            word: 0,
            value,
        }
    }

    // Loads the next word of reader `r`'s block from its slot.
    fn load_word(&mut self, r: u32) -> Step
        requires known { r < self.old.spec.readers }
        requires more { (taker_at self.old r).read < BLOCK_WORDS }
        ensures state { self.new ≡ (loads_word self.old r).0 }
        ensures answer { Some result ≡ (loads_word self.old r).1 }
    {
        let mut taker = self.taker(r);
        let word = place_of(&self.spec, taker.taken, taker.read);
        let value = self.words[word as usize];
        taker.read += 1;
        self.takers[r as usize] = taker;
        Step {
            kind: Kind::R2,
            word,
            value,
        }
    }

    // Takes the block that reader `r` has read.
    fn take(&mut self, r: u32) -> Step
        requires known { r < self.old.spec.readers }
        requires reads { (taker_at self.old r).reading ≡ true }
        ensures state { self.new ≡ (takes self.old r).0 }
        ensures answer { Some result ≡ (takes self.old r).1 }
    {
        let mut taker = self.taker(r);
        taker.taken += 1;
        taker.reading = false;
        taker.read = 0;
        self.words[1 + r as usize] = taker.taken;
        self.takers[r as usize] = taker;
        Step {
            kind: Kind::R3,
            word: 1 + u64::from(r),
            value: taker.taken,
        }
    }

    // Stores the mark of a reader that has left, by reader `r`.
    fn leave(&mut self, r: u32) -> Step
        requires { r < self.old.spec.readers }
        ensures state { self.new ≡ (leaves self.old r).0 }
        ensures answer { Some result ≡ (leaves self.old r).1 }
    {
        let mut taker = self.taker(r);
        taker.left = true;
        self.words[1 + r as usize] = LEFT;
        self.takers[r as usize] = taker;
        Step {
            kind: Kind::R3,
            word: 1 + u64::from(r),
            value: LEFT,
        }
    }

    #[tactic(auto, unfolding(crate::specs::Machine::reader_steps))]
    fn reader_step(&mut self, r: u32) -> Option<Step>
        requires { r < self.old.spec.readers }
        ensures state { self.new ≡ (reader_steps self.old r).0 }
        ensures answer { result ≡ (reader_steps self.old r).1 }
    {
        let taker = self.taker(r);
        if taker.left || taker.seen_end {
            None
        } else if !taker.reading {
            Some(self.load_cursor(r))
        } else if taker.read < BLOCK_WORDS as u64 {
            Some(self.load_word(r))
        } else {
            Some(self.take(r))
        }
    }

    #[tactic(auto, unfolding(crate::specs::Machine::leave_steps))]
    fn leave_step(&mut self, r: u32) -> Option<Step>
        requires { r < self.old.spec.readers }
        ensures state { self.new ≡ (leave_steps self.old r).0 }
        ensures answer { result ≡ (leave_steps self.old r).1 }
    {
        let taker = self.taker(r);
        if taker.left || taker.reading {
            None
        } else {
            Some(self.leave(r))
        }
    }

    /// Takes the next step of an actor and returns it, or `None` if it has none, and then nothing changes. Allocates
    /// nothing.
    ///
    /// - The producer has no step after the end mark. At the stream's total it stores the end mark. Else it loads each
    ///   reader's cursor, from the first again if one shows that the slot is still needed, stores the words of the
    ///   next block and publishes it.
    /// - `Finish` stores the end mark if the producer has begun no block, or begins one anew: its next step would load
    ///   reader 0's cursor, or store the end mark.
    /// - A reader loads the ring cursor until it shows a block that it has not taken, reads that block's words from its
    ///   slot and takes it. It has no step once it has left or has seen the end mark.
    /// - `Leave` stores [`LEFT`] if the reader stands between two blocks or has seen the end mark, and has not left.
    ///
    /// # Asks
    ///
    /// A reader's number is below the ring's `readers`.
    pub fn step(&mut self, who: Actor) -> Option<Step>
        requires { IsActor self.old.spec who }
        ensures state { self.new ≡ (machine_steps self.old who).0 }
        ensures answer { result ≡ (machine_steps self.old who).1 }
        ensures spec { self.new.spec ≡ self.old.spec }
    {
        match who {
            Actor::Producer => self.producer_step(),
            Actor::Finish => self.finish_step(),
            Actor::Reader(r) => self.reader_step(r),
            Actor::Leave(r) => self.leave_step(r),
        }
    }
}

/// Takes the machine's next steps by the actors of a schedule in turn, and returns for each actor its step, or `None` if
/// it has none.
///
/// # Asks
///
/// Reader numbers are below the machine's `readers`.
///
/// # Errors
///
/// `AllocError` if an allocation fails. The room for all steps is allocated first, so the machine is then unchanged.
pub fn replay(
    alloc: Global,
    machine: &mut Machine,
    actors: &[Actor],
) -> Result<Vec<Option<Step>>, AllocError>
    requires { All (IsActor machine.old.spec) actors.now }
    ensures state { IfOk result (λ answers. machine.new ≡ machine_after machine.old actors.now) }
    ensures answers { IfOk result (λ answers. answers.items ≡ machine_answers machine.old actors.now) }
    ensures length { IfOk result (λ answers. length answers.items ≡ length actors.now) }
    ensures spec { machine.new.spec ≡ machine.old.spec }
    ensures unchanged { OnErr result (machine.new ≡ machine.old) }
{
    let mut answers = vec![in alloc; None; actors.len()]?;
    for (i, who) in actors.iter().enumerate() {
        answers[i] = machine.step(*who);
    }
    Ok(answers)
}
