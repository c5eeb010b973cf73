//! The words that all actors of a ring share: their table, its rule, and how it is opened and closed.
ghost use Rattle.std.specs.Prelude.{◌≡◌, ◌+◌, ◌-◌, ◌*◌, ◌<◌, ◌≤◌, true};
ghost use Rattle.std.specs.Int.{is_power_of_two};
ghost use Rattle.crn_limits.specs.declared.TheConstants.{BLOCK_LIMIT, POLICY_LIMIT, SLOT_LIMIT};
ghost use Rattle.crn_proto.specs.Ring.{word_count};

use crate::closing::Closing;
use crate::plays::CutsReader;
use crate::view::View;
use atomic_table::{Seat, Table, TableRule};
use crn_limits::POLICY_LIMIT;
use crn_proto::RingSpec;
use std::alloc::{AllocError, Global};

/// The rule of the table: its words and what its seats know are lawful between any two steps of any threads.
pub struct RingRule;

impl TableRule<(), View, RingSpec> for RingRule {
    ghost use Rattle.crn_steps.specs.Holds.{Holds, opened};

    ghost holds = { Holds };

    ghost first = { λ spec. opened spec 0 };
}

/// The table of a ring's words: the ring cursor, a cursor for each reader, and the slots.
pub type WordTable = Table<(), View, RingSpec, RingRule, Global>;

/// One actor's seat at the table.
pub type Place = Seat<(), View>;

/// The words that the actors of a ring share by reference, each on its own thread. The table is private, so other crates load
/// and store a word only by the eight steps of this one.
#[derive(Drop)]
pub struct SharedWords {
    pub(crate) table: WordTable,
    /// The ring, as it was opened.
    pub spec: RingSpec,
    pub ghost keyed: { table.shared.key ≡ spec },
    pub ghost counted: { table.shared.table_id.words ≡ word_count spec },
    pub ghost no_slots: { table.shared.table_id.slots ≡ 0 },
    pub ghost some_slot: { 0 < spec.size },
    pub ghost power: { is_power_of_two spec.size ≡ true },
    pub ghost few_slots: { spec.size ≤ SLOT_LIMIT },
    pub ghost few_readers: { spec.readers ≤ POLICY_LIMIT },
    pub ghost ordered: { spec.id.first ≤ spec.id.total },
    pub ghost small: { spec.id.total ≤ BLOCK_LIMIT },
}

impl SharedWords {
    ghost use Rattle.std.specs.Prelude.{IfOk};
    ghost use Rattle.crn_proto.specs.Opening.{CanOpen};
    ghost use Rattle.crn_steps.specs.Holds.{opened};
    ghost use Rattle.crn_steps.specs.Plays.{cut_left, cut_right};
    ghost use Rattle.crn_steps.specs.Seats.{producer_in, view_of};
    ghost use Rattle.crn_steps.specs.Places.{IsProducerSeat};
    ghost use Rattle.crn_steps.specs.Closes.{Closes};

    /// Returns the words of an open ring, and the seat that all actors' seats are cut from.
    ///
    /// # Asks
    ///
    /// The ring was judged.
    ///
    /// # Errors
    ///
    /// If an allocation fails. Then nothing is kept.
    pub fn open(alloc: Global, spec: RingSpec) -> Result<(SharedWords, Place), AllocError>
        requires { CanOpen spec }
        ensures spec { IfOk result (λ t. t.0.spec ≡ spec) }
        ensures seat { IfOk result (λ t. (t.1.table_id ≡ t.0.table.shared.table_id) × (view_of t.1 ≡ opened spec 0)) }
    {
        let words = spec.opening_words(alloc)?;
        let (table, seat) = Table::of_words(alloc, words.as_slice(), &spec)?;
        Ok((SharedWords { table, spec }, seat))
    }

    /// Cuts the seat of the next reader off the first seat. What is left of that after all readers is the producer's.
    ///
    /// # Asks
    ///
    /// It is the first seat at these words, and a reader waits in it.
    pub fn cut_reader(&self, seat: &mut Place) -> Place
        requires own { seat.old.table_id ≡ self.now.table.shared.table_id }
        requires first { view_of seat.old ≡ opened self.now.spec (view_of seat.old).number }
        requires waits { (view_of seat.old).number < self.now.spec.readers }
        ensures own { (seat.new.table_id ≡ seat.old.table_id) × (result.table_id ≡ seat.old.table_id) }
        ensures rest { view_of seat.new ≡ cut_left (view_of seat.old) }
        ensures cut { view_of result ≡ cut_right (view_of seat.old) }
    {
        self.table.shared.split_seat::<CutsReader>(seat)
    }

    /// Frees the words and returns the cursors. Allocates nothing and never waits.
    ///
    /// # Asks
    ///
    /// It is the producer's seat at these words.
    pub fn close(self, seat: Place) -> Closing
        requires { IsProducerSeat self seat }
        ensures { Closes self.spec (producer_in seat) result }
    {
        let SharedWords { table, spec } = self;
        let closed = table.close_with(seat);
        let cursor = closed.word(0);
        let mut cursors = [0u64; POLICY_LIMIT as usize];
        for r in 0..spec.readers as usize {
            cursors[r] = closed.word(1 + r);
        }
        closed.free();
        Closing {
            published: cursor / 2,
            ended: cursor % 2 == 1,
            cursors,
        }
    }
}
