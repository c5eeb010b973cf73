//! The atomic steps of the actors, one function each. A step is one load or one store of one word of the table, and its
//! contract names the move of the ring that it makes. Each is asked for only where its actor goes on by it.
ghost use Rattle.std.specs.Prelude.{◌≡◌, ◌≢◌, ◌+◌, ◌-◌, ◌*◌, ◌/◌, ◌%◌, ◌<◌, ◌≤◌, ℕ, false, length, [], slice_index};
ghost use Rattle.crn_cipher.specs.Blocks.{block_word};
ghost use Rattle.crn_proto.specs.Ring.{place, left_mark, storing, reading, PassesGates, ProducerMay, ReaderMay, LoadGate, StoreWord, Publish, Finish, LoadCursor, LoadWord, Take, Leave};
ghost use Rattle.crn_proto.specs.Chains.{ProducerReaches, ReaderReaches};
ghost use Rattle.crn_steps.specs.Seats.{looked_in, passed_in, producer_in, reader_in, view_of};
ghost use Rattle.crn_steps.specs.Plays.{by_producer, by_reader, ProducerGoesOn, ReaderGoesOn};
ghost use Rattle.crn_steps.specs.Places.{IsProducerSeat, IsReaderSeat, SameSeat, ViewBecomes};

use crate::plays::{
    LoadsCursor, LoadsGate, LoadsWord, Publishes, StoresEnd, StoresLeft, StoresTaken, StoresWord,
};
use crate::shared_words::{Place, SharedWords};
use crn_cipher::BLOCK_WORDS;
use crn_proto::LEFT;

impl SharedWords {
    /// Returns the index at which the words of block n begin. The size is a power of two, so a mask selects the slot.
    #[inline(always)]
    pub fn base(&self, n: u64) -> usize
        ensures same { result ≡ place self.now.spec n 0 }
        ensures within { result + BLOCK_WORDS ≤ self.now.table.shared.table_id.words }
    {
        (1 + self.spec.readers as u64 + BLOCK_WORDS as u64 * (n & (self.spec.size - 1))) as usize
    }

    /// Loads the cursor of reader r, for the producer.
    ///
    /// # Asks
    ///
    /// It is the producer's seat, and the end is not marked. There is a reader r, and it is the next whose cursor is to be loaded.
    #[inline(always)]
    pub fn load_gate(&self, seat: &mut Place, r: u32) -> u64
        requires own { IsProducerSeat self.now seat.old }
        requires may { ((producer_in seat.old).ended ≡ false) × (r < self.now.spec.readers) }
        requires goes_on { ProducerGoesOn self.now.spec (producer_in seat.old) (passed_in seat.old) (LoadGate r) }
        ensures own { SameSeat seat.old seat.new }
        ensures moved { ProducerReaches self.now.spec (producer_in seat.old) 1 (producer_in seat.new) }
        ensures view { ViewBecomes seat.old seat.new (by_producer (LoadGate r) result (view_of seat.old)) }
        ensures gates { length (producer_in seat.old).gates ≡ self.now.spec.readers }
        ensures bounds { result ≢ left_mark → (result ≤ (producer_in seat.old).published) × ((producer_in seat.old).published ≤ result + self.now.spec.size) }
    {
        self.table.shared.load::<LoadsGate>(seat, 1 + r as usize)
    }

    /// Stores word i of block n, whose words begin at `base`.
    ///
    /// # Asks
    ///
    /// It is the producer's seat, and the end is not marked. The word is the next of a block below the total, for which every gate
    /// has room.
    #[inline(always)]
    pub fn store_word(&self, seat: &mut Place, base: usize, n: u64, i: usize, word: u64)
        requires own { IsProducerSeat self.now seat.old }
        requires at { ((producer_in seat.old).ended ≡ false) × (n ≡ storing (producer_in seat.old)) × (i ≡ (producer_in seat.old).stored % BLOCK_WORDS) }
        requires below { n < self.now.spec.id.total }
        requires goes_on { ProducerGoesOn self.now.spec (producer_in seat.old) (passed_in seat.old) StoreWord }
        requires room { PassesGates self.now.spec (producer_in seat.old) n }
        requires word { word ≡ block_word self.now.spec.id.key n i }
        requires base { (base ≡ place self.now.spec n 0) × (base + BLOCK_WORDS ≤ self.now.table.shared.table_id.words) }
        ensures own { SameSeat seat.old seat.new }
        ensures moved { ProducerReaches self.now.spec (producer_in seat.old) 1 (producer_in seat.new) }
        ensures view { ViewBecomes seat.old seat.new (by_producer StoreWord 0 (view_of seat.old)) }
    {
        self.table.shared.store::<StoresWord>(seat, base + i, word);
    }

    /// Publishes the `count` blocks that the producer has stored; n is the number of the block after them.
    ///
    /// # Asks
    ///
    /// It is the producer's seat, and the end is not marked. `count` is at least 1, and all words of these blocks are stored.
    #[inline(always)]
    pub fn publish_upto(&self, seat: &mut Place, n: u64, count: usize)
        requires own { IsProducerSeat self.now seat.old }
        requires at { ((producer_in seat.old).ended ≡ false) × ((producer_in seat.old).stored ≡ BLOCK_WORDS * count) × (0 < count) × (n ≡ (producer_in seat.old).published + count) }
        requires below { n ≤ self.now.spec.id.total }
        ensures own { SameSeat seat.old seat.new }
        ensures moved { ProducerReaches self.now.spec (producer_in seat.old) 1 (producer_in seat.new) }
        ensures view { ViewBecomes seat.old seat.new (by_producer (Publish count) 0 (view_of seat.old)) }
    {
        self.table.shared.store::<Publishes>(seat, 0, 2 * n);
    }

    /// Marks the end after n blocks.
    ///
    /// # Asks
    ///
    /// It is the producer's seat, and the end is not marked. All n blocks are published, and no further word is stored.
    #[inline(always)]
    pub fn store_end(&self, seat: &mut Place, n: u64)
        requires own { IsProducerSeat self.now seat.old }
        requires at { ((producer_in seat.old).ended ≡ false) × ((producer_in seat.old).stored ≡ 0) × ((producer_in seat.old).published ≡ n) }
        requires below { n ≤ self.now.spec.id.total }
        ensures own { SameSeat seat.old seat.new }
        ensures moved { ProducerReaches self.now.spec (producer_in seat.old) 1 (producer_in seat.new) }
        ensures view { ViewBecomes seat.old seat.new (by_producer Finish 0 (view_of seat.old)) }
    {
        self.table.shared.store::<StoresEnd>(seat, 0, 2 * n + 1);
    }

    /// Loads the ring cursor, for a reader.
    ///
    /// # Asks
    ///
    /// The reader has neither left nor seen the end. It has read no word since it last took, and has taken all that an earlier
    /// load has shown.
    #[inline(always)]
    pub fn load_cursor(&self, seat: &mut Place) -> u64
        requires own { IsReaderSeat self.now seat.old }
        requires at { ((reader_in seat.old).left ≡ false) × ((reader_in seat.old).seen_end ≡ false) × ((reader_in seat.old).read ≡ []) }
        requires goes_on { ReaderGoesOn (reader_in seat.old) (looked_in seat.old) LoadCursor }
        ensures own { SameSeat seat.old seat.new }
        ensures moved { ReaderReaches (reader_in seat.old) 1 (reader_in seat.new) }
        ensures view { ViewBecomes seat.old seat.new (by_reader LoadCursor result (view_of seat.old)) }
        ensures bounds { ((reader_in seat.old).taken ≤ result / 2) × ((reader_in seat.old).seen ≤ result / 2) × (result / 2 ≤ self.now.spec.id.total) }
    {
        self.table.shared.load::<LoadsCursor>(seat, 0)
    }

    /// Loads word i of block n, whose words begin at `base`.
    ///
    /// # Asks
    ///
    /// The reader has not left. The word is the next of a block that it saw published.
    #[inline(always)]
    pub fn load_word(&self, seat: &mut Place, base: usize, n: u64, i: usize) -> u64
        requires own { IsReaderSeat self.now seat.old }
        requires at { ((reader_in seat.old).left ≡ false) × (n ≡ reading (reader_in seat.old)) × (i ≡ length (reader_in seat.old).read % BLOCK_WORDS) × (n < (reader_in seat.old).seen) }
        requires base { (base ≡ place self.now.spec n 0) × (base + BLOCK_WORDS ≤ self.now.table.shared.table_id.words) }
        ensures own { SameSeat seat.old seat.new }
        ensures moved { ReaderReaches (reader_in seat.old) 1 (reader_in seat.new) }
        ensures view { ViewBecomes seat.old seat.new (by_reader LoadWord result (view_of seat.old)) }
        ensures word { result ≡ block_word self.now.spec.id.key n i }
    {
        self.table.shared.load::<LoadsWord>(seat, base + i)
    }

    /// Takes the `count` blocks that reader r has read; n is the number of the block after them.
    ///
    /// # Asks
    ///
    /// It is the seat of reader r, which has not left. `count` is at least 1, and the reader has read just the words of these blocks.
    #[inline(always)]
    pub fn store_taken(&self, seat: &mut Place, r: u32, n: u64, count: usize)
        requires own { IsReaderSeat self.now seat.old }
        requires at { ((reader_in seat.old).left ≡ false) × ((view_of seat.old).number ≡ r) × (r < self.now.spec.readers) }
        requires whole { (length (reader_in seat.old).read ≡ BLOCK_WORDS * count) × (0 < count) × (n ≡ (reader_in seat.old).taken + count) }
        ensures own { SameSeat seat.old seat.new }
        ensures moved { ReaderReaches (reader_in seat.old) 1 (reader_in seat.new) }
        ensures view { ViewBecomes seat.old seat.new (by_reader (Take count) 0 (view_of seat.old)) }
    {
        self.table
            .shared
            .store::<StoresTaken>(seat, 1 + r as usize, n);
    }

    /// Stores the mark of a reader that has left in the cursor of reader r.
    ///
    /// # Asks
    ///
    /// It is the seat of reader r, which has not left and has read no word since it last took.
    #[inline(always)]
    pub fn store_left(&self, seat: &mut Place, r: u32)
        requires own { IsReaderSeat self.now seat.old }
        requires at { ((reader_in seat.old).left ≡ false) × ((reader_in seat.old).read ≡ []) × ((view_of seat.old).number ≡ r) × (r < self.now.spec.readers) }
        ensures own { SameSeat seat.old seat.new }
        ensures moved { ReaderReaches (reader_in seat.old) 1 (reader_in seat.new) }
        ensures view { ViewBecomes seat.old seat.new (by_reader Leave 0 (view_of seat.old)) }
    {
        self.table
            .shared
            .store::<StoresLeft>(seat, 1 + r as usize, LEFT);
    }
}
