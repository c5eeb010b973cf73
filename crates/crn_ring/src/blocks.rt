//! Stores and loads the blocks in the slots of a ring, word by word.
ghost use Rattle.std.specs.Prelude.{◌≡◌, ℕ, ◌+◌, ◌*◌, ◌%◌, ◌<◌, ◌≤◌, false, List, [], drop, length};
ghost use Rattle.crn_cipher.specs.Blocks.{BlockWords};
ghost use Rattle.crn_cipher.specs.Following.{FollowOn};
ghost use Rattle.crn_proto.specs.Ring.{PassesGates, StoreWord, reading, storing};
ghost use Rattle.crn_proto.specs.Chains.{ProducerReaches, ReaderReaches};
ghost use Rattle.crn_steps.specs.Seats.{looked_in, passed_in, producer_in, reader_in, spec_in, view_of};
ghost use Rattle.crn_ring.specs.Gates.{HaveRoom};
ghost use Rattle.crn_steps.specs.Holds.{HasReader};
ghost use Rattle.crn_steps.specs.Plays.{ProducerGoesOn};
ghost use Rattle.crn_ring.specs.Calls.{AfterShown};
ghost use Rattle.crn_ring.specs.Inner.Plays.{read_many, wrote_many};
ghost use Rattle.crn_steps.specs.Places.{IsProducerSeat, IsReaderSeat, SameSeat, ViewBecomes};

use crate::ring::Ring;
use crn_cipher::{BLOCK_WORDS, Block};
use crn_limits::BLOCK_LIMIT;
use crn_steps::Place;

impl Ring {
    // Stores the words of a block in its slot.
    #[inline(always)]
    pub(crate) fn store_row(&self, seat: &mut Place, block: &Block)
        requires own { IsProducerSeat self.now.words seat.old }
        requires at { ((producer_in seat.old).ended ≡ false) × (storing (producer_in seat.old) ≡ block.now.number) × ((producer_in seat.old).stored % BLOCK_WORDS ≡ 0) }
        requires block { (block.now.key ≡ self.now.words.spec.id.key) × (block.now.number < self.now.words.spec.id.total) }
        requires goes_on { ProducerGoesOn self.now.words.spec (producer_in seat.old) (passed_in seat.old) StoreWord }
        requires room { PassesGates self.now.words.spec (producer_in seat.old) block.now.number }
        ensures own { SameSeat seat.old seat.new }
        ensures moved { ProducerReaches self.now.words.spec (producer_in seat.old) BLOCK_WORDS (producer_in seat.new) }
        ensures view { ViewBecomes seat.old seat.new (wrote_many BLOCK_WORDS (view_of seat.old)) }
    {
        let number = block.number;
        let base = self.words.base(number);
        for i in 0..BLOCK_WORDS {
            self.words.store_word(seat, base, number, i, block.word(i));
        }
    }

    // Stores the words of the first `count` blocks, which are consecutive, in their slots.
    pub(crate) fn store_rows(&self, seat: &mut Place, blocks: &[Block], count: usize)
        requires own { IsProducerSeat self.now.words seat.old }
        requires at { ((producer_in seat.old).ended ≡ false) × ((producer_in seat.old).stored ≡ 0) }
        requires blocks { (count ≤ length blocks.now) × FollowOn self.now.words.spec.id.key (producer_in seat.old).published (length blocks.now) blocks.now }
        requires below { (producer_in seat.old).published + count ≤ self.now.words.spec.id.total }
        requires goes_on { ProducerGoesOn self.now.words.spec (producer_in seat.old) (passed_in seat.old) StoreWord }
        requires room { HaveRoom self.now.words.spec (producer_in seat.old) count }
        ensures own { SameSeat seat.old seat.new }
        ensures moved { ProducerReaches self.now.words.spec (producer_in seat.old) (BLOCK_WORDS * count) (producer_in seat.new) }
        ensures view { ViewBecomes seat.old seat.new (wrote_many (BLOCK_WORDS * count) (view_of seat.old)) }
    {
        for k in 0..count {
            self.store_row(seat, &blocks[k]);
        }
    }

    // Loads the words of block n from its slot. The ring cursor has shown that it is published.
    #[inline(always)]
    pub(crate) fn load_row(&self, seat: &mut Place, n: u64) -> [u64; BLOCK_WORDS]
        requires own { IsReaderSeat self.now.words seat.old }
        requires at { ((reader_in seat.old).left ≡ false) × (n ≡ reading (reader_in seat.old)) × (length (reader_in seat.old).read % BLOCK_WORDS ≡ 0) × (n < (reader_in seat.old).seen) }
        ensures own { SameSeat seat.old seat.new }
        ensures view { ViewBecomes seat.old seat.new (read_many result (view_of seat.old)) }
        ensures moved { ReaderReaches (reader_in seat.old) BLOCK_WORDS (reader_in seat.new) }
        ensures words { result ≡ BlockWords self.now.words.spec.id.key n }
    {
        let base = self.words.base(n);
        let mut words = [0u64; BLOCK_WORDS];
        for i in 0..words.len() {
            words[i] = self.words.load_word(seat, base, n, i);
        }
        words
    }

    // Loads `count` blocks, from n on, into the first places of `out`. A call of it stays a call: inlined into the loop that
    // runs blocks, it would have too few registers for itself, and a run takes a twentieth longer.
    #[inline(never)]
    pub(crate) fn load_rows(&self, seat: &mut Place, n: u64, out: &mut [Block], count: usize)
        requires own { IsReaderSeat self.now.words seat.old }
        requires at { ((reader_in seat.old).left ≡ false) × ((reader_in seat.old).taken ≡ n) × ((reader_in seat.old).read ≡ []) × (n + count ≤ (reader_in seat.old).seen) }
        requires room { (count ≤ length out.old) × (n + count ≤ BLOCK_LIMIT) }
        ensures own { SameSeat seat.old seat.new }
        ensures view { (ns : List ℕ) × (length ns ≡ BLOCK_WORDS * count) × ViewBecomes seat.old seat.new (read_many ns (view_of seat.old)) }
        ensures moved { ReaderReaches (reader_in seat.old) (BLOCK_WORDS * count) (reader_in seat.new) }
        ensures blocks { FollowOn self.now.words.spec.id.key n count out.new }
        ensures rest { drop count out.new ≡ drop count out.old }
    {
        let key = self.words.spec.id.key;
        for k in 0..count {
            let number = n + k as u64;
            let words = self.load_row(seat, number);
            out[k] = Block::from_words(key, number, words);
        }
    }

    // Takes as many as fit into `out` of the blocks that reader r has seen, from n on and below `seen`. Returns their number.
    pub(crate) fn take_seen(
        &self,
        seat: &mut Place,
        r: u32,
        n: u64,
        seen: u64,
        out: &mut [Block],
    ) -> usize
        requires own { IsReaderSeat self.now.words seat.old }
        requires at { ((reader_in seat.old).left ≡ false) × ((reader_in seat.old).taken ≡ n) × ((reader_in seat.old).read ≡ []) × ((reader_in seat.old).seen ≡ seen) }
        requires mine { ((view_of seat.old).number ≡ r) × (r < self.now.words.spec.readers) }
        requires order { (n ≤ seen) × (seen ≤ self.now.words.spec.id.total) }
        ensures own { SameSeat seat.old seat.new }
        ensures seat { HasReader (view_of seat.new) × ((view_of seat.new).number ≡ r) × (spec_in seat.new ≡ spec_in seat.old) }
        ensures rests { ((reader_in seat.new).left ≡ false) × ((reader_in seat.new).read ≡ []) }
        ensures moved { ReaderReaches (reader_in seat.old) (BLOCK_WORDS * result + 1) (reader_in seat.new) }
        ensures taken { AfterShown self.now.words.spec (reader_in seat.old) (reader_in seat.new) out.old out.new result }
        ensures looks { (0 < result → looked_in seat.new ≡ false) × (result ≡ 0 → looked_in seat.new ≡ looked_in seat.old) }
    {
        let count = out.len().min((seen - n) as usize);
        if count == 0 {
            return 0;
        }
        self.load_rows(seat, n, out, count);
        self.words.store_taken(seat, r, n + count as u64, count);
        count
    }
}
