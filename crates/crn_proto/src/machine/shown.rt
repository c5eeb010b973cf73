//! What a machine shows of its ring and its actors.

ghost use Rattle.std.specs.Prelude.{◌≡◌, ◌<◌, ◌≤◌, slice_index};
ghost use Rattle.crn_proto.specs.Ring.{word_count};
ghost use Rattle.crn_proto.specs.Machine.{taker_at};

use super::Machine;
use crate::RingSpec;

impl Machine {
    /// Returns the ring that was opened.
    #[inline(always)]
    pub fn spec(&self) -> RingSpec
        ensures { result ≡ self.now.spec }
    {
        self.spec
    }

    /// Returns the number of the next block to publish: at open the stream's first, and at most its total.
    #[inline(always)]
    pub fn published(&self) -> u64
        ensures published { result ≡ self.now.published }
        ensures in_total { result ≤ self.now.spec.id.total }
    {
        self.published
    }

    /// Returns whether the end mark is stored.
    #[inline(always)]
    pub fn ended(&self) -> bool
        ensures { result ≡ self.now.ended }
    {
        self.ended
    }

    /// Returns the number of the next block that reader `r` takes, or would have taken next if it has left: at most
    /// the stream's total.
    ///
    /// # Asks
    ///
    /// `r` is below `readers`.
    #[inline(always)]
    pub fn taken(&self, r: u32) -> u64
        requires { r < self.now.spec.readers }
        ensures taken { result ≡ (taker_at self.now r).taken }
        ensures in_total { result ≤ self.now.spec.id.total }
    {
        self.takers[r as usize].taken
    }

    /// Returns whether reader `r` has left.
    ///
    /// # Asks
    ///
    /// `r` is below `readers`.
    #[inline(always)]
    pub fn left(&self, r: u32) -> bool
        requires { r < self.now.spec.readers }
        ensures { result ≡ (taker_at self.now r).left }
    {
        self.takers[r as usize].left
    }

    /// Returns whether reader `r` has seen the end mark, with all blocks taken.
    ///
    /// # Asks
    ///
    /// `r` is below `readers`.
    #[inline(always)]
    pub fn reader_ended(&self, r: u32) -> bool
        requires { r < self.now.spec.readers }
        ensures { result ≡ (taker_at self.now r).seen_end }
    {
        self.takers[r as usize].seen_end
    }

    /// Returns word `i` of the ring. Word 0 is the ring cursor: twice the number of the next block, and one more after the
    /// end mark. Words 1 to `readers` are the readers' cursors: a count, or [`LEFT`](crate::LEFT). Then come the slots,
    /// with [`BLOCK_WORDS`](crn_cipher::BLOCK_WORDS) words each; block `n` stands in slot `n` mod `size`.
    ///
    /// # Asks
    ///
    /// `i` is below the number of words, `1 + readers + BLOCK_WORDS * size`.
    #[inline(always)]
    pub fn word(&self, i: u64) -> u64
        requires { i < word_count self.now.spec }
        ensures { result ≡ slice_index self.now.words i }
    {
        self.words[i as usize]
    }
}
