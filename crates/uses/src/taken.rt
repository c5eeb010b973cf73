//! Consecutive blocks of a key.
ghost use Rattle.std.specs.Prelude.{◌≡◌, ◌+◌, ◌≤◌, ◌<◌, length, vec_len, vec_capacity};
ghost use Rattle.crn_cipher.specs.Following.{FollowOn};

use crn_cipher::Block;

/// Consecutive blocks of a key, in order.
#[derive(Drop)]
pub struct Taken {
    /// The key.
    pub key: [u64; 4],
    /// The number of the first block.
    pub first: u64,
    /// The blocks.
    pub blocks: Vec<Block>,
    pub ghost follow: { FollowOn key first (length blocks.items) blocks.items },
}

impl Taken {
    /// Appends the first `count` of these blocks, which follow on.
    pub(crate) fn append(&mut self, batch: &[Block], count: usize)
        requires next { (count ≤ length batch.now) × FollowOn self.old.key (self.old.first + vec_len self.old.blocks) count batch.now }
        requires room { vec_len self.old.blocks + count ≤ vec_capacity self.old.blocks }
        ensures same { (self.new.key ≡ self.old.key) × (self.new.first ≡ self.old.first) × (vec_capacity self.new.blocks ≡ vec_capacity self.old.blocks) }
        ensures grown { vec_len self.new.blocks ≡ vec_len self.old.blocks + count }
    {
        for k in 0..count {
            self.push(batch[k]);
        }
    }

    // Appends the next block.
    fn push(&mut self, next: Block)
        requires next { (next.key ≡ self.old.key) × (next.number ≡ self.old.first + vec_len self.old.blocks) }
        requires room { vec_len self.old.blocks < vec_capacity self.old.blocks }
        ensures same { (self.new.key ≡ self.old.key) × (self.new.first ≡ self.old.first) × (vec_capacity self.new.blocks ≡ vec_capacity self.old.blocks) }
        ensures grown { vec_len self.new.blocks ≡ vec_len self.old.blocks + 1 }
    {
        self.blocks.push_reserved(next);
    }
}
