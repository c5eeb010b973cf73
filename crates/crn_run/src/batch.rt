//! Batches of blocks, as they are published and taken.
ghost use Rattle.std.specs.Prelude.{◌≡◌, length};

use crn_cipher::Block;

/// The most blocks that are published, or taken, at once.
pub(crate) const BATCH: usize = 16;

/// Returns an array for a batch. Until a batch is written to it, all its blocks are block 0 of the key 0. Its words are
/// constants, so a thread that only takes blocks computes none.
pub(crate) fn room() -> [Block; BATCH]
    ensures { length result ≡ BATCH }
{
    let words = [
        0x0921_8ebd_e6c8_5537,
        0x5594_1f52_66d8_6105,
        0x4bd2_5e16_2824_34dc,
        0xee29_ec84_6bd2_e40b,
        0xca29_e963_0500_9de4,
        0x1cc2_7861_f52c_604b,
        0xa1e7_adf8_7d24_b5b5,
        0xfc22_91a0_341a_674c,
        0x5539_2778_6438_0943,
        0x86dc_4496_ff6c_4bf6,
        0xb6a1_6a29_4c09_b67c,
        0x3572_aa99_bcf7_1983,
    ];
    [Block::from_words([0; 4], 0, words); BATCH]
}
