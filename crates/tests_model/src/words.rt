//! What the tests know of the streams of a block from outside, so that a new stream changes no other file of this crate.
//! The words are Random123's `threefry4x64_R(20, ..)`.

use crn_cipher::{BLOCK_WORDS, Block, STREAMS};

/// The name of each stream, and the second word of its counters, in the order of `STREAMS`.
pub static NAMES_AND_COUNTERS: &[(&str, u64)] = &[("demand", 0), ("lead", 1), ("returns", 2)];

/// The words of block 0 of the zero key.
pub const ZERO_BLOCK: [u64; BLOCK_WORDS] = [
    0x0921_8ebd_e6c8_5537,
    0x5594_1f52_66d8_6105,
    0x4bd2_5e16_2824_34dc,
    0xee29_ec84_6bd2_e40b,
    0xca29_e963_0500_9de4,
    0x1cc2_7861_f52c_604b,
    0xa1e7_adf8_7d24_b5b5,
    0xfc22_91a0_341a_674c,
    0x5539_2778_6438_0943,
    0x86dc_4496_ff6c_4bf6,
    0xb6a1_6a29_4c09_b67c,
    0x3572_aa99_bcf7_1983,
];

/// The words of block 0 of the key of all ones.
pub const ONES_BLOCK: [u64; BLOCK_WORDS] = [
    0x6213_0176_f963_5528,
    0xc3f0_3b67_633e_f3b7,
    0x9f45_83cf_ecf3_8e0c,
    0x3f4c_486e_9ff6_cb2a,
    0x7c6c_fecb_2037_36b2,
    0x1106_6d6c_ba57_c1c1,
    0xc653_a42e_8112_ca7c,
    0x79ea_1ef4_77ff_5930,
    0xe799_b41b_9979_996d,
    0x0470_77e9_311a_d33a,
    0xf1e7_7b34_1731_d0ae,
    0x21a2_4f72_0cd4_7c64,
];

/// Returns the words of a block, stream after stream. None if the streams have more words than a block.
pub fn words_by_stream(block: &Block) -> Option<[u64; BLOCK_WORDS]> {
    let mut words = [0; BLOCK_WORDS];
    let mut place = 0usize;
    for stream in &STREAMS {
        for word in block.words(*stream) {
            *words.get_mut(place)? = *word;
            place = place.wrapping_add(1);
        }
    }
    Some(words)
}

/// Key, counter and output, four words each, at four counters of each stream.
pub const BLOCK_VECTORS: &str = "\
0000000000000000 0000000000000000 0000000000000000 0000000000000000 \
    0000000000000000 0000000000000000 0000000000000000 0000000000000000 \
    09218ebde6c85537 55941f5266d86105 4bd25e16282434dc ee29ec846bd2e40b\n\
ffffffffffffffff ffffffffffffffff ffffffffffffffff ffffffffffffffff \
    0000000000000000 0000000000000000 0000000000000000 0000000000000000 \
    62130176f9635528 c3f03b67633ef3b7 9f4583cfecf38e0c 3f4c486e9ff6cb2a\n\
ffffffffffffffff ffffffffffffffff ffffffffffffffff ffffffffffffffff \
    0000000000000001 0000000000000000 0000000000000000 0000000000000000 \
    a940464bf83d4420 a692f1db4f0317c2 71dd389078d15247 6ddcf19b2491f776\n\
cba249efa813f1a8 f08885a1fac3e1b1 141ddc920e9af2dd 4dbbca0388185c80 \
    0000000000000002 0000000000000000 0000000000000000 0000000000000000 \
    87324a5039afa525 4d0413d23a153e16 1f0406107ba1a628 7259098e685cff54\n\
ffffffffffffffff ffffffffffffffff ffffffffffffffff ffffffffffffffff \
    0000000000000000 0000000000000001 0000000000000000 0000000000000000 \
    7c6cfecb203736b2 11066d6cba57c1c1 c653a42e8112ca7c 79ea1ef477ff5930\n\
d5c0141bbb9a4292 59998d04da3e4a0a a2e5416906f45478 2494e6d09fcf14b7 \
    0000000000000001 0000000000000001 0000000000000000 0000000000000000 \
    541ce4da2763794b ff243d9b634ef1b9 e1307a4668941f2c 6493d9174ebac22f\n\
0000000000000000 0000000000000000 0000000000000000 0000000000000000 \
    0000000000000002 0000000000000001 0000000000000000 0000000000000000 \
    9db6c230c2ba66f4 0c9944739a477d3b 4a15db273c26e700 1871f147fb3a5a7d\n\
ffffffffffffffff ffffffffffffffff ffffffffffffffff ffffffffffffffff \
    0000000000000002 0000000000000001 0000000000000000 0000000000000000 \
    7780b6a53cbfcca8 1e68cb4fc5fb7b42 7ca2856007563ae9 3184d35f4d786d4e\n\
4fb0acf273d76412 8ce54e3f1d86f03d 7fae0cdb3d708189 8b075ab9f8be5c19 \
    0000000000000000 0000000000000002 0000000000000000 0000000000000000 \
    46292a4515c67f1a c4d2dbd87406dcad 8c526bddd283b603 b935f056375b689c\n\
0000000000000000 0000000000000000 0000000000000000 0000000000000000 \
    0000000000000001 0000000000000002 0000000000000000 0000000000000000 \
    b94ce4ab04e65bcc 813e8ae36508516a cbc4bc34acadc2da d1c90cbb352b2e33\n\
ffffffffffffffff ffffffffffffffff ffffffffffffffff ffffffffffffffff \
    0000000000000001 0000000000000002 0000000000000000 0000000000000000 \
    ff5fb11ae4cd8d0b 12e202f8a45e79fc 8aba4c698b5842a3 c191ac5c402afeaa\n\
ffffffffffffffff ffffffffffffffff ffffffffffffffff ffffffffffffffff \
    0000000000000002 0000000000000002 0000000000000000 0000000000000000 \
    a6c12332c3fcbb39 cc2897ea6562274d 66fcf736379c3287 ed9830f39a3500e7\n\
";
