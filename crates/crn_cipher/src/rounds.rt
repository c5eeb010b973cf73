//! The steps of the cipher on four words, which stay in registers.

ghost use Rattle.std.specs.Prelude.{◌≡◌, ◌<◌};
ghost use Rattle.crn_cipher.specs.Cipher.{rotl, key_words, key_step, even_round, odd_round};

const PARITY: u64 = 0x1BD1_1BDA_A9FC_1A22;

/// Returns the key words and the word that makes their xor the parity constant.
#[inline(always)]
pub(crate) fn schedule(key: [u64; 4]) -> [u64; 5]
    ensures { result ≡ key_words key }
{
    let [k0, k1, k2, k3] = key;
    [k0, k1, k2, k3, PARITY ^ k0 ^ k1 ^ k2 ^ k3]
}

#[inline(always)]
#[tactic(auto, using(crate::proofs::Words::rotate_left_is_rotl))]
pub(crate) fn turned(x: u64, k: u32) -> u64
    requires above { 0 < k }
    requires below { k < 64 }
    ensures { result ≡ rotl x k }
{
    x.rotate_left(k)
}

#[inline(always)]
#[tactic(auto, unfolding(crate::specs::Cipher::even_round))]
fn even_mix(x: [u64; 4], a: u32, b: u32) -> [u64; 4]
    requires a { a < 64 }
    requires b { b < 64 }
    requires above_a { 0 < a }
    requires above_b { 0 < b }
    ensures { result ≡ even_round a b x }
{
    let [x0, x1, x2, x3] = x;
    let y0 = x0.wrapping_add(x1);
    let y2 = x2.wrapping_add(x3);
    [y0, turned(x1, a) ^ y0, y2, turned(x3, b) ^ y2]
}

#[inline(always)]
#[tactic(auto, unfolding(crate::specs::Cipher::odd_round))]
fn odd_mix(x: [u64; 4], a: u32, b: u32) -> [u64; 4]
    requires a { a < 64 }
    requires b { b < 64 }
    requires above_a { 0 < a }
    requires above_b { 0 < b }
    ensures { result ≡ odd_round a b x }
{
    let [x0, x1, x2, x3] = x;
    let y0 = x0.wrapping_add(x3);
    let y2 = x2.wrapping_add(x1);
    [y0, turned(x1, b) ^ y2, y2, turned(x3, a) ^ y0]
}

/// Adds the key words of step `j`. The indices are known when the call is inlined, so no division is left.
#[inline(always)]
#[tactic(auto, unfolding(crate::specs::Cipher::key_step))]
pub(crate) fn add_key(key: [u64; 4], ks: [u64; 5], j: u64, x: [u64; 4]) -> [u64; 4]
    requires words { ks ≡ key_words key }
    requires step { j < 6 }
    ensures { result ≡ key_step key j x }
{
    let [x0, x1, x2, x3] = x;
    let i = j as usize;
    [
        x0.wrapping_add(ks[i % 5]),
        x1.wrapping_add(ks[(i + 1) % 5]),
        x2.wrapping_add(ks[(i + 2) % 5]),
        x3.wrapping_add(ks[(i + 3) % 5]).wrapping_add(j),
    ]
}

/// Applies rounds 0 to 3 of each eight.
#[inline(always)]
pub(crate) fn first_four(x: [u64; 4]) -> [u64; 4]
    ensures { result ≡ odd_round 5 37 (even_round 23 40 (odd_round 52 57 (even_round 14 16 x))) }
{
    odd_mix(
        even_mix(odd_mix(even_mix(x, 14, 16), 52, 57), 23, 40),
        5,
        37,
    )
}

/// Applies rounds 4 to 7 of each eight.
#[inline(always)]
pub(crate) fn last_four(x: [u64; 4]) -> [u64; 4]
    ensures { result ≡ odd_round 32 32 (even_round 58 22 (odd_round 46 12 (even_round 25 33 x))) }
{
    odd_mix(
        even_mix(odd_mix(even_mix(x, 25, 33), 46, 12), 58, 22),
        32,
        32,
    )
}
