//! The steps of the cipher undone.

ghost use Rattle.std.specs.Prelude.{◌≡◌, ◌<◌};
ghost use Rattle.crn_cipher.specs.Cipher.{key_words, undo_even, undo_odd, undo_key};

use crate::rounds::turned;

#[inline(always)]
#[tactic(auto, unfolding(crate::specs::Cipher::undo_even))]
fn unmix_even(x: [u64; 4], a: u32, b: u32) -> [u64; 4]
    requires a { a < 64 }
    requires b { b < 64 }
    requires above_a { 0 < a }
    requires above_b { 0 < b }
    ensures { result ≡ undo_even a b x }
{
    let [x0, x1, x2, x3] = x;
    let y1 = turned(x1 ^ x0, 64 - a);
    let y3 = turned(x3 ^ x2, 64 - b);
    [x0.wrapping_sub(y1), y1, x2.wrapping_sub(y3), y3]
}

#[inline(always)]
#[tactic(auto, unfolding(crate::specs::Cipher::undo_odd))]
fn unmix_odd(x: [u64; 4], a: u32, b: u32) -> [u64; 4]
    requires a { a < 64 }
    requires b { b < 64 }
    requires above_a { 0 < a }
    requires above_b { 0 < b }
    ensures { result ≡ undo_odd a b x }
{
    let [x0, x1, x2, x3] = x;
    let y1 = turned(x1 ^ x2, 64 - b);
    let y3 = turned(x3 ^ x0, 64 - a);
    [x0.wrapping_sub(y3), y1, x2.wrapping_sub(y1), y3]
}

/// Undoes key step `j`.
#[inline(always)]
#[tactic(auto, unfolding(crate::specs::Cipher::undo_key))]
pub(crate) fn take_key(key: [u64; 4], ks: [u64; 5], j: u64, x: [u64; 4]) -> [u64; 4]
    requires words { ks ≡ key_words key }
    requires step { j < 6 }
    ensures { result ≡ undo_key key j x }
{
    let [x0, x1, x2, x3] = x;
    let i = j as usize;
    [
        x0.wrapping_sub(ks[i % 5]),
        x1.wrapping_sub(ks[(i + 1) % 5]),
        x2.wrapping_sub(ks[(i + 2) % 5]),
        x3.wrapping_sub(j).wrapping_sub(ks[(i + 3) % 5]),
    ]
}

/// Undoes rounds 3 to 0 of each eight, in this order.
#[inline(always)]
pub(crate) fn undo_first_four(x: [u64; 4]) -> [u64; 4]
    ensures { result ≡ undo_even 14 16 (undo_odd 52 57 (undo_even 23 40 (undo_odd 5 37 x))) }
{
    unmix_even(
        unmix_odd(unmix_even(unmix_odd(x, 5, 37), 23, 40), 52, 57),
        14,
        16,
    )
}

/// Undoes rounds 7 to 4 of each eight, in this order.
#[inline(always)]
pub(crate) fn undo_last_four(x: [u64; 4]) -> [u64; 4]
    ensures { result ≡ undo_even 25 33 (undo_odd 46 12 (undo_even 58 22 (undo_odd 32 32 x))) }
{
    unmix_even(
        unmix_odd(unmix_even(unmix_odd(x, 32, 32), 58, 22), 46, 12),
        25,
        33,
    )
}
