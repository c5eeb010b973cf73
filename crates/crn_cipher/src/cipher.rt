//! The cipher and its inverse.
ghost use Rattle.std.specs.Prelude.{◌≡◌};
ghost use Rattle.crn_cipher.specs.Cipher.{Threefry, Un};

use crate::rounds::{add_key, first_four, last_four, schedule};
use crate::rounds_undone::{take_key, undo_first_four, undo_last_four};

/// Returns the words of Threefry4x64 with 20 rounds at the counter `ctr` of `key`, for every key and counter. Allocates
/// nothing.
///
/// Source: Salmon, Moraes, Dror and Shaw, "Parallel Random Numbers: As Easy as 1, 2, 3", SC 2011;
/// the rotations and the parity constant are those of Random123.
#[inline(always)]
#[tactic(auto, unfolding(crate::specs::Cipher::Threefry))]
pub fn threefry(key: [u64; 4], ctr: [u64; 4]) -> [u64; 4]
    ensures words { result ≡ Threefry key ctr }
    ensures undone { Un key result ≡ ctr }
{
    let ks = schedule(key);
    let x = first_four(add_key(key, ks, 0, ctr));
    let x = last_four(add_key(key, ks, 1, x));
    let x = first_four(add_key(key, ks, 2, x));
    let x = last_four(add_key(key, ks, 3, x));
    let x = first_four(add_key(key, ks, 4, x));
    add_key(key, ks, 5, x)
}

/// Returns the counter at which the cipher gives the words `out` with `key`: the inverse of [`threefry`], for every key
/// and all words. Allocates nothing.
#[tactic(auto, unfolding(crate::specs::Cipher::Un))]
pub fn unthreefry(key: [u64; 4], out: [u64; 4]) -> [u64; 4]
    ensures counter { result ≡ Un key out }
    ensures redone { Threefry key result ≡ out }
{
    let ks = schedule(key);
    let x = undo_first_four(take_key(key, ks, 5, out));
    let x = undo_last_four(take_key(key, ks, 4, x));
    let x = undo_first_four(take_key(key, ks, 3, x));
    let x = undo_last_four(take_key(key, ks, 2, x));
    let x = undo_first_four(take_key(key, ks, 1, x));
    take_key(key, ks, 0, x)
}
