//! The blocks of a key, and back from words to their block.
ghost use Rattle.std.specs.Prelude.{◌≡◌, ◌≢◌, ℕ, ◌<◌, ◌^◌, IfNone, IfSome};
ghost use Rattle.crn_cipher.specs.Blocks.{StreamWords};
ghost use Rattle.crn_cipher.specs.declared.stream.Stream.TheVariants.{Demand};

use crn_cipher::{Block, block, unthreefry};

/// Returns the block of a key that has these demand words, and `None` if no block has them. Allocates nothing.
pub fn block_with(key: [u64; 4], demand: [u64; 4]) -> Option<Block>
    ensures is { IfSome result (λ b. (b.key ≡ key) × (b.demand ≡ demand)) }
    ensures none { IfNone result ((n : ℕ) → n < 2 ^ 64 → StreamWords key n Demand ≢ demand) }
{
    match unthreefry(key, demand) {
        [n, 0, 0, 0] => Some(block(key, n)),
        _ => None,
    }
}
