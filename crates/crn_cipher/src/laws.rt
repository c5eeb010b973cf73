//! Laws of the stream. They compute nothing.

ghost use Rattle.std.specs.Prelude.{◌≢◌, All};
ghost use Rattle.crn_cipher.specs.Blocks.{StreamWords, streams};

/// States that two blocks of one key, of the numbers `m` and `n`, differ in the words of each stream: for a fixed key the
/// cipher is one to one.
///
/// # Asks
///
/// The numbers are different.
pub fn distinct(key: [u64; 4], m: u64, n: u64)
    requires { m ≢ n }
    ensures { All (λ s. StreamWords key m s ≢ StreamWords key n s) streams }
{}
