//! Numbers in decimal, each in its only spelling: no sign before a number from 0 up, and no leading zeros.

ghost use Rattle.std.specs.Prelude.{◌≡◌, ◌++◌, ℕ, ◌<◌, ◌^◌, ◌↔◌, Some, IfSome, IsTrue, OnOk, decimal};

use itoa::Buffer;
use std::alloc::AllocError;

fn spells(text: &str, number: u64) -> bool
    ensures { IsTrue result ↔ (text.now ≡ decimal number) }
{
    Buffer::new().format(number) == text
}

/// Returns the number below 2^64 that a text spells in decimal, without a sign or leading zeros, so that each number has one
/// spelling. Returns `None` for any other text. Allocates nothing.
pub fn number_of_text(text: &str) -> Option<u64>
    ensures spelt { IfSome result (λ n. text.now ≡ decimal n) }
    ensures every { (n : ℕ) → n < 2 ^ 64 → text.now ≡ decimal n → result ≡ Some n }
{
    match text.parse::<u64>() {
        Ok(number) => {
            if !spells(text, number) {
                return None;
            }
            Some(number)
        }
        Err(_) => None,
    }
}

/// Appends a number in decimal to a text.
///
/// # Errors
///
/// `AllocError` if an allocation fails.
pub fn put_number<I: itoa::Integer>(text: &mut Vec<u8>, number: I) -> Result<(), AllocError>
    ensures { OnOk result (text.new.items ≡ text.old.items ++ I.text number) }
{
    text.extend_from_slice(Buffer::new().format(number).as_bytes())
}
