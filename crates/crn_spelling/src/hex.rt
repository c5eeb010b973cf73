//! Hexadecimal words.

ghost use Rattle.std.specs.Prelude.{◌≡◌, ◌<◌, false};
ghost use Rattle.std.specs.Fmt.{digit_glyph};
ghost use Rattle.crn_spelling.specs.Hex as spec;

fn is_hex_digit(byte: u8) -> bool
    ensures { result ≡ spec.is_hex_digit byte }
{
    matches!(byte, b'0'..=b'9' | b'a'..=b'f')
}

fn are_hex_digits(bytes: &[u8]) -> bool
    ensures { result ≡ spec.are_hex_digits bytes.now }
{
    for byte in bytes {
        if !is_hex_digit(*byte) {
            return false;
        }
    }
    true
}

/// Returns whether a text is 16 digits of 0-9a-f.
#[tactic(auto, unfolding(crate::specs::Hex::is_hex_word))]
pub fn is_hex_word(text: &str) -> bool
    ensures { result ≡ spec.is_hex_word text.now }
{
    text.len() == 16 && are_hex_digits(text.as_bytes())
}

/// Returns the number that a hexadecimal word spells, and 0 for any other text.
pub fn word_of(text: &str) -> u64
    ensures { result ≡ spec.word_of text.now }
{
    if !is_hex_word(text) {
        return 0;
    }
    match u64::from_str_radix(text, 16) {
        Ok(word) => word,
        Err(_) => unreachable!(),
    }
}

fn glyph(digit: u64) -> u8
    requires { digit < 16 }
    ensures { result ≡ digit_glyph false digit }
{
    if digit < 10 {
        b'0' + digit as u8
    } else {
        b'a' - 10 + digit as u8
    }
}

/// Returns the hexadecimal word that spells a number.
pub fn hex_word(word: u64) -> [u8; 16]
    ensures { result ≡ spec.hex_word word }
{
    let mut text = [b'0'; 16];
    let mut rest = word;
    for i in 0..16usize {
        text[15 - i] = glyph(rest % 16);
        rest /= 16;
    }
    text
}
