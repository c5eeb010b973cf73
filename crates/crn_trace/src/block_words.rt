//! The text of a block's words.

ghost use Rattle.std.specs.Prelude.{◌≡◌, ◌++◌, IfOk, OnOk};
ghost use Rattle.crn_trace.specs.BlockWords as spec;

use crn_cipher::{Block, STREAMS, Stream, block};
use crn_spelling::hex::hex_word;
use std::alloc::{AllocError, Global};

// Appends each word in hexadecimal, with a space before it.
fn put_words(text: &mut Vec<u8>, words: &[u64]) -> Result<(), AllocError>
    ensures { OnOk result (text.new.items ≡ text.old.items ++ spec.spaced words.now) }
{
    for word in words {
        text.push(b' ')?;
        text.extend_from_slice(&hex_word(*word))?;
    }
    Ok(())
}

// Appends the line of a stream.
fn put_line(text: &mut Vec<u8>, block: &Block, stream: Stream) -> Result<(), AllocError>
    ensures { OnOk result (text.new.items ≡ text.old.items ++ spec.stream_line block.now.key block.now.number stream) }
{
    text.extend_from_slice(stream.name().as_bytes())?;
    put_words(text, block.words(stream))?;
    text.push(b'\n')?;
    Ok(())
}

/// Returns the words of block `n` of the stream of `key`, a line for each stream: its name (`demand`, `lead` or
/// `returns`) and its four words, each in 16 hexadecimal digits. With them the stream can be compared with Random123.
///
/// # Errors
///
/// `AllocError` if an allocation fails.
#[tactic(auto, unfolding(crate::specs::BlockWords::words_text))]
pub fn words_text(alloc: Global, key: [u64; 4], n: u64) -> Result<Vec<u8>, AllocError>
    ensures { IfOk result (λ text. text.items ≡ spec.words_text key n) }
{
    let block = block(key, n);
    let mut text = Vec::new(alloc);
    for stream in &STREAMS {
        put_line(&mut text, &block, *stream)?;
    }
    Ok(text)
}
