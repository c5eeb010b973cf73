//! The kinds of step, and what each shows its seat. No value of these types is made: they are used only in contracts and
//! proofs.
ghost use Rattle.crn_steps.specs.Plays.{loaded_gate, stored_word, published_some, stored_end, loaded_cursor, loaded_word, stored_taken, stored_left, cut_left, cut_right};

use crate::view::View;
use atomic_table::{Play, Split};

/// A load of a reader's cursor, by the producer.
pub(crate) struct LoadsGate;

impl Play<(), View> for LoadsGate {
    ghost then = { loaded_gate };
}

/// A store of a word of a slot, by the producer.
pub(crate) struct StoresWord;

impl Play<(), View> for StoresWord {
    ghost then = { stored_word };
}

/// A store of the ring cursor, by the producer, which publishes the blocks that it has stored.
pub(crate) struct Publishes;

impl Play<(), View> for Publishes {
    ghost then = { published_some };
}

/// A store of the ring cursor with the end mark, by the producer.
pub(crate) struct StoresEnd;

impl Play<(), View> for StoresEnd {
    ghost then = { stored_end };
}

/// A load of the ring cursor, by a reader.
pub(crate) struct LoadsCursor;

impl Play<(), View> for LoadsCursor {
    ghost then = { loaded_cursor };
}

/// A load of a word of a slot, by a reader.
pub(crate) struct LoadsWord;

impl Play<(), View> for LoadsWord {
    ghost then = { loaded_word };
}

/// A store of a reader's cursor, which takes the blocks that it has read.
pub(crate) struct StoresTaken;

impl Play<(), View> for StoresTaken {
    ghost then = { stored_taken };
}

/// A store of the mark of a reader that has left, in its cursor.
pub(crate) struct StoresLeft;

impl Play<(), View> for StoresLeft {
    ghost then = { stored_left };
}

/// The cut of a reader's seat off the first seat while the ring is being opened. It changes no word and no part.
pub(crate) struct CutsReader;

impl Split<View> for CutsReader {
    ghost left = { cut_left };

    ghost right = { cut_right };
}
