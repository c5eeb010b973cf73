//! Laws of the ring. The functions compute nothing: their contracts are the laws.

ghost use Rattle.crn_proto.specs.Laws.{EveryRunShowsABroadcast, EveryRunIsLawful, NoUnreadSlotIsWritten, WhatIsTakenWasRead, NothingFollowsTheEnd};
ghost use Rattle.crn_proto.specs.Traces.{EveryReplayIsARun};
ghost use Rattle.crn_proto.specs.Progress.{NeverStuck, StoresAreBounded, ProgressIsBounded, EndsByRounds};
ghost use Rattle.crn_proto.specs.Batches.{CanGoOn, BatchesNeverStick, BatchesEndByRounds};

/// States what holds under every schedule of single loads and stores, with batches of every length and with gates
/// remembered from any earlier load. The ring shows a broadcast list, and its words and all parts are lawful. No slot is
/// written that a reader may still take. A reader that takes has read the very items that it takes. Nothing follows the
/// end mark.
pub fn every_schedule()
    ensures shows_a_broadcast { EveryRunShowsABroadcast }
    ensures lawful { EveryRunIsLawful }
    ensures no_unread_slot_is_written { NoUnreadSlotIsWritten }
    ensures what_is_taken_was_read { WhatIsTakenWasRead }
    ensures nothing_follows_the_end { NothingFollowsTheEnd }
{}

/// States that whatever actors take turns, the steps that a machine returns are a run of the ring, and the machine shows
/// the state that this run leads to.
pub fn every_replay()
    ensures { EveryReplayIsARun }
{}

/// States that a machine's ring cannot stick, and when it ends, whatever actors take turns. A turn is progress if it
/// stores a word of the ring, or if a reader sees the end mark by it.
///
/// As long as not all have finished, some actor makes progress in its next turns: the producer in `readers + 1`, a reader
/// in `BLOCK_WORDS + 2`. With n blocks to publish a run has at most `(BLOCK_WORDS + 1) * n + 1 + readers * (n + 1)`
/// stores, with batches of every length. In a round each actor that has not finished has its turns, in any order: the
/// producer `readers + BLOCK_WORDS + 1`, a reader `BLOCK_WORDS + 2`. After n + 2 rounds the end is marked, and each reader
/// has seen it or has left. On one slot there is one more between two blocks.
pub fn progress()
    ensures never_stuck { NeverStuck }
    ensures stores_are_bounded { StoresAreBounded }
    ensures progress_is_bounded { ProgressIsBounded }
    ensures ends_by_rounds { EndsByRounds }
{}

/// States the same of runs with batches, in which actors go on: between two batches the producer loads each reader's cursor
/// in turn, or none if the counts that it remembers let the next block in; a reader that has seen a block looks again only
/// once it has taken. Batches have at most b blocks, each as many as its actor chooses, and remembered counts may be old.
///
/// Each actor that has not finished can always make such a move. As long as not all have finished, some actor stores a word
/// or finishes in its next moves: the producer in `readers + 1`, a reader in `BLOCK_WORDS * b + 2`. In a round each actor
/// that has not finished makes its moves, in any order: the producer `readers + BLOCK_WORDS * b + 1`, a reader
/// `BLOCK_WORDS * b + 2`. After n + 2 rounds with n blocks to publish, or 2n + 1 on one slot, the end is marked, and each
/// reader has seen it or has left.
pub fn progress_in_batches()
    ensures can_go_on { CanGoOn }
    ensures never_stick { BatchesNeverStick }
    ensures end_by_rounds { BatchesEndByRounds }
{}
