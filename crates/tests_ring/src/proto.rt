//! What only calls of the machine show: why a ring is refused, and a block of another key than zero, whose words are
//! Random123's. Schedules are replayed by the program: tests/program/replays.toml.

ghost use Rattle.std.specs.Prelude.{◌≡◌};
ghost use Rattle.std.specs.List.{All};
ghost use Rattle.crn_proto.specs.Machine.{IsActor};

use crate::rings::ring_of;
use crn_cipher::{BLOCK_WORDS, StreamId};
use crn_proto::{Actor, Kind, Machine, RingFault, RingSpec, Step, replay};
use std::alloc::Global;
use std::test::Fail;
use tests_model::words::ONES_BLOCK;

// The steps of the producer before it publishes a block for one reader: a load of the reader's cursor and the words.
const WORD_STEPS: usize = BLOCK_WORDS + 1;

// One slot, one reader and one block of the key of all ones.
fn block_of_ones() -> RingSpec
    ensures readers { result.readers ≡ 1 }
    ensures size { result.size ≡ 1 }
{
    ring_of([u64::MAX; 4], 1, 1, 1)
}

// The answers of a ring's machine to a schedule.
fn answers(alloc: Global, spec: RingSpec, actors: &[Actor]) -> Result<Vec<Option<Step>>, RingFault>
    requires { All (IsActor spec) actors.now }
{
    let mut machine = Machine::open(alloc, spec)?;
    Ok(replay(alloc, &mut machine, actors)?)
}

// Whether the answers from the second on are stores of these words in slot 0 of a ring with one reader.
fn are_stores(answers: &[Option<Step>], words: &[u64]) -> bool {
    for (i, value) in words.iter().enumerate() {
        let stored = Some(Step {
            kind: Kind::P2,
            word: (i as u64).wrapping_add(2),
            value: *value,
        });
        if answers.get(i.wrapping_add(1)) != Some(&stored) {
            return false;
        }
    }
    true
}

#[test]
fn all_words_of_a_block_are_stored_in_order(rt: HostRuntime) -> Result<(), Fail> {
    let stores = answers(rt.alloc(), block_of_ones(), &[Actor::Producer; WORD_STEPS])?;
    assert!(rt; are_stores(stores.as_slice(), &ONES_BLOCK));
    Ok(())
}

// The ring of a machine as it is opened.
fn opened(alloc: Global, spec: RingSpec) -> Result<RingSpec, RingFault> {
    let machine = Machine::open(alloc, spec)?;
    Ok(machine.spec())
}

// Size, readers, first block and total, and the fault that rejects the ring.
static REFUSALS: [(u64, u32, u64, u64, RingFault); 11] = [
    (0, 1, 0, 1, RingFault::Size),
    (3, 1, 0, 1, RingFault::Size),
    (2_048, 1, 0, 1, RingFault::Size),
    (1, 0, 0, 1, RingFault::Readers),
    (2, 17, 0, 1, RingFault::Readers),
    (2, 1, 0, 65_537, RingFault::Stream),
    (2, 1, 2, 1, RingFault::Stream),
    (2, 1, u64::MAX, u64::MAX, RingFault::Stream),
    (3, 17, 2, 1, RingFault::Size),
    (3, 1, 2, 1, RingFault::Size),
    (2, 0, 0, 65_537, RingFault::Readers),
];

#[test]
fn refused_rings(rt: HostRuntime) {
    for (size, readers, first, total, fault) in &REFUSALS {
        let id = StreamId {
            key: [0; 4],
            first: *first,
            total: *total,
        };
        let spec = RingSpec {
            size: *size,
            readers: *readers,
            id,
        };
        assert_eq!(rt; opened(rt.alloc(), spec), Err(*fault));
    }
}
