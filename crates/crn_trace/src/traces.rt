//! Traces: the steps of a schedule, and the state that they lead to.

ghost use Rattle.std.specs.Prelude.{◌≡◌, ◌<◌, ◌++◌, OnOk, IfOk, decimal};
ghost use Rattle.std.specs.List.{All};
ghost use Rattle.crn_proto.specs.Ring.{bit};
ghost use Rattle.crn_proto.specs.Machine.{IsActor, open_machine, machine_after, machine_answers};
ghost use Rattle.crn_trace.specs.Schedule.{actor_text};
ghost use Rattle.crn_trace.specs.Trace as spec;

use crn_proto::{Actor, Kind, Machine, Step};
use crn_spelling::decimal::put_number;
use crn_spelling::hex::hex_word;
use std::alloc::{AllocError, Global};

// Appends the actor as it stands in a schedule.
fn put_actor(text: &mut Vec<u8>, who: Actor) -> Result<(), AllocError>
    ensures { OnOk result (text.new.items ≡ text.old.items ++ actor_text who) }
{
    match who {
        Actor::Producer => text.extend_from_slice(b"p"),
        Actor::Finish => text.extend_from_slice(b"e"),
        Actor::Reader(r) => {
            text.push(b'r')?;
            put_number(text, r)
        }
        Actor::Leave(r) => {
            text.push(b'l')?;
            put_number(text, r)
        }
    }
}

fn kind_text(kind: Kind) -> &'static [u8]
    ensures { result.now ≡ spec.kind_text kind }
{
    match kind {
        Kind::P1 => b"P1",
        Kind::P2 => b"P2",
        Kind::P3 => b"P3",
        Kind::R1 => b"R1",
        Kind::R2 => b"R2",
        Kind::R3 => b"R3",
    }
}

fn put_answer(text: &mut Vec<u8>, answer: Option<Step>) -> Result<(), AllocError>
    ensures { OnOk result (text.new.items ≡ text.old.items ++ spec.answer_text answer) }
{
    match answer {
        Some(step) => {
            text.push(b' ')?;
            text.extend_from_slice(kind_text(step.kind))?;
            text.push(b' ')?;
            put_number(text, step.word)?;
            text.push(b' ')?;
            text.extend_from_slice(&hex_word(step.value))
        }
        None => text.extend_from_slice(b" - - -"),
    }
}

// Lets each actor take its next step, and appends a line for it.
fn put_steps(text: &mut Vec<u8>, machine: &mut Machine, actors: &[Actor]) -> Result<(), AllocError>
    requires actors { All (IsActor machine.old.spec) actors.now }
    ensures lines { OnOk result (text.new.items ≡ text.old.items ++ spec.step_lines actors.now (machine_answers machine.old actors.now)) }
    ensures state { OnOk result (machine.new ≡ machine_after machine.old actors.now) }
{
    for who in actors {
        let answer = machine.step(*who);
        put_actor(text, *who)?;
        put_answer(text, answer)?;
        text.push(b'\n')?;
    }
    Ok(())
}

// Appends a label and a number.
fn put_count(text: &mut Vec<u8>, label: &[u8], count: u64) -> Result<(), AllocError>
    ensures { OnOk result (text.new.items ≡ text.old.items ++ label.now ++ decimal count) }
{
    text.extend_from_slice(label)?;
    put_number(text, count)
}

// Appends a label, and 1 if the flag holds or else 0.
fn put_flag(text: &mut Vec<u8>, label: &[u8], flag: bool) -> Result<(), AllocError>
    ensures { OnOk result (text.new.items ≡ text.old.items ++ label.now ++ decimal (bit flag)) }
{
    put_count(text, label, u64::from(flag))
}

#[tactic(auto, unfolding(crate::specs::Trace::producer_line))]
fn put_producer(text: &mut Vec<u8>, machine: &Machine) -> Result<(), AllocError>
    ensures { OnOk result (text.new.items ≡ text.old.items ++ spec.producer_line machine.now) }
{
    put_count(text, b"published ", machine.published())?;
    put_flag(text, b" ended ", machine.ended())?;
    text.push(b'\n')?;
    Ok(())
}

#[tactic(auto, unfolding(crate::specs::Trace::reader_line))]
fn put_reader(text: &mut Vec<u8>, machine: &Machine, r: u32) -> Result<(), AllocError>
    requires { r < machine.now.spec.readers }
    ensures { OnOk result (text.new.items ≡ text.old.items ++ spec.reader_line machine.now r) }
{
    put_count(text, b"reader ", u64::from(r))?;
    put_count(text, b" taken ", machine.taken(r))?;
    put_flag(text, b" left ", machine.left(r))?;
    put_flag(text, b" ended ", machine.reader_ended(r))?;
    text.push(b'\n')?;
    Ok(())
}

fn put_readers(text: &mut Vec<u8>, machine: &Machine) -> Result<(), AllocError>
    ensures { OnOk result (text.new.items ≡ text.old.items ++ spec.reader_lines machine.now machine.now.spec.readers) }
{
    for r in 0..machine.spec().readers {
        put_reader(text, machine, r)?;
    }
    Ok(())
}

/// Returns the trace of a schedule, which lets the machine take its steps and uses it up: a line for each actor, with
/// the kind of its step, the number of the word, and the value that is loaded or stored in 16 hexadecimal digits, or
/// with three dashes where the actor has no step. Then a line has the number of the next block to publish and whether
/// the end mark is stored, and a line for each reader the number of the block that it takes next, whether it has left,
/// and whether it has seen the end mark, where 1 is for yes.
///
/// # Asks
///
/// The machine is as [`Machine::open`] gave it, and reader numbers are below its `readers`.
///
/// # Errors
///
/// `AllocError` if an allocation fails. The machine is used up then, too.
#[tactic(auto, unfolding(crate::specs::Trace::trace_text))]
pub fn trace_text(
    alloc: Global,
    mut machine: Machine,
    actors: &[Actor],
) -> Result<Vec<u8>, AllocError>
    requires opened { machine ≡ open_machine machine.spec }
    requires actors { All (IsActor machine.spec) actors.now }
    ensures { IfOk result (λ text. text.items ≡ spec.trace_text machine.spec actors.now) }
{
    let mut text = Vec::new(alloc);
    put_steps(&mut text, &mut machine, actors)?;
    put_producer(&mut text, &machine)?;
    put_readers(&mut text, &machine)?;
    Ok(text)
}
