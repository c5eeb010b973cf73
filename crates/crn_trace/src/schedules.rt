//! Reads schedules.

ghost use Rattle.std.specs.Prelude.{◌≡◌, ◌⊎◌, ℕ, ◌<◌, ◌^◌, Some, IfOk, IfErr, IfSome, decimal, true, length, alloc_error};
ghost use Rattle.crn_proto.specs.declared.schedule.Actor.{Actor};
ghost use Rattle.crn_trace.specs.Schedule as spec;
ghost use Rattle.crn_trace.specs.Inner.Schedule.{IsCut};

use crate::schedule_fault::ScheduleFault;
use crn_proto::Actor;
use crn_spelling::decimal::number_of_text;
use std::alloc::{AllocError, Global};

// Returns the first line without its line feed, and the text after it.
fn cut_line<'a>(text: &'a [u8]) -> (&'a [u8], &'a [u8])
    ensures cut { IsCut text.now result.0.now result.1.now }
    ensures shorter { 0 < length text.now → length result.1.now < length text.now }
{
    for i in 0..text.len() {
        if text[i] == b'\n' {
            return (&text[..i], &text[i + 1..]);
        }
    }
    (text, &text[text.len()..])
}

// Returns a reader's number, of 32 bits, from its text.
fn reader_of(text: &str) -> Option<u32>
    ensures spelt { IfSome result (λ r. text.now ≡ decimal r) }
    ensures every { (r : ℕ) → r < 2 ^ 32 → text.now ≡ decimal r → result ≡ Some r }
{
    match number_of_text(text) {
        Some(number) => match u32::try_from(number) {
            Ok(reader) => Some(reader),
            Err(_) => None,
        },
        None => None,
    }
}

// Returns a reader's number from the bytes of its text.
fn reader_number(digits: &[u8]) -> Option<u32>
    ensures spelt { IfSome result (λ r. digits.now ≡ decimal r) }
    ensures every { (r : ℕ) → r < 2 ^ 32 → digits.now ≡ decimal r → result ≡ Some r }
{
    match std::str::from_utf8(digits) {
        Ok(text) => reader_of(text),
        Err(_) => None,
    }
}

// Returns the actor of a line.
fn actor_of(line: &[u8]) -> Option<Actor>
    ensures spelt { IfSome result (λ who. (line.now ≡ spec.actor_text who) × (spec.is_below (2 ^ 32) who ≡ true)) }
    ensures every { (who : Actor) → spec.is_below (2 ^ 32) who ≡ true → line.now ≡ spec.actor_text who → result ≡ Some who }
{
    match line {
        [b'p'] => Some(Actor::Producer),
        [b'e'] => Some(Actor::Finish),
        [b'r', digits @ ..] => match reader_number(digits) {
            Some(r) => Some(Actor::Reader(r)),
            None => None,
        },
        [b'l', digits @ ..] => match reader_number(digits) {
            Some(r) => Some(Actor::Leave(r)),
            None => None,
        },
        _ => None,
    }
}

// Reads the actors of all lines, with any numbers of readers.
fn read_lines(alloc: Global, bytes: &[u8]) -> Result<Vec<Actor>, ScheduleFault>
    ensures schedule { IfOk result (λ actors. spec.IsScheduleOf bytes.now actors.items) }
    ensures refuses { IfErr result (λ f. (f ≡ ScheduleFault.Memory alloc_error) ⊎ ((f ≡ ScheduleFault.Line) × spec.HasNoSchedule bytes.now)) }
{
    let mut actors = Vec::new(alloc);
    let mut rest = bytes;
    while !rest.is_empty() {
        let (line, after) = cut_line(rest);
        match actor_of(line) {
            Some(who) => actors.push(who).map_err(AllocError::from)?,
            None => return Err(ScheduleFault::Line),
        }
        rest = after;
    }
    Ok(actors)
}

fn is_below(readers: u32, who: Actor) -> bool
    ensures { result ≡ spec.is_below readers who }
{
    match who {
        Actor::Producer | Actor::Finish => true,
        Actor::Reader(r) | Actor::Leave(r) => r < readers,
    }
}

fn are_below(readers: u32, actors: &[Actor]) -> bool
    ensures { result ≡ spec.are_below readers actors.now }
{
    for who in actors {
        if !is_below(readers, *who) {
            return false;
        }
    }
    true
}

/// Returns the schedule of a text, for a ring of so many readers: a line for each actor, ended by a line feed, which
/// the last line may lack. `p` is the producer, `e` the producer as it ends the stream, `r` with a number that reader
/// and `l` with a number that reader as it leaves. A number is in decimal, without a sign or leading zeros. The empty
/// text is the empty schedule. A text has one schedule at most.
///
/// # Errors
///
/// - `Line` if a line is none of these, or a number is over 4,294,967,295. It comes before `Reader`, wherever
///   the lines stand.
/// - `Reader` if a reader's number is not below `readers`.
/// - `Memory` if an allocation fails.
pub fn read_schedule(alloc: Global, readers: u32, bytes: &[u8]) -> Result<Vec<Actor>, ScheduleFault>
    ensures schedule { IfOk result (λ actors. spec.IsScheduleOf bytes.now actors.items) }
    ensures known { IfOk result (λ actors. spec.are_below readers actors.items ≡ true) }
    ensures refuses { IfErr result (λ f. spec.RefusesSchedule readers f bytes.now) }
{
    let actors = read_lines(alloc, bytes)?;
    if !are_below(readers, actors.as_slice()) {
        return Err(ScheduleFault::Reader);
    }
    Ok(actors)
}
