//! Laws of the running ring. The functions compute nothing: their contracts are the laws.

ghost use Rattle.crn_steps.specs.Schedules.{OpensAsTheOpenRing, StepsAreARun, AllowedStepsAreMade, StepsGoOn, BatchesAreBounded};

/// States that the running ring is a run of the ring of `crn_proto`.
///
/// Take the loads and stores that a ring's table has made since it was opened, by any seats, in the order in which they
/// fell. Each is the move of its kind, and together they are a run that leads to the words and parts of the table. So all
/// that [`every_schedule`](crn_proto::laws::every_schedule) says of runs holds for the running ring. Also, the rule holds
/// when a ring is opened, and lets its table open with the words of the open ring alone. If the rule holds, each step or
/// cut that the table allows can be made.
///
/// The moves are those of actors that go on, and so are the moves that the table makes later, with b the largest batch. So
/// all that [`progress_in_batches`](crn_proto::laws::progress_in_batches) says holds for the running ring too. No batch has
/// more blocks than the stream. That the system gives each thread its turns is not claimed.
///
/// A table makes its steps one at a time, and only those that its rule allows. That is a claim of `atomic_table`, and
/// trusted here.
pub fn steps_are_a_run()
    ensures opens { OpensAsTheOpenRing }
    ensures allowed { AllowedStepsAreMade }
    ensures run { StepsAreARun }
    ensures go_on { StepsGoOn }
    ensures bounded { BatchesAreBounded }
{}
