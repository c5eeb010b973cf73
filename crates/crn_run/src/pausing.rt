//! The pauses between two looks at a ring. Nothing is claimed of how long one takes, nor that it ends.
ghost use Rattle.std.specs.Prelude.{◌≡◌};
ghost use Rattle.crn_run.specs.declared.pausing.Pause.TheVariants.{Spin, Yield, Sleep};

use crossbeam_utils::Backoff;
use std::hint;
use std::sync::Wait;
use std::thread::Parker;
use std::time::Duration;

/// What a thread does before its next look at the ring. It can be made once.
#[derive(Drop)]
pub(crate) enum Pause {
    /// Keeps its processor busy, for so many hints that it spins.
    Spin(u32),
    /// Lets another thread have its processor.
    Yield,
    /// Sleeps for this time.
    Sleep(Duration),
}

/// A pause that was made. Its field is private, so only the functions of [`Pauses`] return one, each for the pause that it has
/// just made.
#[derive(Drop)]
pub(crate) struct Paused {
    pause: Pause,
}

/// What makes the pauses of one thread.
#[derive(Drop)]
pub(crate) struct Pauses {
    // It is never reset, so that all but its first seven snoozes yield.
    yielding: Backoff,
    // Nobody wakes it, so that its sleep is over when the time is.
    sleeper: Parker,
}

impl Pauses {
    /// Returns what makes the pauses of a thread that has not paused yet.
    pub(crate) fn new() -> Pauses {
        Pauses {
            yielding: Backoff::new(),
            sleeper: Parker::new(),
        }
    }

    /// Makes a pause.
    pub(crate) fn make<R: Wait>(&self, rt: &R, pause: Pause) -> Paused
        ensures { result.pause ≡ pause }
    {
        match pause {
            Pause::Spin(hints) => self.spin(hints),
            Pause::Yield => self.give_way(),
            Pause::Sleep(time) => self.sleep(rt, time),
        }
    }

    // Spins for so many hints, and counts them.
    fn spin(&self, hints: u32) -> Paused
        ensures { result.pause ≡ Spin hints }
    {
        let mut made = 0;
        while made < hints {
            hint::spin_loop();
            made += 1;
        }
        Paused {
            pause: Pause::Spin(made),
        }
    }

    // Yields.
    fn give_way(&self) -> Paused
        ensures { result.pause ≡ Yield }
    {
        self.yielding.snooze();
        Paused {
            pause: Pause::Yield,
        }
    }

    // Sleeps for this time.
    fn sleep<R: Wait>(&self, rt: &R, time: Duration) -> Paused
        ensures { result.pause ≡ Sleep time }
    {
        self.sleeper.park_timeout(rt, time);
        Paused {
            pause: Pause::Sleep(time),
        }
    }
}
