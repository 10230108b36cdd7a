//! What a job is.

ghost use Rattle.std.specs.Prelude.{◌≡◌, ℕ};

use std::sync::Wait;

/// Work that is done once. It has a number, which is its place among the jobs that are run together.
pub trait Job {
    /// What it ends with.
    type Done;

    /// The number of the job, from 0.
    ghost number: { Self → ℕ };

    /// The job can be run.
    ghost ready: { Self → Type 0 };

    /// This is what the job may end with.
    ghost does: { Self → Self.Done → Type 0 };

    /// The number of the job.
    fn number(&self) -> u32
        ensures { result ≡ number self.now };

    /// Does the work, to its end. It may wait, but for no job that may still be in the queue: with one worker that would never be taken.
    fn run<R: Wait>(self, rt: &R) -> Self::Done
        requires { ready self }
        ensures { does self result };
}
