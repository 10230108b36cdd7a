//! The rule of the queue from which the workers take their jobs.

ghost use Rattle.std.specs.Prelude.{◌≡◌, ℕ, []};

use crate::job::Job;
use crossbeam_queue::protocol::{Join, Lesson, Outcome, Protocol, Split};
use crossbeam_queue::{Pass, RuledArrayQueue};
use std::collections::LinkedList;
use std::marker::PhantomData;
use std::mem::ManuallyDrop;

/// What a pass knows: its parts of the right to know the whole, the jobs that were put, and those that it took. No value of it is made.
pub struct Hand<J> {
    pub parts: u64,
    pub put: LinkedList<J>,
    pub taken: LinkedList<J>,
}

/// The rule: the jobs that were taken and those that wait are those that were put.
pub struct Shares<J> {
    job: PhantomData<J>,
}

impl<J: Job> Protocol<ManuallyDrop<J>, Hand<J>> for Shares<J> {
    ghost use Rattle.std.specs.Prelude.{[]};
    ghost use Rattle.nt_pool.specs.Rule.{hand, AreSharedOut, all_parts};

    ghost holds = { AreSharedOut J.ready };

    ghost first = { hand all_parts [] [] };
}

/// A job that is put.
pub struct Puts;

impl<J> Outcome<ManuallyDrop<J>, Hand<J>> for Puts {
    ghost use Rattle.nt_pool.specs.Rule.{PutsOne};

    ghost then = { PutsOne };
}

/// While all parts are in one hand, no fewer jobs wait than were put, less those that were taken.
impl<J> Lesson<ManuallyDrop<J>, Hand<J>> for Puts {
    ghost use Rattle.nt_pool.specs.Rule.{LearnsAll};

    ghost fact = { LearnsAll };
}

/// A job that is taken.
pub struct Takes<J> {
    job: PhantomData<J>,
}

impl<J: Job> Outcome<ManuallyDrop<J>, Hand<J>> for Takes<J> {
    ghost use Rattle.nt_pool.specs.Rule.{TakesOne};

    ghost then = { TakesOne J.ready };
}

impl<J: Job> Lesson<ManuallyDrop<J>, Hand<J>> for Takes<J> {
    ghost use Rattle.nt_pool.specs.Rule.{LearnsAll};

    ghost fact = { LearnsAll };
}

/// How a pass is cut off another, and comes back.
pub struct Cuts;

impl<J> Split<Hand<J>> for Cuts {
    ghost use Rattle.std.specs.Prelude.{◌-◌, []};
    ghost use Rattle.nt_pool.specs.Rule.{hand};

    ghost left = { λ v. hand (v.parts - 1) v.put v.taken };

    ghost right = { λ v. hand 1 v.put [] };
}

impl<J> Join<Hand<J>> for Cuts {
    ghost use Rattle.std.specs.Prelude.{◌+◌, ◌++◌, []};
    ghost use Rattle.nt_pool.specs.Rule.{hand};

    ghost both = { λ v w. hand (v.parts + w.parts) v.put (v.taken ++ w.taken) };

    ghost spent = { hand 0 [] [] };
}

pub type Line<J> = RuledArrayQueue<ManuallyDrop<J>, Hand<J>, Shares<J>>;

pub type LinePass<J> = Pass<ManuallyDrop<J>, Hand<J>>;
