//! More jobs than workers: each job is run once, by one of so many workers, and the answers stand in the order of the jobs.
//!
//! Start at `run_pool` in `pool.rt`; a job is a `Job` (`job.rt`). All memory is taken first (`room.rt`). All jobs are put into one queue,
//! from which each worker takes one after the other and runs it to its end (`work.rt`). The caller takes in the workers, looks once
//! more for a job that is left, and puts the answers into the order of the jobs (`placing.rt`). `rule.rt` is the rule of the queue, a
//! `RuledArrayQueue` of crossbeam_queue.
//!
//! Words: a job is *put* when it goes into the queue, it *waits* there, and a worker *takes* it; its *answer* is what it ended with,
//! beside its number; a pass of the queue has *parts* of the right to know what was put: 65 in all, one for each of 64 workers and one
//! for the caller. Jobs are *weighed* to count them: whatever weights they have, what was taken and what waits weighs what was put.
//!
//! Proved of `run_pool`, whatever the schedule: after `Ok` there is one answer for each job, and the one at the place of a job is one
//! that this job may end with (`AreDone` in `specs/Pool.antt`). Where memory is short all jobs come back in their order, and none was
//! run; all memory is taken before a job is put, so that nothing is refused afterwards. Jobs and answers need no `Drop`: none is let
//! go. The rule of the queue (`AreSharedOut` in `specs/Rule.antt`) says in every schedule that the jobs which were taken and those
//! that wait are those that were put, each once.
//!
//! Neither proved nor promised: how many workers run at the same time. Where no thread can be made, the caller runs the workers.
#![tactic(auto)]

mod job;
mod placing;
mod pool;
mod room;
mod rule;
mod work;

pub use job::Job;
pub use pool::run_pool;
