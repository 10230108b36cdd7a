//! Jobs that are run by workers beside each other.

ghost use Rattle.std.specs.Prelude.{◌≡◌, ◌<◌, ◌≤◌, ◌+◌, ◌∷◌, ◌++◌, ℕ, [], All, length, slice_index_or, vec_len, vec_capacity};
ghost use Rattle.std.specs.Prelude.{IfOk, IfErr};
ghost use Rattle.std.specs.List.{AllByRecursion};
ghost use Rattle.crossbeam_queue.specs.Passes.{view, IsPassOf, ruled_capacity};
ghost use Rattle.nt_pool.specs.Rule.{hand, all_parts};
ghost use Rattle.nt_pool.specs.Done.{Works, IsSameWorker};
ghost use Rattle.nt_pool.specs.Pool.{AreNumbered, AreDone, IsWorker, IsRoomFor};

use crate::job::Job;
use crate::placing::in_order;
use crate::room::{Room, take_room};
use crate::rule::{Cuts, Line, LinePass, Puts, Takes};
use crate::work::{Answer, Worker, WorkerOf, work};
use std::alloc::{AllocError, Global};
use std::mem::ManuallyDrop;
use std::snapshot::Snapshot;
use std::sync::Wait;
use std::thread;
use std::thread::Threads;

/// Puts a job into the queue, which has room for it.
fn put_one<J: Job, R: Wait>(rt: &R, line: &Line<J>, pass: &mut LinePass<J>, job: J)
    requires pass { IsPassOf line.now pass.old × ((view pass.old).parts ≡ all_parts) × ((view pass.old).taken ≡ []) }
    requires room { length (view pass.old).put < ruled_capacity line.now }
    requires ready { J.ready job }
    ensures pass { IsPassOf line.now pass.new }
    ensures put { view pass.new ≡ hand (view pass.old).parts ((view pass.old).put ++ job ∷ []) [] }
{
    // it comes out again: the queue is empty in the end
    let job = unsafe { ManuallyDrop::new_unchecked(job) };
    match line.push_as::<Puts, R>(rt, pass, job) {
        Ok(()) => {}
        Err(_) => unreachable!(),
    }
}

/// Puts all jobs into the queue, in their order.
fn put_all<J: Job, R: Wait>(rt: &R, line: &Line<J>, pass: &mut LinePass<J>, jobs: Vec<J>)
    requires pass { IsPassOf line.now pass.old × (view pass.old ≡ hand all_parts [] []) }
    requires room { vec_len jobs ≤ ruled_capacity line.now }
    requires ready { AllByRecursion J.ready jobs.items }
    ensures pass { IsPassOf line.now pass.new }
    ensures put { view pass.new ≡ hand all_parts jobs.items [] }
{
    let mut jobs = jobs;
    while !jobs.is_empty() {
        let job = jobs.remove(0);
        put_one(rt, line, pass, job);
    }
    jobs.destroy_empty();
}

/// Makes a worker of each list of answers, with a pass of its own.
fn seat_all<J: Job>(
    line: &Line<J>,
    pass: &mut LinePass<J>,
    lists: Vec<Vec<Answer<J::Done>>>,
    seats: &mut Vec<WorkerOf<J>>,
)
    requires pass { IsPassOf line.now pass.old × ((view pass.old).parts ≡ all_parts) × ((view pass.old).taken ≡ []) }
    requires lists { AllByRecursion (IsRoomFor (view pass.old).put) lists.items × (vec_len lists < all_parts) }
    requires seats { (seats.old.items ≡ []) × (vec_len lists ≤ vec_capacity seats.old) }
    ensures pass { IsPassOf line.now pass.new × ((view pass.new).put ≡ (view pass.old).put) × ((view pass.new).taken ≡ [])
        × ((view pass.new).parts + vec_len seats.new ≡ all_parts) }
    ensures seats { AllByRecursion (IsWorker J.does J.number line.now (view pass.old).put) seats.new.items
        × (vec_len seats.new ≡ vec_len lists) }
{
    let mut lists = lists;
    while !lists.is_empty() {
        let answers = lists.remove(0);
        let pass = line.another::<Cuts>(pass);
        seats.push_reserved(Worker { pass, answers });
    }
    lists.destroy_empty();
}

/// Runs the workers beside each other.
fn run_all<R: Threads + Wait + Sync, J: Job + Send>(
    rt: &R,
    line: &Line<J>,
    seats: &mut Vec<WorkerOf<J>>,
)
where
    J::Done: Send,
    requires some { 0 < vec_len seats.old }
    requires works { All (Works J.number J.does line.now) seats.old.items }
    ensures count { vec_len seats.new ≡ vec_len seats.old }
    ensures works { (i : ℕ) (d : _) → i < vec_len seats.old → Works J.number J.does line.now (slice_index_or seats.new.items i d)
        × IsSameWorker (slice_index_or seats.old.items i d) (slice_index_or seats.new.items i d) }
{
    let threads = seats.len();
    thread::for_each_mut(
        rt,
        seats.as_mut_slice(),
        threads,
        &|_, seat| work(rt, line, seat),
    );
}

/// Takes in a worker.
fn join_one<J: Job>(line: &Line<J>, own: &mut WorkerOf<J>, other: WorkerOf<J>)
    requires own { Works J.number J.does line.now own.old }
    requires other { Works J.number J.does line.now other }
    ensures own { Works J.number J.does line.now own.new }
    ensures parts { (view own.new.pass).parts ≡ (view own.old.pass).parts + (view other.pass).parts }
    ensures put { (view own.new.pass).put ≡ (view own.old.pass).put }
{
    let Worker { pass, mut answers } = other;
    line.absorb::<Cuts>(&mut own.pass, pass);
    line.learn_as::<Takes<J>>(&mut own.pass);
    let put = own.answers.append(&mut answers);
    let Ok(()) = put else { unreachable!() };
    answers.destroy_empty();
}

/// Takes in all workers.
fn join_all<J: Job>(line: &Line<J>, own: &mut WorkerOf<J>, seats: Vec<WorkerOf<J>>)
    requires own { Works J.number J.does line.now own.old }
    requires seats { AllByRecursion (IsWorker J.does J.number line.now (view own.old.pass).put) seats.items }
    ensures own { Works J.number J.does line.now own.new }
    ensures parts { (view own.new.pass).parts ≡ (view own.old.pass).parts + vec_len seats }
    ensures put { (view own.new.pass).put ≡ (view own.old.pass).put }
{
    let mut seats = seats;
    while !seats.is_empty() {
        let seat = seats.remove(0);
        join_one(line, own, seat);
    }
    seats.destroy_empty();
}

/// Runs each job once, by so many workers, from 1 to 64, beside each other. The answers stand in the order of the jobs. The i-th job has
/// the number i, from 0.
///
/// # Errors
///
/// Where memory is short, all jobs come back in their order, and none was run.
pub fn run_pool<R: Threads + Wait + Sync, J: Job + Send>(
    rt: &R,
    alloc: Global,
    jobs: Vec<J>,
    workers: u32,
) -> Result<Vec<J::Done>, (Vec<J>, AllocError)>
where
    J::Done: Send,
    requires workers { (0 < workers) × (workers ≤ 64) }
    requires numbered { AreNumbered J.number jobs.items }
    requires ready { AllByRecursion J.ready jobs.items }
    ensures ok { IfOk result (λ done. AreDone J.does jobs.items done.items) }
    ensures err { IfErr result (λ e. e.0.items ≡ jobs.items) }
{
    let room = match take_room::<J>(alloc, workers as usize, jobs.len()) {
        Ok(room) => room,
        Err(error) => return Err((jobs, error)),
    };
    let Room {
        line,
        mut pass,
        lists,
        own,
        mut seats,
        done,
    } = room;
    let all = Snapshot::of(&jobs);
    put_all(rt, &line, &mut pass, jobs);
    seat_all(&line, &mut pass, lists, &mut seats);
    run_all(rt, &line, &mut seats);
    let mut own = Worker { pass, answers: own };
    join_all(&line, &mut own, seats);
    work(rt, &line, &mut own);
    let Worker {
        pass: _pass,
        answers,
    } = own;
    Ok(in_order(all, answers, done))
}
