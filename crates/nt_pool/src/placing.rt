//! Answers in the order of their jobs.

ghost use Rattle.std.specs.Prelude.{◌≡◌, ◌<◌, ◌≤◌, length, vec_len, vec_capacity, []};
ghost use Rattle.nt_pool.specs.Placing.{answers_of, Removes};
ghost use Rattle.nt_pool.specs.Pool.{AreNumbered, AreDone, AreAll};

use crate::job::Job;
use crate::work::Answer;
use std::snapshot::Snapshot;

/// Takes out the answer of this number.
fn take_number<D>(left: &mut Vec<Answer<D>>, number: usize) -> D
    requires { 0 < answers_of number left.old.items }
    ensures { Removes number left.old.items left.new.items result }
{
    let mut at = 0;
    while at < left.len() {
        if left[at].number as usize == number {
            let Answer { number: _, done } = left.remove(at);
            return done;
        }
        at += 1;
    }
    unreachable!()
}

/// Puts the answers of all jobs in the order of the jobs.
pub fn in_order<J: Job>(
    jobs: Snapshot<Vec<J>>,
    answers: Vec<Answer<J::Done>>,
    room: Vec<J::Done>,
) -> Vec<J::Done>
    requires numbered { AreNumbered J.number jobs.value.items }
    requires all { AreAll J.does J.number jobs.value.items answers.items }
    requires room { (room.items ≡ []) × (vec_len answers ≤ vec_capacity room) }
    ensures { AreDone J.does jobs.value.items result.items }
{
    let mut answers = answers;
    let mut done = room;
    let count = answers.len();
    for number in 0..count {
        let one = take_number(&mut answers, number);
        done.push_reserved(one);
    }
    answers.destroy_empty();
    done
}
