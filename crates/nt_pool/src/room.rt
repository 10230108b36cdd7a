//! The memory that workers need, before any of them starts.

ghost use Rattle.std.specs.Prelude.{◌≡◌, ◌≤◌, [], vec_len, vec_capacity, IfOk};
ghost use Rattle.std.specs.List.{AllByRecursion};
ghost use Rattle.nt_pool.specs.Pool.{IsRoomOf, IsEmptyList, IsRoom};

use crate::job::Job;
use crate::rule::{Line, LinePass};
use crate::work::{Answer, WorkerOf};
use std::alloc::{AllocError, Global};

/// What is taken before any job is put.
pub(crate) struct Room<L, P, W, D> {
    pub(crate) line: L,
    pub(crate) pass: P,
    pub(crate) lists: Vec<Vec<Answer<D>>>,
    pub(crate) own: Vec<Answer<D>>,
    pub(crate) seats: Vec<W>,
    pub(crate) done: Vec<D>,
}

pub(crate) type RoomOf<J> = Room<Line<J>, LinePass<J>, WorkerOf<J>, <J as Job>::Done>;

/// Gives back lists without answers.
fn free<D>(lists: Vec<Vec<Answer<D>>>)
    requires { AllByRecursion IsEmptyList lists.items }
{
    let mut lists = lists;
    while !lists.is_empty() {
        let list = lists.remove(0);
        list.destroy_empty();
    }
    lists.destroy_empty();
}

/// So many lists, each with room for so many answers.
fn take_lists<D>(
    alloc: Global,
    workers: usize,
    count: usize,
) -> Result<Vec<Vec<Answer<D>>>, AllocError>
    ensures { IfOk result (λ lists. (vec_len lists ≡ workers) × AllByRecursion (IsRoomOf count) lists.items) }
{
    let mut lists = Vec::with_capacity(alloc, workers)?;
    while lists.len() < workers {
        match Vec::with_capacity(alloc, count) {
            Ok(list) => lists.push_reserved(list),
            Err(error) => {
                free(lists);
                return Err(error);
            }
        }
    }
    Ok(lists)
}

/// A list for the answers of the caller, one for each worker, and one for all answers.
fn take_answers<D>(
    alloc: Global,
    workers: usize,
    count: usize,
) -> Result<(Vec<Vec<Answer<D>>>, Vec<Answer<D>>, Vec<D>), AllocError>
    ensures { IfOk result (λ r. (vec_len r.0 ≡ workers) × AllByRecursion (IsRoomOf count) r.0.items × IsRoomOf count r.1
        × (r.2.items ≡ []) × (count ≤ vec_capacity r.2)) }
{
    let own = Vec::with_capacity(alloc, count)?;
    match Vec::with_capacity(alloc, count) {
        Ok(done) => match take_lists(alloc, workers, count) {
            Ok(lists) => Ok((lists, own, done)),
            Err(error) => {
                own.destroy_empty();
                done.destroy_empty();
                Err(error)
            }
        },
        Err(error) => {
            own.destroy_empty();
            Err(error)
        }
    }
}

/// All memory that the workers need.
pub(crate) fn take_room<J: Job>(
    alloc: Global,
    workers: usize,
    count: usize,
) -> Result<RoomOf<J>, AllocError>
    ensures { IfOk result (IsRoom workers count) }
{
    let (line, pass) = Line::ruled(alloc, count.max(1))?;
    let seats = Vec::with_capacity(alloc, workers)?;
    match take_answers(alloc, workers, count) {
        Ok((lists, own, done)) => Ok(Room {
            line,
            pass,
            lists,
            own,
            seats,
            done,
        }),
        Err(error) => {
            seats.destroy_empty();
            Err(error)
        }
    }
}
