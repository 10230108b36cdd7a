//! Lines of runs of which calls fail by their number over all objects, and of crashes.

use super::Trials;
use crate::built::{build, groups_of};
use crate::points::Points;
use crate::rows::Rows;
use crate::running::{Fails, run_on};
use crate::spelling::{number_of, short_of};
use crate::whole::add_judged;
use nt_memory::MemHost;
use std::alloc::AllocError;
use std::sync::Wait;
use std::thread::Threads;

impl Trials {
    /// `each MOST`: the call of each number over all objects fails in turn, until a run makes fewer calls.
    pub fn fail_numbered<R: Threads + Wait + Sync>(
        &self,
        rt: &R,
        rest: &[&str],
        told: &mut Vec<u8>,
    ) -> Result<(), AllocError> {
        let [most] = rest else {
            return Ok(());
        };
        let mut rows = Rows::new(self.alloc);
        for number in 1..number_of(most) {
            let ran = self.run_failing(rt, Fails::Call(number))?;
            if ran.host.calls() < number {
                break;
            }
            let mut answer = Vec::new(self.alloc);
            add_judged(self.alloc, &self.wholes, &ran, &mut answer)?;
            rows.add(number, answer, told)?;
        }
        rows.end(told)
    }

    /// Adds the answer of `entries` over a file.
    fn add_read<R: Threads + Wait + Sync>(
        &self,
        rt: &R,
        file: &[u8],
        answer: &mut Vec<u8>,
    ) -> Result<(), AllocError> {
        let mut host = MemHost::new(self.alloc);
        host.add("o", file)?;
        let mut words = Vec::new(self.alloc);
        words.push(String::from_str(self.alloc, "entries")?)?;
        words.push(String::from_str(self.alloc, "o")?)?;
        let gate = Points::new(&[], 0);
        let ran = run_on(rt, self.alloc, host, &words, &gate)?;
        ran.add_answer(self.alloc, false, answer)
    }

    /// `stop MOST`: each call of disks and pens behind so many fails, until a run makes no more; and `entries` of what is left.
    pub fn stop<R: Threads + Wait + Sync>(
        &self,
        rt: &R,
        rest: &[&str],
        told: &mut Vec<u8>,
    ) -> Result<(), AllocError> {
        let [most] = rest else {
            return Ok(());
        };
        let mut rows = Rows::new(self.alloc);
        for count in 0..number_of(most) {
            let ran = self.run_failing(rt, Fails::Behind(count))?;
            if ran.host.calls() <= count {
                break;
            }
            let mut answer = Vec::new(self.alloc);
            add_judged(self.alloc, &self.wholes, &ran, &mut answer)?;
            if let Some(file) = ran.host.file("o") {
                answer.extend_from_slice(b"; ")?;
                self.add_read(rt, file, &mut answer)?;
            }
            rows.add(count, answer, told)?;
        }
        rows.end(told)
    }

    /// `crash MOST`: of a run of the words, `entries` of what crashes after its first steps may leave: the bytes of the last sync,
    /// all steps whole, and each unknown byte another.
    pub fn crash<R: Threads + Wait + Sync>(
        &self,
        rt: &R,
        rest: &[&str],
        told: &mut Vec<u8>,
    ) -> Result<(), AllocError> {
        let [most] = rest else {
            return Ok(());
        };
        let ran = self.run_failing(rt, Fails::Nothing)?;
        let mut rows = Rows::new(self.alloc);
        for count in 0..number_of(most) {
            let mut answer = Vec::new(self.alloc);
            for pick in 0..3 {
                if let Some(left) = ran.host.crash("o", count as usize, pick)? {
                    self.add_read(rt, left.as_slice(), &mut answer)?;
                }
                answer.push(b';')?;
            }
            rows.add(count, answer, told)?;
        }
        rows.end(told)
    }

    /// `built CLUSTER GROUP MOST`: the same of a disk itself, on which the text `a` is written by the calls below the program.
    pub fn crash_built<R: Threads + Wait + Sync>(
        &self,
        rt: &R,
        rest: &[&str],
        told: &mut Vec<u8>,
    ) -> Result<(), AllocError> {
        let [cluster, group, most] = rest else {
            return Ok(());
        };
        let Some(params) = groups_of(short_of(cluster), short_of(group)) else {
            return Ok(());
        };
        let Some(disk) = build(rt, self.alloc, &self.files, &params)? else {
            return Ok(());
        };
        let mut rows = Rows::new(self.alloc);
        for count in 0..number_of(most) {
            let mut answer = Vec::new(self.alloc);
            for pick in 0..3 {
                let left = disk.crash(count as usize, pick)?;
                self.add_read(rt, left.as_slice(), &mut answer)?;
                answer.push(b';')?;
            }
            rows.add(count, answer, told)?;
        }
        rows.end(told)
    }
}
