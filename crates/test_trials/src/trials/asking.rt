//! Lines that have an answer.

use super::{Trials, object_of};
use crate::direct::{make, params_of};
use crate::named::find;
use crate::points::Points;
use crate::rows::Rows;
use crate::running::{Fails, Ran, host_of, run_on};
use crate::spelling::{add_number, number_of, short_of};
use crate::whole::{Whole, add_judged, is_done};
use nt_draws::Making;
use nt_memory::MemHost;
use std::alloc::AllocError;
use std::sync::Wait;
use std::thread::Threads;

/// How many runs there are at most of which one call each fails.
const MOST_CALLS: u64 = 200;

impl Trials {
    /// Answers a line, whose command is one of these.
    pub fn ask<R: Threads + Wait + Sync>(
        &mut self,
        rt: &R,
        command: &str,
        rest: &[&str],
        told: &mut Vec<u8>,
    ) -> Result<(), AllocError> {
        match command {
            "fails" => return self.fail_each(rt, rest, told),
            "cut" => return self.cut(rt, rest, told),
            "each" => return self.fail_numbered(rt, rest, told),
            "stop" => return self.stop(rt, rest, told),
            "crash" => return self.crash(rt, rest, told),
            "built" => return self.crash_built(rt, rest, told),
            _ => told.push(b' ')?,
        }
        match command {
            "plain" => self.run_plain(rt, rest, told)?,
            "whole" => {
                self.run_plain(rt, rest, told)?;
                self.keep_whole()?;
            }
            "fail" => self.fail(rt, rest, told)?,
            "count" => self.count(rt, rest, told)?,
            "free" => self.judge(rt, rest, told)?,
            "make" => self.make(rt, rest, told)?,
            _ => self.look(command, rest, told)?,
        }
        told.push(b'\n')?;
        Ok(())
    }

    /// Whether the words are those of a command that writes the file `o`.
    fn is_writing(&self) -> bool {
        match self.words.first() {
            Some(word) => {
                let word = word.as_str();
                word != "entries" && word != "schema" && word != "scan"
            }
            None => false,
        }
    }

    /// A run of the words over a host.
    fn run_over<R: Threads + Wait + Sync>(&self, rt: &R, host: MemHost) -> Result<Ran, AllocError> {
        let gate = Points::with_publishing(&self.order, &self.publishing, self.looks);
        run_on(rt, self.alloc, host, &self.words, &gate)
    }

    /// A run of the words of which this call fails.
    pub fn run_failing<R: Threads + Wait + Sync>(
        &self,
        rt: &R,
        fails: Fails,
    ) -> Result<Ran, AllocError> {
        self.run_over(rt, host_of(self.alloc, &self.files, fails, self.most)?)
    }

    /// Adds the answer of a run, of one that writes with its file, and keeps it as the last.
    pub fn answer(
        &mut self,
        ran: Ran,
        is_writing: bool,
        told: &mut Vec<u8>,
    ) -> Result<(), AllocError> {
        told.push(b' ')?;
        ran.add_answer(self.alloc, is_writing, told)?;
        self.last = Some(ran);
        Ok(())
    }

    /// `plain WORD..`: a run of these words.
    fn run_plain<R: Threads + Wait + Sync>(
        &mut self,
        rt: &R,
        rest: &[&str],
        told: &mut Vec<u8>,
    ) -> Result<(), AllocError> {
        self.set_words(rest)?;
        let ran = self.run_failing(rt, Fails::Nothing)?;
        self.answer(ran, self.is_writing(), told)
    }

    /// `fail OBJECT NUMBER CALL`: a run of the words of which this call fails.
    fn fail<R: Threads + Wait + Sync>(
        &mut self,
        rt: &R,
        rest: &[&str],
        told: &mut Vec<u8>,
    ) -> Result<(), AllocError> {
        let [kind, number, call] = rest else {
            return Ok(());
        };
        let object = object_of(kind, short_of(number));
        let ran = self.run_failing(rt, Fails::Of(object, number_of(call)))?;
        self.answer(ran, self.is_writing(), told)
    }

    /// Keeps the last run as one that was done.
    fn keep_whole(&mut self) -> Result<(), AllocError> {
        if let Some(ran) = &self.last {
            let whole = Whole::of(self.alloc, ran)?;
            self.wholes.push(whole)?;
        }
        Ok(())
    }

    /// `free WORD..`: a run of these words, as one of those that were kept.
    fn judge<R: Threads + Wait + Sync>(
        &mut self,
        rt: &R,
        rest: &[&str],
        told: &mut Vec<u8>,
    ) -> Result<(), AllocError> {
        self.set_words(rest)?;
        let ran = self.run_failing(rt, Fails::Nothing)?;
        told.push(b' ')?;
        add_judged(self.alloc, &self.wholes, &ran, told)
    }

    /// `fails OBJECT NUMBER`: each call of an object fails in turn, until a run is done as one of those that were kept.
    fn fail_each<R: Threads + Wait + Sync>(
        &mut self,
        rt: &R,
        rest: &[&str],
        told: &mut Vec<u8>,
    ) -> Result<(), AllocError> {
        let [kind, number] = rest else {
            return Ok(());
        };
        let object = object_of(kind, short_of(number));
        let mut rows = Rows::new(self.alloc);
        for call in 1..MOST_CALLS {
            let ran = self.run_failing(rt, Fails::Of(object, call))?;
            if is_done(&self.wholes, &ran) {
                break;
            }
            let mut answer = Vec::new(self.alloc);
            add_judged(self.alloc, &self.wholes, &ran, &mut answer)?;
            rows.add(call, answer, told)?;
        }
        rows.end(told)
    }

    /// `cut NAME`: a run of the words over a file that is cut to each length.
    fn cut<R: Threads + Wait + Sync>(
        &self,
        rt: &R,
        rest: &[&str],
        told: &mut Vec<u8>,
    ) -> Result<(), AllocError> {
        let [name] = rest else {
            return Ok(());
        };
        let file = match find(&self.files, name) {
            Some(file) => file.to_vec(self.alloc)?,
            None => Vec::new(self.alloc),
        };
        let mut rows = Rows::new(self.alloc);
        for len in 0..file.len() {
            let mut host = host_of(self.alloc, &self.files, Fails::Nothing, self.most)?;
            host.add(name, &file[..len])?;
            let ran = self.run_over(rt, host)?;
            let mut answer = Vec::new(self.alloc);
            ran.add_answer(self.alloc, false, &mut answer)?;
            rows.add(len as u64, answer, told)?;
        }
        rows.end(told)
    }

    /// `count WORD..`: a run of these words, and only how many bytes and lines it prints.
    fn count<R: Threads + Wait + Sync>(
        &mut self,
        rt: &R,
        rest: &[&str],
        told: &mut Vec<u8>,
    ) -> Result<(), AllocError> {
        self.set_words(rest)?;
        let ran = self.run_failing(rt, Fails::Nothing)?;
        let mut lines = 0u64;
        for byte in ran.host.out() {
            if *byte == b'\n' {
                lines = lines.saturating_add(1);
            }
        }
        for number in [u64::from(ran.code), ran.host.out().len() as u64, lines] {
            told.push(b' ')?;
            add_number(self.alloc, number, told)?;
        }
        self.last = Some(ran);
        Ok(())
    }

    /// `make CLUSTER RANGE C E SEED`: makes a file of events, by the most entries of a cluster and the most bytes of a range.
    fn make<R: Threads + Wait + Sync>(
        &mut self,
        rt: &R,
        rest: &[&str],
        told: &mut Vec<u8>,
    ) -> Result<(), AllocError> {
        let [cluster, range, contexts, events, seed] = rest else {
            return Ok(());
        };
        let params = params_of(short_of(cluster), number_of(range), 1 << 40, u32::MAX);
        let making = Making::new(short_of(contexts), short_of(events), short_of(seed));
        if let (Some(params), Some(making)) = (params, making) {
            let ran = make(rt, self.alloc, &making, &params, told)?;
            self.answer(ran, true, told)?;
        }
        Ok(())
    }
}
