//! Lines that look at the last run, and those that call what stands below the program.

use super::Trials;
use super::setting::bytes_of;
use crate::direct::{add_firsts, params_of, store};
use crate::lent::{Part, add_lent};
use crate::named::find;
use crate::spelling::{add_number, number_of, short_of};
use nt_draws::Making;
use std::alloc::AllocError;

impl Trials {
    /// Answers a line that waits for nobody.
    pub fn look(
        &mut self,
        command: &str,
        rest: &[&str],
        told: &mut Vec<u8>,
    ) -> Result<(), AllocError> {
        match (command, rest) {
            ("store", [range, file, clusters]) => self.store(range, file, clusters, told),
            ("making", [contexts, events, seed]) => {
                let making = Making::new(short_of(contexts), short_of(events), short_of(seed));
                let answer = if making.is_some() { " yes" } else { " no" };
                told.extend_from_slice(answer.as_bytes())
            }
            ("points", []) => self.tell_points(told),
            ("firsts", []) => add_firsts(self.alloc, self.last_file("o"), told),
            ("pages", [name]) => add_lent(self.alloc, self.last_file(name), Part::Pages, told),
            ("texts", [name, ends]) => self.tell_texts(name, short_of(ends), told),
            ("bytes", [at, len]) => self.tell_bytes(number_of(at), number_of(len), told),
            ("same", parts) => self.compare(parts, told),
            ("alike", [from, behind]) => self.liken(number_of(from), number_of(behind), told),
            _ => told.extend_from_slice(b" unknown"),
        }
    }

    /// `store RANGE FILE CLUSTERS`: writes the file of a script, by the most bytes of a range and of the file, and clusters.
    fn store(
        &mut self,
        range: &str,
        file: &str,
        clusters: &str,
        told: &mut Vec<u8>,
    ) -> Result<(), AllocError> {
        if let Some(params) = params_of(
            10000,
            number_of(range),
            number_of(file),
            short_of(clusters),
        ) {
            let ran = store(self.alloc, &self.files, &params, told)?;
            self.answer(ran, true, told)?;
        }
        Ok(())
    }

    /// `texts NAME ENDS`: the texts of a file, by the column of their ends.
    fn tell_texts(&self, name: &str, ends: u32, told: &mut Vec<u8>) -> Result<(), AllocError> {
        add_lent(self.alloc, self.last_file(name), Part::Texts(ends), told)
    }

    /// `points`: the digits of the gate.
    fn tell_points(&self, told: &mut Vec<u8>) -> Result<(), AllocError> {
        told.push(b' ')?;
        let points = match &self.last {
            Some(ran) => ran.points,
            None => 0,
        };
        add_number(self.alloc, points, told)
    }

    /// The file of a name that the last run left; of `out` what it printed.
    pub fn last_file(&self, name: &str) -> &[u8] {
        match &self.last {
            Some(ran) if name == "out" => ran.host.out(),
            Some(ran) => ran.host.file(name).unwrap_or(b"".as_slice()),
            None => b"".as_slice(),
        }
    }

    /// `bytes AT LEN`: bytes of the file `o`.
    fn tell_bytes(&self, at: u64, len: u64, told: &mut Vec<u8>) -> Result<(), AllocError> {
        let behind = self
            .last_file("o")
            .get(at as usize..)
            .unwrap_or(b"".as_slice());
        let piece = behind.get(..len as usize).unwrap_or(b"".as_slice());
        told.push(b' ')?;
        let text = hex::encode(self.alloc, piece)?;
        told.extend_from_slice(text.as_str().as_bytes())
    }

    /// `same PART..`: whether the file `o` has these bytes; with no part, whether it is as before the run.
    fn compare(&self, parts: &[&str], told: &mut Vec<u8>) -> Result<(), AllocError> {
        let file = self.last_file("o");
        let is_same = if parts.is_empty() {
            find(&self.files, "o") == Some(file)
        } else {
            bytes_of(self.alloc, &self.texts, parts)?.as_slice() == file
        };
        let answer = if is_same { " yes" } else { " no" };
        told.extend_from_slice(answer.as_bytes())
    }

    /// `alike FROM BEHIND`: up to where the file `o` has the bytes of the last run that was kept: from a place, but for so many at
    /// its end.
    fn liken(&self, from: u64, behind: u64, told: &mut Vec<u8>) -> Result<(), AllocError> {
        let file = self.last_file("o");
        let end = file.len().saturating_sub(behind as usize);
        let whole = match self.wholes.last() {
            Some(whole) => whole.file_bytes(),
            None => b"".as_slice(),
        };
        let one = file.get(from as usize..end);
        let is_same = one.is_some() && one == whole.get(from as usize..end);
        told.extend_from_slice(if is_same { b" to " } else { b" no " })?;
        add_number(self.alloc, end as u64, told)
    }
}
