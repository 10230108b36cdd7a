//! Answers of numbered runs, where equal ones in a row are told once.

use crate::spelling::add_number;
use std::alloc::{AllocError, Global};
use std::mem;

/// The answer that the last runs have in common.
#[derive(Drop)]
pub struct Rows {
    alloc: Global,
    first: u64,
    last: u64,
    answer: Option<Vec<u8>>,
}

impl Rows {
    pub fn new(alloc: Global) -> Self {
        Rows {
            alloc,
            first: 0,
            last: 0,
            answer: None,
        }
    }

    /// Takes the answer of a run. Where it is another than the last one's, that is told.
    pub fn add(
        &mut self,
        number: u64,
        answer: Vec<u8>,
        told: &mut Vec<u8>,
    ) -> Result<(), AllocError> {
        let is_same = match &self.answer {
            Some(last) => last.as_slice() == answer.as_slice(),
            None => false,
        };
        if !is_same {
            self.end(told)?;
            self.answer = Some(answer);
            self.first = number;
        }
        self.last = number;
        Ok(())
    }

    /// Tells the last answer.
    pub fn end(&mut self, told: &mut Vec<u8>) -> Result<(), AllocError> {
        let Some(answer) = mem::replace(&mut self.answer, None) else {
            return Ok(());
        };
        told.extend_from_slice(b"  ")?;
        add_number(self.alloc, self.first, told)?;
        if self.first != self.last {
            told.extend_from_slice(b"..")?;
            add_number(self.alloc, self.last, told)?;
        }
        told.push(b' ')?;
        told.extend_from_slice(&answer)?;
        told.push(b'\n')?;
        Ok(())
    }
}
