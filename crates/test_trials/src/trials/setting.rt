//! Lines that set something for those that follow.

use super::{LONG, SHORT, Trials};
use crate::named::{Named, find, put};
use crate::spelling::{add_number, add_spelled, number_of, short_of};
use nt_xxh3::sum;
use std::alloc::{AllocError, Global};

/// The bytes of words: `#` is before hex digits, `@` before a name that `let` gave, `N*@` before one that stands N times; any other
/// word spells its own bytes. A name or hex text that is none adds nothing.
pub fn bytes_of(alloc: Global, texts: &[Named], words: &[&str]) -> Result<Vec<u8>, AllocError> {
    let mut bytes = Vec::new(alloc);
    for word in words {
        if let Some(digits) = word.strip_prefix('#') {
            if let Ok(part) = hex::decode(alloc, digits) {
                bytes.extend_from_slice(&part)?;
            }
            continue;
        }
        let (times, name) = match word.split_once("*@") {
            Some((times, name)) => (number_of(times), Some(name)),
            None => (1, word.strip_prefix('@')),
        };
        match name {
            Some(name) => {
                let part = find(texts, name).unwrap_or(b"".as_slice());
                for _ in 0..times {
                    bytes.extend_from_slice(part)?;
                }
            }
            None => add_spelled(word, &mut bytes)?,
        }
    }
    Ok(bytes)
}

/// Makes a list that of the numbers that words are.
fn put_numbers(words: &[&str], numbers: &mut Vec<u32>) -> Result<(), AllocError> {
    numbers.clear();
    for word in words {
        numbers.push(short_of(word))?;
    }
    Ok(())
}

impl Trials {
    /// `let NAME PART..` names bytes. Told is how many there are.
    pub fn name(&mut self, rest: &[&str], told: &mut Vec<u8>) -> Result<(), AllocError> {
        let Some((name, parts)) = rest.split_first() else {
            return Ok(());
        };
        let bytes = bytes_of(self.alloc, &self.texts, parts)?;
        told.extend_from_slice(b"let ")?;
        told.extend_from_slice(name.as_bytes())?;
        told.push(b' ')?;
        add_number(self.alloc, bytes.len() as u64, told)?;
        told.push(b'\n')?;
        put(self.alloc, &mut self.texts, name, bytes)
    }

    /// Sets something, unless the command is none of these: `clear` takes all files away, `file NAME PART..` puts one there,
    /// `bend NAME PLACE PART..` puts bytes over those of one, `seal NAME PLACE LEN` puts the checksum of an envelope over its last
    /// bytes, and `take NAME NEW` takes a file that the last run left; `words WORD..` are those of runs; `order NUMBER..` lets
    /// contexts commit or stage so, and `soon NUMBER..` unless that takes too long; `publish NUMBER..` lets them publish so;
    /// `step MOST` lets texts give at most so many bytes at a time.
    pub fn set(&mut self, command: &str, rest: &[&str]) -> Result<bool, AllocError> {
        match command {
            "clear" => {
                self.files.clear();
                self.wholes.clear();
                self.order.clear();
                self.publishing.clear();
                self.most = 0;
            }
            "step" => self.most = number_of(rest.first().copied().unwrap_or("")) as usize,
            "file" => self.set_file(rest)?,
            "bend" => self.bend(rest)?,
            "seal" => self.seal(rest)?,
            "take" => self.take(rest)?,
            "words" => self.set_words(rest)?,
            "order" => {
                self.looks = LONG;
                put_numbers(rest, &mut self.order)?;
            }
            "soon" => {
                self.looks = SHORT;
                put_numbers(rest, &mut self.order)?;
            }
            "publish" => {
                self.looks = LONG;
                put_numbers(rest, &mut self.publishing)?;
            }
            _ => return Ok(false),
        }
        Ok(true)
    }

    fn set_file(&mut self, rest: &[&str]) -> Result<(), AllocError> {
        let Some((name, parts)) = rest.split_first() else {
            return Ok(());
        };
        let bytes = bytes_of(self.alloc, &self.texts, parts)?;
        put(self.alloc, &mut self.files, name, bytes)
    }

    /// Puts bytes over those of a file at a place.
    fn put_over(&mut self, name: &str, place: u64, other: &[u8]) -> Result<(), AllocError> {
        let file = find(&self.files, name).unwrap_or(b"".as_slice());
        let mut bytes = file.to_vec(self.alloc)?;
        for (byte, new) in bytes.iter_mut().skip(place as usize).zip(other.iter()) {
            *byte = *new;
        }
        put(self.alloc, &mut self.files, name, bytes)
    }

    fn bend(&mut self, rest: &[&str]) -> Result<(), AllocError> {
        let [name, place, parts @ ..] = rest else {
            return Ok(());
        };
        let other = bytes_of(self.alloc, &self.texts, parts)?;
        self.put_over(name, number_of(place), &other)
    }

    fn seal(&mut self, rest: &[&str]) -> Result<(), AllocError> {
        let [name, place, len] = rest else {
            return Ok(());
        };
        let place = number_of(place);
        let covered = number_of(len).saturating_sub(8);
        let file = find(&self.files, name).unwrap_or(b"".as_slice());
        let behind = file.get(place as usize..).unwrap_or(b"".as_slice());
        let checksum = sum(behind.get(..covered as usize).unwrap_or(b"".as_slice()));
        self.put_over(name, place.saturating_add(covered), &checksum.to_le_bytes())
    }

    fn take(&mut self, rest: &[&str]) -> Result<(), AllocError> {
        let [name, new] = rest else {
            return Ok(());
        };
        let bytes = self.last_file(name).to_vec(self.alloc)?;
        put(self.alloc, &mut self.files, new, bytes)
    }

    pub fn set_words(&mut self, rest: &[&str]) -> Result<(), AllocError> {
        self.words.clear();
        for word in rest {
            let mut bytes = Vec::new(self.alloc);
            add_spelled(word, &mut bytes)?;
            if let Ok(text) = String::from_utf8(bytes) {
                self.words.push(text)?;
            }
        }
        Ok(())
    }
}
