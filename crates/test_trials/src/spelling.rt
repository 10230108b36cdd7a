//! Bytes as words of a line, and words as bytes.

use std::alloc::{AllocError, Global};

/// Adds bytes as a text: a backslash, an end of a line, a tab and a byte 0 are spelled with a backslash.
pub fn add_shown(bytes: &[u8], told: &mut Vec<u8>) -> Result<(), AllocError> {
    for byte in bytes {
        let letter = match *byte {
            b'\n' => b'n',
            b'\r' => b'r',
            b'\t' => b't',
            b'\0' => b'0',
            b'\\' => b'\\',
            other => {
                told.push(other)?;
                continue;
            }
        };
        told.push(b'\\')?;
        told.push(letter)?;
    }
    Ok(())
}

/// Adds the bytes that a word spells, where `\s` is a blank, and `\e` nothing.
pub fn add_spelled(word: &str, bytes: &mut Vec<u8>) -> Result<(), AllocError> {
    let mut is_behind = false;
    for byte in word.as_bytes() {
        if !is_behind && *byte == b'\\' {
            is_behind = true;
            continue;
        }
        let spelled = match (is_behind, *byte) {
            (true, b'n') => b'\n',
            (true, b'r') => b'\r',
            (true, b't') => b'\t',
            (true, b's') => b' ',
            (true, b'0') => b'\0',
            (_, other) => other,
        };
        if !is_behind || *byte != b'e' {
            bytes.push(spelled)?;
        }
        is_behind = false;
    }
    Ok(())
}

/// Adds a number.
pub fn add_number(alloc: Global, number: u64, told: &mut Vec<u8>) -> Result<(), AllocError> {
    let text = format!(in alloc; "{number}")?;
    told.extend_from_slice(text.as_str().as_bytes())?;
    Ok(())
}

/// The number that a word is; 0 where it is none.
pub fn number_of(word: &str) -> u64 {
    match word.parse::<u64>() {
        Ok(number) => number,
        Err(_) => 0,
    }
}

/// The number of 32 bits that a word is; 0 where it is none.
pub fn short_of(word: &str) -> u32 {
    match word.parse::<u32>() {
        Ok(number) => number,
        Err(_) => 0,
    }
}
