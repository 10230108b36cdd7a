//! Names, and whether they differ.

ghost use Rattle.std.specs.Prelude.{◌≡◌, IfOk, map};
ghost use Rattle.std.specs.List.{list_all};
ghost use Rattle.nt_types.specs.Views.{member_view};
ghost use Rattle.nt_types.specs.Names.{names_differ};
ghost use Rattle.nt_types.specs.Words.{is_word_byte, is_name};

use nt_types::Member;
use std::alloc::{AllocError, Global};
use std::collections::BTreeSet;

fn is_word_byte(byte: u8) -> bool
    ensures { result ≡ is_word_byte byte }
{
    matches!(byte, b'a'..=b'z' | b'A'..=b'Z' | b'0'..=b'9' | b'_')
}

fn all_word_bytes(word: &[u8]) -> bool
    ensures { result ≡ list_all is_word_byte word.now }
{
    word.iter().all(|byte| is_word_byte(*byte))
}

/// Whether a word is a name of schema texts.
pub fn is_name(word: &[u8]) -> bool
    ensures { result ≡ is_name word.now }
{
    match word {
        [] => false,
        [first, ..] => !matches!(*first, b'0'..=b'9') && word.len() <= 255 && all_word_bytes(word),
    }
}

/// Whether no name stands twice.
pub fn names_differ(alloc: Global, members: &[Member]) -> Result<bool, AllocError>
    ensures { IfOk result (λ differ. differ ≡ names_differ (map member_view members.now)) }
{
    let mut seen = BTreeSet::new(alloc);
    for member in members {
        if !seen.insert(member.name.as_slice())? {
            return Ok(false);
        }
    }
    Ok(true)
}
