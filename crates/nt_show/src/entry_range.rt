//! Which entries of a file are shown.

ghost use Rattle.std.specs.Prelude.{◌≡◌, ◌-◌, ◌≤◌, List, length, take, drop, option_map};
ghost use Rattle.nt_types.specs.TreeData.{TreesData};
ghost use Rattle.nt_show.specs.Ranges.{limited_len, in_range, past_entries};

/// The entries from `from` on, counted from 0, and at most `count` of them; all where there is none.
#[derive(Clone, Copy, Debug, PartialEq, Eq)]
pub struct EntryRange {
    pub from: u64,
    pub count: Option<u64>,
}

/// How many of so many, at most this number.
fn limited(most: Option<u64>, len: u64) -> u64
    ensures { result ≡ limited_len most len }
{
    match most {
        Some(most) => most.min(len),
        None => len,
    }
}

/// A number that is so much less, and at least 0; none of none.
fn less(most: Option<u64>, shown: u64) -> Option<u64>
    ensures { result ≡ option_map (λ n. n - shown) most }
{
    match most {
        Some(most) => Some(most.saturating_sub(shown)),
        None => None,
    }
}

impl EntryRange {
    /// The first of so many entries that lies in the range, and the one behind the last.
    pub fn within(&self, len: u64) -> (u64, u64)
        ensures order { (result.0 ≤ result.1) × (result.1 ≤ len) }
        ensures range { (entries : List TreesData) → length entries ≡ len
            → in_range self.now entries ≡ take (result.1 - result.0) (drop result.0 entries) }
    {
        let from = self.from.min(len);
        (from, from + limited(self.count, len - from))
    }

    /// The same range, counted from behind so many entries.
    pub fn past(&self, len: u64) -> EntryRange
        ensures { result ≡ past_entries len self.now }
    {
        EntryRange {
            from: self.from.saturating_sub(len),
            count: less(self.count, len.saturating_sub(self.from)),
        }
    }
}
