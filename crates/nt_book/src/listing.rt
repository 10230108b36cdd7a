//! Page lists that stand between the ranges of a book. No call here takes memory.

ghost use Rattle.std.specs.Prelude.{◌≡◌, ◌+◌, ◌-◌, ◌<◌, ◌≤◌, ◌++◌, ◌∷◌, [], true, false, length, Some};
ghost use Rattle.std.specs.Result.{result_err};
ghost use Rattle.nt_book.specs.Books.{book_ranges, book_clusters, book_end, is_due, noted_at};
ghost use Rattle.nt_book.specs.Limiting.{limit_error_with};
ghost use Rattle.nt_book.specs.Listing.{torn_group};

use crate::book::Book;
use crate::limits::LimitError;
use crate::list::{ListPlace, NotedList, Tear};

impl Book {
    /// Asks for page lists beside the clusters, of groups of at most so many each, under a header of
    /// this checksum. Staged clusters have none beside them.
    pub fn group_by(&mut self, group: u32, header_sum: u64)
        requires not_staged { self.old.staged ≡ false }
        requires some { 1 ≤ group }
        requires none_yet { book_clusters self.old ≡ [] }
        ensures { self.new ≡ record self.old { group = Some (group, header_sum) } }
    {
        self.group = Some((group, header_sum));
        self.listed = 0;
    }

    /// Whether the next range keeps the limits with this length, behind a page list of that
    /// length, which is 0 where none is due.
    pub fn check_with(&self, len: u64, list: u64) -> Result<(), LimitError>
        ensures { result_err result ≡ limit_error_with self.now.limits (book_end self.now)
            (length (book_ranges self.now)) len list }
    {
        let limit = self.limits.range;
        if len > limit {
            return Err(LimitError::RangeTooLarge { len, limit });
        }
        if list > limit {
            return Err(LimitError::RangeTooLarge { len: list, limit });
        }
        let end = self.end + list + len;
        if end > self.limits.file {
            return Err(LimitError::FileTooLarge {
                end,
                limit: self.limits.file,
            });
        }
        if self.rows.len() == self.limits.clusters as usize {
            return Err(LimitError::TooManyClusters);
        }
        Ok(())
    }

    /// The page list that is due was appended at the end of the file: the link to it, and the bytes
    /// of its blob.
    pub fn note_list(&mut self, at: ListPlace, len: u64)
        requires due { is_due self.old ≡ true }
        requires spare { 0 < self.old.spare }
        requires fits { book_end self.old + len ≤ self.old.limits.file }
        ensures { self.new ≡ record self.old { lists = self.old.lists ++ record { at = at; len = len } ∷ [] } }
    {
        self.lists.push_reserved(NotedList { at, len });
        self.listed = self.rows.len();
        self.end += len;
    }

    /// The append of the page list that is due failed. The file ends there since, and the disk
    /// counts so many faults. The book is torn for good.
    pub fn tear(&mut self, end: u64, faults: u64)
        requires due { is_due self.old ≡ true }
        requires behind { book_end self.old ≤ end }
        requires fits { end ≤ self.old.limits.file }
        ensures { self.new ≡ record self.old {
          torn = Some (record {
            group = length self.old.lists;
            faults = faults;
            len = end - book_end self.old;
          });
        } }
    {
        self.torn = Some(Tear {
            group: self.lists.len() as u32,
            faults,
            len: end - self.end,
        });
        self.end = end;
    }

    /// The most clusters of a group and the checksum of the header, if page lists stand beside the
    /// clusters.
    pub fn group(&self) -> Option<(u32, u64)>
        ensures { result ≡ self.now.group }
    {
        self.group
    }

    /// The number of page lists that are noted.
    pub fn lists(&self) -> u32
        ensures { result ≡ length self.now.lists }
    {
        self.lists.len() as u32
    }

    /// Where the page list of a group stands.
    pub fn list(&self, k: u32) -> ListPlace
        requires { k < length self.now.lists }
        ensures { result ≡ (noted_at self.now k).at }
    {
        self.lists[k as usize].at
    }

    /// The group whose page list failed, and the faults that were counted then.
    pub fn torn(&self) -> Option<(u32, u64)>
        ensures { result ≡ torn_group self.now.torn }
    {
        match self.torn {
            Some(tear) => Some((tear.group, tear.faults)),
            None => None,
        }
    }
}
