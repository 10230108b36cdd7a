//! Staged clusters: ranges are reserved and filled first, and a context publishes all its clusters
//! together.

ghost use Rattle.std.specs.Prelude.{◌≡◌, ◌-◌, ◌++◌, ◌∷◌, [], true, length, map, vec_capacity, Some, None, OnOk, OnErr};
ghost use Rattle.nt_machine.specs.Legal.{IsAllowed};
ghost use Rattle.nt_book.specs.Appending.{IsReservable, IsReadyToPublish};
ghost use Rattle.nt_book.specs.Books.{book_ranges, book_end};
ghost use Rattle.nt_book.specs.Entries.{published_entry, reserved_entry};
ghost use Rattle.nt_book.specs.Keeping.{AreOffsets, IsPublishable, order_numbers, own_count, own_numbers, placed_row};

use crate::book::Book;
use crate::event::{Event, EventKind};
use crate::meta::ClusterMeta;
use crate::offsets::push_offsets;
use crate::row::{ClusterRow, PublishedRow};
use crate::state::RangeState;
use std::alloc::AllocError;

/// The number of a context's rows.
fn count_own(rows: &[ClusterRow], context: u32) -> usize
    ensures { result ≡ own_count rows.now context }
{
    let mut count = 0;
    for row in rows {
        if row.meta.context == context {
            count += 1;
        }
    }
    count
}

/// The rows of a context become clusters, which begin behind so many entries. There is room for
/// them and for their offsets. Gives the entries with theirs.
fn enter(
    rows: &[ClusterRow],
    context: u32,
    firsts: &[u64],
    entries: u64,
    order: &mut Vec<PublishedRow>,
    offsets: &mut Vec<u64>,
) -> u64
    requires { IsPublishable entries firsts.now rows.now context order.old.items (vec_capacity order.old) offsets.old.items
        (vec_capacity offsets.old) }
    ensures offsets { AreOffsets result firsts.now (map (placed_row rows.now) order.new.items) offsets.new.items }
    ensures order { order_numbers order.new.items ≡ order_numbers order.old.items ++ own_numbers 0 rows.now context }
{
    let mut entries = entries;
    for (range, row) in rows.iter().enumerate() {
        if row.meta.context == context {
            order.push_reserved(PublishedRow {
                range: range as u32,
                first: entries,
                offsets: offsets.len() - firsts.len(),
            });
            push_offsets(offsets, row.meta.pages.as_slice());
            entries += row.meta.entries;
        }
    }
    entries
}

impl Book {
    /// Asks for staged clusters. Such a book has no groups.
    pub fn stage_all(&mut self)
        requires none_yet { book_ranges self.old ≡ [] }
        requires no_groups { self.old.group ≡ None }
        ensures { self.new ≡ record self.old { staged = true } }
    {
        self.staged = true;
    }

    /// Whether clusters are staged.
    pub fn staged(&self) -> bool
        ensures { result ≡ self.now.staged }
    {
        self.staged
    }

    /// Reserves a range for a staged cluster at the end of the file and hands its number out. The
    /// page lists move into the book; the range is out, and no cluster yet. The room to publish,
    /// if there was some, is gone. It takes no memory.
    pub fn reserve(&mut self, meta: &mut ClusterMeta) -> u32
        requires { IsReservable self.old meta.old }
        ensures number { result ≡ length (book_ranges self.old) }
        ensures allowed { IsAllowed self.old.begin (book_ranges self.old)
            (reserved_entry result (book_end self.old) meta.old) }
        ensures book { self.new ≡ record self.old {
          history = self.old.history ++ reserved_entry result (book_end self.old) meta.old ∷ [];
          spare = self.old.spare - 1;
          ready = None;
        } }
        ensures moved { meta.new ≡ record meta.old { pages = [] } }
    {
        let range = self.rows.len() as u32;
        let row = ClusterRow {
            meta: meta.take(),
            start: self.end,
            first: 0,
            offsets: 0,
            state: RangeState::Out,
        };
        self.end += row.meta.len;
        self.events.push_reserved(Event {
            context: row.meta.context,
            kind: EventKind::Reserved,
            cluster: range,
        });
        self.rows.push_reserved(row);
        self.out += 1;
        self.spare -= 1;
        self.ready = None;
        range
    }

    /// Makes room for the clusters of a context, and for the event by which it publishes them.
    pub fn room_to_publish(&mut self, context: u32) -> Result<(), AllocError>
        requires { self.old.staged ≡ true }
        ensures same { self.new ≡ record self.old { ready = self.new.ready } }
        ensures ok { OnOk result (self.new.ready ≡ Some context) }
        ensures err { OnErr result (self.new ≡ self.old) }
    {
        let count = count_own(self.rows.as_slice(), context);
        self.order.reserve(count)?;
        self.offsets.reserve(count * self.firsts.len())?;
        self.events
            .reserve(self.out as usize + 2 * self.spare as usize + 1)?;
        self.ready = Some(context);
        Ok(())
    }

    /// All ranges of a context become the next clusters, in the order of their numbers. It takes
    /// no memory.
    pub fn publish(&mut self, context: u32)
        requires { IsReadyToPublish self.old context }
        ensures allowed { IsAllowed self.old.begin (book_ranges self.old)
            (published_entry (book_ranges self.old) context) }
        ensures book { self.new ≡ record self.old {
          history = self.old.history ++ published_entry (book_ranges self.old) context ∷ [];
          ready = None;
        } }
    {
        self.entries = enter(
            self.rows.as_slice(),
            context,
            self.firsts.as_slice(),
            self.entries,
            &mut self.order,
            &mut self.offsets,
        );
        self.events.push_reserved(Event {
            context,
            kind: EventKind::Published,
            cluster: 0,
        });
        self.ready = None;
    }
}
