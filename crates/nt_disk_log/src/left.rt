//! Files that a crash may leave of a log.

ghost use Rattle.std.specs.Prelude.{◌≡◌, ◌+◌, ◌≤◌, length, take, vec_len, Some, IfOk};
ghost use Rattle.nt_outside.specs.Log.{Write, FailedWrite, Append, FailedAppend, Settle, Sync};
ghost use Rattle.nt_outside.specs.Crash.{LeavesBehind};
ghost use Rattle.nt_disk_log.specs.Rows.{bytes_of, total_bytes, step, steps};
ghost use Rattle.nt_disk_log.specs.Logged.{steps_of};
ghost use Rattle.nt_disk_log.specs.Left.{left_after, left_by, nothing_left, picked_of, picked_file, IsInside, AreInside};

use crate::bytes::put_over;
use crate::cells::{cells_of, fail_over, put_cells, renewed, worst};
use crate::log::{Log, Row};
use nt_lists::Bytes;
use std::alloc::{AllocError, Global};

/// What is left after the steps so far: all of them whole; what stood at the last sync; and of each byte the newest, where only
/// writes of that one byte cover it since then.
#[derive(Drop)]
pub struct Leaves {
    whole: Vec<u8>,
    kept: Vec<u8>,
    newest: Vec<Option<u8>>,
    ghost same: { vec_len newest ≡ vec_len whole },
}

impl Leaves {
    ghost use Rattle.nt_disk_log.specs.Leaves.{left_view};

    pub fn new(alloc: Global) -> Self
        ensures { left_view result ≡ nothing_left }
    {
        Leaves {
            whole: Vec::new(alloc),
            kept: Vec::new(alloc),
            newest: Vec::new(alloc),
        }
    }

    /// After a write.
    fn written(self, alloc: Global, at: usize, bytes: &[u8]) -> Result<Self, AllocError>
        requires { at + length bytes.now ≤ vec_len self.whole }
        ensures { IfOk result (λ l. left_view l ≡ left_after (left_view self) (Write at bytes.now)) }
    {
        let Leaves {
            mut whole,
            kept,
            mut newest,
        } = self;
        let cells = renewed(alloc, bytes, &newest, at)?;
        put_cells(&mut newest, at, &cells);
        put_over(&mut whole, at, bytes);
        Ok(Leaves {
            whole,
            kept,
            newest,
        })
    }

    /// After a write that failed.
    fn missed(self, alloc: Global, at: usize, bytes: &[u8]) -> Result<Self, AllocError>
        requires { at + length bytes.now ≤ vec_len self.whole }
        ensures { IfOk result (λ l. left_view l ≡ left_after (left_view self) (FailedWrite at bytes.now)) }
    {
        let Leaves {
            mut whole,
            kept,
            mut newest,
        } = self;
        let cells = renewed(alloc, bytes, &newest, at)?;
        put_cells(&mut newest, at, &cells);
        fail_over(alloc, &mut whole, at, bytes)?;
        Ok(Leaves {
            whole,
            kept,
            newest,
        })
    }

    /// After bytes were added at the end.
    fn grown(self, alloc: Global, bytes: &[u8]) -> Result<Self, AllocError>
        ensures { IfOk result (λ l. left_view l ≡ left_after (left_view self) (Append bytes.now)) }
    {
        let Leaves {
            mut whole,
            kept,
            mut newest,
        } = self;
        let cells: Vec<Option<u8>> = vec![in alloc; None; bytes.len()]?;
        newest.extend_from_slice(&cells)?;
        whole.extend_from_slice(bytes)?;
        Ok(Leaves {
            whole,
            kept,
            newest,
        })
    }

    /// After a range was settled with these bytes.
    fn settled(self, alloc: Global, start: usize, bytes: &[u8]) -> Result<Self, AllocError>
        requires { start + length bytes.now ≤ vec_len self.whole }
        ensures { IfOk result (λ l. left_view l ≡ left_after (left_view self) (Settle start (length bytes.now) (Some bytes.now))) }
    {
        let Leaves {
            mut whole,
            kept,
            mut newest,
        } = self;
        let cells: Vec<Option<u8>> = vec![in alloc; None; bytes.len()]?;
        put_cells(&mut newest, start, &cells);
        put_over(&mut whole, start, bytes);
        Ok(Leaves {
            whole,
            kept,
            newest,
        })
    }

    /// After a sync.
    fn synced(self, alloc: Global) -> Result<Self, AllocError>
        ensures { IfOk result (λ l. left_view l ≡ left_after (left_view self) Sync) }
    {
        let whole = self.whole;
        let kept = whole.to_vec(alloc)?;
        let newest = cells_of(alloc, &whole)?;
        Ok(Leaves {
            whole,
            kept,
            newest,
        })
    }

    /// After one more step.
    fn after(self, alloc: Global, row: Row, bytes: &[u8]) -> Result<Self, AllocError>
        requires inside { IsInside (vec_len self.whole) (step row bytes.now) }
        requires len { bytes_of row ≡ length bytes.now }
        ensures { IfOk result (λ l. left_view l ≡ left_after (left_view self) (step row bytes.now)) }
    {
        match row {
            Row::Write { at, .. } => self.written(alloc, at as usize, bytes),
            Row::FailedWrite { at, .. } => self.missed(alloc, at as usize, bytes),
            Row::Append { .. } => self.grown(alloc, bytes),
            Row::FailedAppend { len } => self.grown(alloc, &vec![in alloc; 0u8; len]?),
            Row::Reserve { len, .. } => self.grown(alloc, &vec![in alloc; 0u8; len as usize]?),
            Row::Settle { start, len, known } => {
                if known {
                    self.settled(alloc, start as usize, bytes)
                } else {
                    self.settled(alloc, start as usize, &vec![in alloc; 0u8; len]?)
                }
            }
            Row::Sync => self.synced(alloc),
        }
    }

    /// What is left after all these steps.
    fn after_all(alloc: Global, rows: &[Row], bytes: &[u8]) -> Result<Leaves, AllocError>
        requires whole { total_bytes rows.now ≤ length bytes.now }
        requires inside { AreInside 0 (steps rows.now bytes.now) }
        ensures { IfOk result (λ l. left_view l ≡ left_by (steps rows.now bytes.now)) }
    {
        let mut leaves = Leaves::new(alloc);
        let mut rest = bytes;
        for i in 0..rows.len() {
            let row = rows[i];
            let (own, next) = rest.split_at(row.kept());
            leaves = leaves.after(alloc, row, own)?;
            rest = next;
        }
        Ok(leaves)
    }

    /// The file of a pick.
    fn pick(self, alloc: Global, pick: u8) -> Result<Bytes, AllocError>
        ensures { IfOk result (λ bytes. bytes ≡ picked_of pick (left_view self)) }
    {
        match pick {
            0 => Ok(Bytes::from_vec(self.kept)),
            1 => Ok(Bytes::from_vec(self.whole)),
            _ => {
                let bytes = self.newest.iter().map(|cell| worst(*cell)).collect(alloc)?;
                Ok(Bytes::from_vec(bytes))
            }
        }
    }
}

/// The file of a pick after the first so many steps of a log.
pub fn pick_left(alloc: Global, log: &Log, count: usize, pick: u8) -> Result<Bytes, AllocError>
    requires { AreInside 0 (steps_of log.now) }
    ensures picked { IfOk result (λ bytes. bytes ≡ picked_file pick (take count (steps_of log.now))) }
    ensures leaves { IfOk result (λ bytes. LeavesBehind (steps_of log.now) count bytes) }
{
    let count = count.min(log.rows.len());
    let leaves = Leaves::after_all(alloc, &log.rows[..count], &log.bytes)?;
    leaves.pick(alloc, pick)
}
