//! That threads may share a committer, and hand claims on.

use crate::claim::Claim;
use crate::committer::Committer;
use crate::locked::Locked;
use nt_outside::Disk;
use nt_turn::Pass;

fn may_be_sent<T: Send>() {}

fn may_be_shared<T: Sync>() {}

/// Where the disk and its extents may go to another thread, so may a committer, its passes and claims, and threads may share the
/// committer.
pub fn committers_cross_threads<D: Disk + Send>()
where
    D::Ext: Send,
    D::Pen: Send,
{
    may_be_sent::<Committer<D>>();
    may_be_shared::<Committer<D>>();
    may_be_sent::<Pass<Locked<D>>>();
    may_be_sent::<Claim<D::Ext>>();
}
