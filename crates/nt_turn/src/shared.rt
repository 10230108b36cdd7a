//! That threads may share a turn, and hand passes on.

use crate::logged::Logged;
use crate::pass::Pass;
use crate::turn::Turn;

fn may_be_sent<T: Send>() {}

fn may_be_shared<T: Sync>() {}

/// Where the value may go to another thread, so may a turn and its passes, and threads may share the turn.
pub fn turns_cross_threads<V: Logged + Send>() {
    may_be_sent::<Turn<V>>();
    may_be_shared::<Turn<V>>();
    may_be_sent::<Pass<V>>();
}
