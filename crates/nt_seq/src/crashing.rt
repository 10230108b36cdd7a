//! The law of what a crash leaves of a file that a sequential writer writes.

ghost use Rattle.nt_seq.specs.Crashes.{AppendsLeave};

use crate::laws::unclosed_files_are_shut;
use nt_crash::filling_leaves_unfinished;
use nt_cuts::ordered_steps_leave_unfinished;

/// Wherever a crash comes behind the first sync, it leaves what isn't finished; only once the first byte was written over, and behind
/// all steps of `close`, it leaves the closed file.
pub fn crashes_leave_closed_or_unfinished()
    ensures { AppendsLeave }
{
    filling_leaves_unfinished();
    ordered_steps_leave_unfinished();
    unclosed_files_are_shut();
}
