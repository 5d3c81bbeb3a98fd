//! Laws of the definitions.
ghost use Rattle.seg_batches.specs.Laws.{AppliedDeletesLeaveTheAlive};

use seg_model::{alive_by_postings, deletes_clear_in_turn};

/// Of the documents that a batch adds the deletes that wait leave those that no later operation removes.
pub fn applied_deletes_leave_the_alive()
    ensures { AppliedDeletesLeaveTheAlive }
{
    alive_by_postings();
    deletes_clear_in_turn();
}
