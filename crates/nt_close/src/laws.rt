//! Laws on what the steps leave by which a file is begun and closed.

ghost use Rattle.nt_close.specs.Laws.{ClosedIsFinished, FirstByteIsLast, StepsStayInOrder};

/// A file that was filled with ranges of a book is the finished file with these ranges once it is
/// closed, whether its page lists stand beside its clusters or behind all ranges.
pub fn closed_is_finished()
    ensures { ClosedIsFinished }
{}

/// Until all steps are taken the first byte is 0; where one failed and the file stands there whole
/// nevertheless, it was the step of that byte or the sync behind it.
pub fn first_byte_is_last()
    ensures { FirstByteIsLast }
{}

/// The steps keep a log in order: all that is written stays before the first byte is written over.
pub fn steps_stay_in_order()
    ensures { StepsStayInOrder }
{}
