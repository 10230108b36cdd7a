//! The laws of the container's parts, and of files that are made of them.

ghost use Rattle.nt_container.specs.Laws.{AnchorsAreEmbedded, MiddlesAreFound, BlobsAreFound, PartLengths, BeginIsGated, WordsAreRead, UnfinishedIsFirst, FinishedIsRead};

/// A file is read as an anchor exactly where it embeds that anchor.
pub fn anchors_are_embedded()
    ensures { AnchorsAreEmbedded }
{}

/// A finished file is read as its anchor, whatever stands in its middle.
pub fn finished_is_read()
    ensures { FinishedIsRead }
{}

/// A part of the middle of a finished file stands where the lengths before it say.
pub fn middles_are_found()
    ensures { MiddlesAreFound }
{}

/// The object of a blob stands behind the blob's key.
pub fn blobs_are_found()
    ensures { BlobsAreFound }
{}

/// The lengths of the container's parts.
pub fn parts_have_lengths()
    ensures { PartLengths }
{}

/// A file that is empty or begins with 0 isn't finished, whatever else is wrong with it.
pub fn unfinished_is_first()
    ensures { UnfinishedIsFirst }
{}

/// What is written first is shut by its first byte.
pub fn begin_is_gated()
    ensures { BeginIsGated }
{}

/// Strings of either form and places of either size are read, whatever follows.
pub fn words_are_read()
    ensures { WordsAreRead }
{}
