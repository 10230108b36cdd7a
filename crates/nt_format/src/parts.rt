//! The laws of pieces: where the parts of a file stand.

ghost use Rattle.nt_format.specs.Pieces.{PartsAreFound, InsidesAreFound};

/// A part stands where the lengths of those before it say.
pub fn parts_are_found()
    ensures { PartsAreFound }
{}

/// What stands inside of a piece is a piece of the file.
pub fn insides_are_found()
    ensures { InsidesAreFound }
{}
