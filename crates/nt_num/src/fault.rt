//! What is wrong with a file.

ghost use Rattle.std.specs.Prelude.{◌≡◌, ◌≤◌, length};

/// The first fault of a file. Parts that a code does not use are 0.
#[derive(Clone, Copy, Debug, PartialEq, Eq)]
pub struct ReadError {
    /// Which fault it is: a number from 1 to 22.
    pub code: u8,
    /// Where it is, in bytes from the beginning of the file.
    pub at: u64,
    /// The cluster, by its number in the file.
    pub cluster: u32,
    /// The column, by its id.
    pub column: u32,
    /// The element in the column, in this cluster.
    pub element: u64,
    /// What stands there.
    pub kept: u64,
    /// What was found in its place: computed, or required.
    pub found: u64,
}

impl ReadError {
    ghost use Rattle.nt_num.specs.Faults.{name_of};

    /// The name of the code.
    pub fn name(&self) -> &'static str
        ensures name { result.now ≡ name_of self.now.code }
        ensures short { length result.now ≤ 14 }
    {
        match self.code {
            0 => "Unknown",
            1 => "Unfinished",
            2 => "NotRoot",
            3 => "BadFileHeader",
            4 => "BadDirectory",
            5 => "BadKeyList",
            6 => "NoNTuple",
            7 => "BadAnchor",
            8 => "Epoch",
            9 => "Compressed",
            10 => "OutOfFile",
            11 => "BadEnvelope",
            12 => "BadFrame",
            13 => "FeatureFlags",
            14 => "BadField",
            15 => "BadColumn",
            16 => "HeaderMismatch",
            17 => "BadGroup",
            18 => "BadCluster",
            19 => "BadPageList",
            20 => "DeferredInside",
            21 => "BadPage",
            22 => "BadValue",
            23.. => "Unknown",
        }
    }
}
