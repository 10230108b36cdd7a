//! The types of columns: their codes in a header, and the bits of an element.

/// How a column stores its elements. Floating-point columns are not among them.
#[derive(Clone, Copy, PartialEq, Eq, Debug)]
pub enum ColumnType {
    Bit,
    Byte,
    Char,
    Int8,
    UInt8,
    Int16,
    UInt16,
    Int32,
    UInt32,
    Int64,
    UInt64,
    Index32,
    Index64,
    Switch,
    SplitInt16,
    SplitUInt16,
    SplitInt32,
    SplitUInt32,
    SplitInt64,
    SplitUInt64,
    SplitIndex32,
    SplitIndex64,
}

impl ColumnType {
    ghost use Rattle.std.specs.Prelude.{◌≡◌, IfSome, Some};
    ghost use Rattle.nt_types.specs.ColumnTable.{code_of, bits_of};

    /// The code that stands for this type in a column description.
    pub fn code(&self) -> u16
        ensures { result ≡ code_of self.now }
    {
        match self {
            ColumnType::Bit => 0x00,
            ColumnType::Byte => 0x01,
            ColumnType::Char => 0x02,
            ColumnType::Int8 => 0x03,
            ColumnType::UInt8 => 0x04,
            ColumnType::Int16 => 0x05,
            ColumnType::UInt16 => 0x06,
            ColumnType::Int32 => 0x07,
            ColumnType::UInt32 => 0x08,
            ColumnType::Int64 => 0x09,
            ColumnType::UInt64 => 0x0A,
            ColumnType::Index32 => 0x0E,
            ColumnType::Index64 => 0x0F,
            ColumnType::Switch => 0x10,
            ColumnType::SplitInt16 => 0x11,
            ColumnType::SplitUInt16 => 0x12,
            ColumnType::SplitInt32 => 0x13,
            ColumnType::SplitUInt32 => 0x14,
            ColumnType::SplitInt64 => 0x15,
            ColumnType::SplitUInt64 => 0x16,
            ColumnType::SplitIndex32 => 0x1A,
            ColumnType::SplitIndex64 => 0x1B,
        }
    }

    /// How many bits an element takes in a page.
    pub fn bits(&self) -> u16
        ensures { result ≡ bits_of self.now }
    {
        match self {
            ColumnType::Bit => 1,
            ColumnType::Byte | ColumnType::Char | ColumnType::Int8 | ColumnType::UInt8 => 8,
            ColumnType::Int16
            | ColumnType::UInt16
            | ColumnType::SplitInt16
            | ColumnType::SplitUInt16 => 16,
            ColumnType::Int32
            | ColumnType::UInt32
            | ColumnType::Index32
            | ColumnType::SplitInt32
            | ColumnType::SplitUInt32
            | ColumnType::SplitIndex32 => 32,
            ColumnType::Int64
            | ColumnType::UInt64
            | ColumnType::Index64
            | ColumnType::SplitInt64
            | ColumnType::SplitUInt64
            | ColumnType::SplitIndex64 => 64,
            ColumnType::Switch => 96,
        }
    }

    /// The type of this code. Codes of floating-point columns have none here.
    pub fn of_code(code: u16) -> Option<ColumnType>
        ensures found { IfSome result (λ t. code_of t ≡ code) }
        // No two types share a code, and none is left out.
        ensures each { (t : ColumnType) → code_of t ≡ code → result ≡ Some t }
    {
        match code {
            0x00 => Some(ColumnType::Bit),
            0x01 => Some(ColumnType::Byte),
            0x02 => Some(ColumnType::Char),
            0x03 => Some(ColumnType::Int8),
            0x04 => Some(ColumnType::UInt8),
            0x05 => Some(ColumnType::Int16),
            0x06 => Some(ColumnType::UInt16),
            0x07 => Some(ColumnType::Int32),
            0x08 => Some(ColumnType::UInt32),
            0x09 => Some(ColumnType::Int64),
            0x0A => Some(ColumnType::UInt64),
            0x0E => Some(ColumnType::Index32),
            0x0F => Some(ColumnType::Index64),
            0x10 => Some(ColumnType::Switch),
            0x11 => Some(ColumnType::SplitInt16),
            0x12 => Some(ColumnType::SplitUInt16),
            0x13 => Some(ColumnType::SplitInt32),
            0x14 => Some(ColumnType::SplitUInt32),
            0x15 => Some(ColumnType::SplitInt64),
            0x16 => Some(ColumnType::SplitUInt64),
            0x1A => Some(ColumnType::SplitIndex32),
            0x1B => Some(ColumnType::SplitIndex64),
            _ => None,
        }
    }
}
