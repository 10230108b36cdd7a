//! What stands against merging files of some schemas.

/// The first place of the schemas that stands against merging their files. Files count from 0.
#[derive(Clone, Copy, Debug, PartialEq, Eq)]
pub enum SchemaPlace {
    /// The field, at the top level, isn't open; 0 of a file without fields.
    Closed { file: u32, field: u32 },
    /// The column doesn't begin with the first entry.
    Deferred { file: u32, column: u32 },
    /// The field is another than that of the first file.
    Field { file: u32, id: u32 },
    /// The column is another than that of the first file.
    Column { file: u32, id: u32 },
}
