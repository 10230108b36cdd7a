//! What never changes of a sink.

use nt_book::Params;
use nt_schema::Schema;

/// What no put changes: the disk as it was given, and the schema and the parameters of its file. No value of it is made.
pub struct SinkBirth<D> {
    pub given: D,
    pub schema: Schema,
    pub params: Params,
}
