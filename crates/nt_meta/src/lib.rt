//! Page lists and footers of an RNTuple file, read and written (RNTuple Binary Format Specification
//! 1.0.0.0, sections Page List Envelope and Footer Envelope).
//!
//! `read_footer` and then `read_page_list` for each of its groups read the payloads of envelopes;
//! `write_page_list` tells of a book's clusters, `write_footer` of groups, each as an envelope;
//! `due_list` gives the page list that a book is due, behind room for the key of its blob.
//! Start at `reading_list.rt` and `writing_list.rt`. What the bytes mean is said in `nt_pagelists`,
//! whose words hold here too; *known* columns are those of a schema, made once for all page lists.
//!
//! Proved: both readers answer exactly the reading, or its first fault (`Answers` of
//! `page_list_at` and `footer_at`), and count what they read; both writers give exactly the envelope
//! of the spelling; headers and footers are written of rows alone that a description holds whole
//! (`AreWhole` of nt_schema). A count in a file costs nothing that its bytes don't keep: nothing is
//! reserved for it, and lists grow by what was read. Only tested: time is linear in the payload, as
//! no cluster looks at each column that it doesn't list.
//!
//! Choices that bind nobody else: a payload of 2^47 bytes or more, which no machine holds, is want
//! of memory where it should be written; running sums of entries are 128 bits wide, and those of
//! elements stay at 2^64 - 1, which no offset can meet.
#![tactic(auto)]

mod descriptions;
mod due;
mod error;
mod faults;
mod headers;
mod judging;
mod known;
mod progress;
mod reading_clusters;
mod reading_columns;
mod reading_footer;
mod reading_groups;
mod reading_list;
mod reading_pages;
mod reading_summaries;
mod sealing;
mod words;
mod writing_columns;
mod writing_footer;
mod writing_list;

pub use due::due_list;
pub use error::MetaError;
pub use headers::{read_header, write_header};
pub use known::KnownColumns;
pub use progress::Progress;
pub use reading_footer::read_footer;
pub use reading_list::read_page_list;
pub use writing_footer::write_footer;
pub use writing_list::write_page_list;
