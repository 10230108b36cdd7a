//! The payloads of headers, page lists and footers as a grammar, and whole files by it: relations of
//! bytes and what they say, in the standard's words, with no faults and in no reader's order; and the
//! laws that the readings of nt_grammar, nt_pagelists and nt_file_meaning agree with them, of any
//! bytes. Nothing here runs (RNTuple Binary Format Specification 1.0.0.0, sections Header Envelope,
//! Page List Envelope and Footer Envelope).
//!
//! Start at `IsNtupleFile` in `specs/Files.antt`, which says when a file is that of an ntuple with a
//! schema and entries. It is made of `IsOutlined` in `specs/Outlines.antt`, which says how container,
//! header, footer and page lists give the schema and the clusters, and of `HoldsClusters` of
//! nt_file_meaning, which says how pages give entries. A payload is a page list (`IsPageList` in
//! `specs/Conditions.antt`) where its bytes are the text of these clusters (`PageListText` of
//! `specs/ListTexts.antt`), and the clusters are what group, schema and earlier page lists require.
//! `IsFooter` of `specs/Footers.antt` and `IsHeaderPayload` of `specs/Descriptions.antt` say the same
//! of the others. `specs/Framed.antt` has what stands in frames, behind whose known contents any bytes
//! may follow.
//!
//! Words: a *text* is the bytes of a value, at the place where they begin; a cluster, a group or a
//! row is *behind* others where it goes on from them.
//!
//! Proved, each as the contract of a function with an empty body: bytes are read as a page list
//! exactly where they are one, and as what it lists (`page_lists_are_described`); the same of
//! footers (`footers_are_described`), headers (`headers_are_described`) and schema descriptions
//! (`descriptions_are_described`); and what nt_file_meaning says of the payloads of a file by their
//! readings is this grammar (`payloads_of_files_are_described`), so that a file has an outline exactly
//! where `IsOutlined` of `specs/Outlines.antt` says so, in which no reading of a payload stands
//! (`outlines_are_of_payloads`), and means a schema and entries exactly where `IsNtupleFile` says that
//! it is the file of these (`files_mean_what_they_are`). That the definitions are the standard's rests
//! on reading them.
//!
//! Choices that bind nobody else: what pages, groups and rows can hold, and when a column is sound,
//! are the conditions that nt_pagelists and nt_grammar have already; each is about what is listed
//! and says nothing of a reading.
#![tactic(auto)]

mod laws;

pub use laws::{
    descriptions_are_described, files_mean_what_they_are, footers_are_described,
    headers_are_described, outlines_are_of_payloads, page_lists_are_described,
    payloads_of_files_are_described,
};
