//! The laws that join the readings of payloads to their grammar.

ghost use Rattle.std.specs.Prelude.{ℕ, ◌<◌, ◌^◌, List, All};
ghost use Rattle.nt_types.specs.TreeData.{TreesData};
ghost use Rattle.nt_num.specs.Place.{At};
ghost use Rattle.nt_format.specs.Reading.{standing, IsBytes};
ghost use Rattle.nt_format.specs.Relations.{Agrees, Stands};
ghost use Rattle.nt_grammar.specs.Table.{Table};
ghost use Rattle.nt_grammar.specs.Reading.{description_at};
ghost use Rattle.nt_grammar.specs.declared.part.Part.{Part};
ghost use Rattle.nt_pagelists.specs.declared.column.KnownColumn.{KnownColumn};
ghost use Rattle.nt_pagelists.specs.declared.cluster.ClusterList.{ClusterList};
ghost use Rattle.nt_pagelists.specs.declared.group.Group.{Group};
ghost use Rattle.nt_pagelists.specs.PageLists.{ProgressCounts, page_list_at};
ghost use Rattle.nt_pagelists.specs.Footers.{footer_at};
ghost use Rattle.nt_file_meaning.specs.Envelopes.{Sealed, Block, IsEnvelope};
ghost use Rattle.nt_file_meaning.specs.Headers.{header_payload_at};
ghost use Rattle.nt_file_meaning.specs.Outlines.{Outline, outline_of};
ghost use Rattle.nt_file_meaning.specs.Files.{Means};
ghost use Rattle.nt_file_meaning.specs.Describes.{DescribesHeader, DescribesFooter, DescribesClusters, HasOutline};
ghost use Rattle.nt_payloads.specs.Conditions.{IsPageList};
ghost use Rattle.nt_payloads.specs.Descriptions.{AddsDescription, IsHeaderPayload};
ghost use Rattle.nt_payloads.specs.Footers.{IsFooter};
ghost use Rattle.nt_payloads.specs.Outlines.{IsOutlined};
ghost use Rattle.nt_payloads.specs.Files.{IsNtupleFile, IsReadAsItIs};

/// Bytes are read as a description exactly where one stands in front of them: as the rows that were
/// there with its own.
pub fn descriptions_are_described()
    ensures { (part : Part) (t : Table) (here : At) → IsBytes here.left
        → Agrees (description_at part t here) (Stands (AddsDescription part t here.place) here) }
{}

/// Bytes are read as the payload of a header exactly where they are one.
pub fn headers_are_described()
    ensures { (place : ℕ) (payload : List ℕ) → IsBytes payload
        → Agrees (header_payload_at (standing place payload)) (IsHeaderPayload place payload) }
{}

/// Bytes are read as the payload of a page list exactly where they are one: as these clusters, and
/// as what was listed with them.
pub fn page_lists_are_described()
    ensures { (sum : ℕ) (g : Group) (columns : List KnownColumn) (before : ProgressCounts) (place : ℕ) (payload : List ℕ)
        → IsBytes payload
        → Agrees (page_list_at sum g columns before (standing place payload)) (IsPageList sum g columns before place payload) }
{}

/// Bytes are read as the payload of a footer exactly where they are one: as the rows of the header
/// with those of its extension, and as its groups.
pub fn footers_are_described()
    ensures { (sum : ℕ) (header : Table) (place : ℕ) (payload : List ℕ) → IsBytes payload
        → Agrees (footer_at sum header (standing place payload)) (IsFooter sum header place payload) }
{}

/// The payloads of a file of bytes are bytes, and what an outline says of them by readings is this
/// grammar.
pub fn payloads_of_files_are_described()
    ensures bytes { (file : List ℕ) (kind : ℕ) (block : Block) (is : Sealed) → IsBytes file → IsEnvelope file kind block is
        → IsBytes is.payload }
    ensures headers { (payload : List ℕ) (t : Table) → IsBytes payload
        → (DescribesHeader payload t → IsHeaderPayload 0 payload t) × (IsHeaderPayload 0 payload t → DescribesHeader payload t) }
    ensures footers { (payload : List ℕ) (sum : ℕ) (header t : Table) (gs : List Group) → IsBytes payload
        → (DescribesFooter payload sum header t gs → IsFooter sum header 0 payload (t, gs))
        × (IsFooter sum header 0 payload (t, gs) → DescribesFooter payload sum header t gs) }
    ensures page_lists { (payload : List ℕ) (sum : ℕ) (columns : List KnownColumn) (g : Group) (before after : ProgressCounts)
        (ks : List ClusterList) → IsBytes payload
        → (DescribesClusters payload sum columns g before ks after → IsPageList sum g columns before 0 payload (ks, after))
        × (IsPageList sum g columns before 0 payload (ks, after) → DescribesClusters payload sum columns g before ks after) }
{}

/// A file of bytes is read as an outline exactly where it is outlined so by its payloads, and that
/// is when it has that outline.
pub fn outlines_are_of_payloads()
    ensures read { (file : List ℕ) → IsBytes file → Agrees (outline_of file) (IsOutlined file) }
    ensures same { (file : List ℕ) (o : Outline) → IsBytes file
        → (HasOutline file o → IsOutlined file o) × (IsOutlined file o → HasOutline file o) }
{}

/// A file of bytes means a schema and the entries of its clusters exactly where it is the file of an
/// ntuple that has these; and its outline is read exactly where it has that.
pub fn files_mean_what_they_are()
    ensures means { (file : List ℕ) (t : Table) (clusters : List (List TreesData)) → All (λ (b : ℕ). b < 2 ^ 8) file
        → (Means file t clusters → IsNtupleFile file (t, clusters)) × (IsNtupleFile file (t, clusters) → Means file t clusters) }
    ensures read { (file : List ℕ) → All (λ (b : ℕ). b < 2 ^ 8) file → IsReadAsItIs file }
{}
