//! The laws of whole files.

ghost use Rattle.std.specs.Prelude.{◌≡◌, ◌⊎◌, ◌<◌, ◌^◌, ℕ, List, ◌++◌, length, Ok};
ghost use Rattle.nt_num.specs.declared.fault.ReadError.{ReadError};
ghost use Rattle.nt_types.specs.TreeData.{TreesData};
ghost use Rattle.nt_grammar.specs.Table.{Table};
ghost use Rattle.nt_format.specs.Reading.{standing, IsBytes};
ghost use Rattle.nt_format.specs.Relations.{Agrees};
ghost use Rattle.nt_grammar.specs.ReadingBack.{IsDescribed, up_to};
ghost use Rattle.nt_grammar.specs.declared.part.Part.TheVariants.{Header};
ghost use Rattle.nt_file_meaning.specs.Headers.{header_text, header_payload_at};
ghost use Rattle.nt_file_meaning.specs.Outlines.{outline_of};
ghost use Rattle.nt_file_meaning.specs.Describes.{HasOutline};
ghost use Rattle.nt_file_meaning.specs.Files.{read_file, Means, HasDefect};
ghost use Rattle.nt_file_meaning.specs.Holds.{HoldsFile};

/// A file is read as an outline exactly where it has that outline.
pub fn outlines_are_described()
    ensures { (file : List ℕ) → IsBytes file → Agrees (outline_of file) (HasOutline file) }
{}

/// What is written of the header's rows is read back, whatever follows.
pub fn headers_are_read_back()
    ensures { (t : Table) (place : ℕ) (rest : List ℕ) → IsDescribed t → length t.fields < 2 ^ 32 → length t.columns < 2 ^ 32
        → length (header_text t) < 2 ^ 63 → header_payload_at (standing place (header_text t ++ rest)) ≡ Ok (up_to Header t) }
{}

/// A file is read as a schema and entries exactly where it holds them.
pub fn files_hold_what_they_mean()
    ensures { (file : List ℕ) → IsBytes file → Agrees (read_file file) (HoldsFile file) }
{}

/// A file means one schema and the entries of its clusters, or it has one first fault, and never
/// both.
pub fn files_have_one_meaning()
    ensures means { (file : List ℕ) (t u : Table) (ks ls : List (List TreesData)) → Means file t ks → Means file u ls
        → (t ≡ u) × (ks ≡ ls) }
    ensures defect { (file : List ℕ) (e f : ReadError) → HasDefect file e → HasDefect file f → e ≡ f }
    ensures some { (file : List ℕ) → ((t : Table) × (ks : List (List TreesData)) × Means file t ks) ⊎ ((e : ReadError) × HasDefect file e) }
    ensures apart { (file : List ℕ) (t : Table) (ks : List (List TreesData)) (e : ReadError) → Means file t ks → HasDefect file e → ⊥ }
{}
