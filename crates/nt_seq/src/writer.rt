//! A sequential writer.

ghost use Rattle.std.specs.Prelude.{◌≡◌, ◌↔◌, [], true, false, length, IsTrue, IfOk, IfErr};
ghost use Rattle.nt_types.specs.Rules.{AreFields};
ghost use Rattle.nt_types.specs.Views.{members_view};
ghost use Rattle.nt_outside.specs.Held.{BecomesSome};
ghost use Rattle.nt_close.specs.Beginning.{IsNotBegun};
ghost use Rattle.nt_column.specs.Column.{columns_of};
ghost use Rattle.nt_grammar.specs.Table.{Table};
ghost use Rattle.nt_grammar.specs.Rows.{Rows};
ghost use Rattle.nt_seq.specs.Standing.{IsBlankDisk, IsFitToBegin};
ghost use Rattle.nt_seq.specs.Writer.{gathered_by};
ghost use Rattle.nt_seq.specs.Written.{IsUnclosedOf};
ghost use Rattle.nt_seq.specs.Changing.{BeginsFile};

use nt_book::{Book, Params};
use nt_close::{BeginError, begin};
use nt_column::ColumnSet;
use nt_fill::empty_columns;
use nt_outside::Disk;
use nt_schema::{
    Schema, describe, described_fields_are_open, descriptions_are_one, schemas_are_described,
};
use nt_shred::Direct;
use nt_types::Fields;
use std::alloc::{AllocError, Global};
use std::marker::Model;
use std::snapshot::Snapshot;

/// Gathers entries in columns, and writes them as the clusters of a file, one after the other. It
/// is alive until a call on its disk fails, or memory is wanting while a field is added.
pub struct SeqWriter<D: Disk> {
    pub(crate) alloc: Global,
    pub(crate) given: Snapshot<D>,
    pub(crate) disk: D,
    pub(crate) book: Book,
    pub(crate) begun: Snapshot<Schema>,
    pub(crate) schema: Schema,
    pub(crate) params: Params,
    pub(crate) columns: ColumnSet,
    /// How many entries the columns have.
    pub(crate) entries: u32,
    pub(crate) alive: bool,
    /// Memory for the next image.
    pub(crate) spare: Vec<u8>,
    pub(crate) direct: Direct,
}

impl<D: Disk> Model for SeqWriter<D> {
    ghost use Rattle.nt_column.specs.Column.{columns_of};
    ghost use Rattle.nt_shred.specs.Lines.{KnowsRoom};
    ghost use Rattle.nt_seq.specs.Writer.{SeqState};
    ghost use Rattle.nt_seq.specs.Standing.{IsSequential};

    ghost Value = { SeqState D };

    ghost view = { λ w. record {
      given = w.given.value;
      disk = w.disk;
      book = w.book;
      begun = w.begun.value;
      table = w.schema;
      params = w.params;
      columns = columns_of w.columns;
      entries = w.entries;
      alive = w.alive;
    } };

    ghost invariant = { λ w. IsSequential D.state record {
      given = w.given.value;
      disk = w.disk;
      book = w.book;
      begun = w.begun.value;
      table = w.schema;
      params = w.params;
      columns = columns_of w.columns;
      entries = w.entries;
      alive = w.alive;
    } × KnowsRoom w.direct w.columns };
}

/// Columns without elements for the schema of these fields.
fn columns_for(alloc: Global, fields: &Fields, plain: bool) -> Result<ColumnSet, AllocError>
    requires { AreFields (members_view fields.now) }
    ensures { IfOk result (λ set. (t : Table) → Rows (members_view fields.now) plain t
        → IsFitToBegin t (columns_of set)) }
{
    descriptions_are_one();
    described_fields_are_open();
    let schema = describe(alloc, fields, plain)?;
    empty_columns(alloc, &schema)
}

impl<D: Disk> SeqWriter<D> {
    /// Begins the file of these fields on an empty disk, whose clusters aren't staged. Where that fails the disk comes back, with
    /// what `begin` of nt_close leaves.
    pub fn new(
        alloc: Global,
        disk: D,
        fields: &Fields,
        params: &Params,
    ) -> Result<SeqWriter<D>, (D, BeginError)>
        requires fields { AreFields (members_view fields.now) }
        requires blank { IsBlankDisk (D.state disk) }
        requires unstaged { params.now.staged ≡ false }
        ensures ok { IfOk result (λ w. BeginsFile D.state (members_view fields.now) params.now disk w) }
        ensures err { IfErr result (λ e. IsNotBegun (members_view fields.now) params.now
            (D.state disk) (D.state e.0) e.1) }
    {
        schemas_are_described();
        let Ok(columns) = columns_for(alloc, fields, params.plain) else {
            return Err((disk, BeginError::Memory));
        };
        let given = Snapshot::of(&disk);
        let mut disk = disk;
        match begin(alloc, &mut disk, fields, params) {
            Ok((book, schema)) => {
                let begun = Snapshot::of(&schema);
                Ok(SeqWriter {
                    alloc,
                    given,
                    disk,
                    book,
                    begun,
                    schema,
                    params: *params,
                    columns,
                    entries: 0,
                    alive: true,
                    spare: Vec::new(alloc),
                    direct: Direct::new(alloc),
                })
            }
            Err(error) => {
                drop(given);
                Err((disk, error))
            }
        }
    }

    /// Whether it has gathered a whole cluster.
    #[tactic(auto, using(nt_fill::proofs::Entries::entries_count))]
    pub fn full(&self) -> bool
        ensures { IsTrue result ↔ (length (gathered_by self.now) ≡ self.now.params.cluster) }
    {
        self.entries == self.params.cluster
    }

    /// Whether no call on its disk has failed, and no memory was wanting while a field was added.
    pub fn alive(&self) -> bool
        ensures { result ≡ self.now.alive }
    {
        self.alive
    }

    /// How many entries it has gathered.
    #[tactic(auto, using(nt_fill::proofs::Entries::entries_count))]
    pub fn gathered(&self) -> u64
        ensures { result ≡ length (gathered_by self.now) }
    {
        u64::from(self.entries)
    }

    /// The disk as it is: it holds the file that was begun with the first schema, not closed. What is
    /// gathered is dropped.
    pub fn abandon(self) -> D
        ensures disk { result ≡ self.disk }
        ensures unclosed { BecomesSome (D.state self.given).held (D.state result).held
            (λ h h'. IsUnclosedOf self.begun h') }
    {
        let SeqWriter {
            alloc: _,
            given,
            disk,
            book: _,
            begun,
            schema: _,
            params: _,
            columns: _,
            entries: _,
            alive: _,
            spare: _,
            direct: _,
        } = self;
        drop(given);
        drop(begun);
        disk
    }
}
