//! A context that gathers entries.

ghost use Rattle.std.specs.Prelude.{◌≡◌, ◌↔◌, [], length, Some, IsSome, IsTrue, IfOk, IfErr};
ghost use Rattle.nt_book.specs.Ranges.{IsFromTo, max_page};
ghost use Rattle.nt_column.specs.Column.{columns_of};
ghost use Rattle.nt_pages.specs.Image.{image};
ghost use Rattle.nt_pages.specs.Metas.{cluster_meta};
ghost use Rattle.nt_trees.specs.Described.{AreDescribed};
ghost use Rattle.nt_commit.specs.declared.error.CommitError.TheVariants.{Memory};
ghost use Rattle.nt_commit.specs.Holds.{IsPassOf, HasNoneOut};
ghost use Rattle.nt_fill.specs.Context.{IsFreshPass, IsTableFor, gathered};

use crate::columns::empty_columns;
use nt_book::Params;
use nt_column::ColumnSet;
use nt_commit::{CommitError, Committer, CommitterOf, Locked};
use nt_outside::Disk;
use nt_pages::{ClusterImage, build_in};
use nt_schema::{Schema, described_fields_are_open};
use nt_shred::Direct;
use nt_turn::{Logged, Pass};
use std::alloc::{AllocError, Global};
use std::marker::Model;

/// What holds of a context over a value that is locked.
pub trait Gathering: Logged {
    ghost use Rattle.nt_fill.specs.Context.{FillState};

    ghost gathering: { (P : Type 0) → FillState Self.Entry Self.Birth P → Type 0 };
}

impl<D: Disk> Gathering for Locked<D> {
    ghost use Rattle.nt_fill.specs.Context.{IsGathering};

    ghost gathering = { λ P. IsGathering };
}

/// Entries in columns.
#[derive(Drop)]
pub(crate) struct Store {
    pub(crate) alloc: Global,
    pub(crate) columns: ColumnSet,
    /// How many entries the columns have.
    pub(crate) entries: u32,
    /// The most entries of a cluster.
    pub(crate) cluster: u32,
    /// The most elements of a page.
    pub(crate) page: u32,
    /// Whether its clusters are published together.
    pub(crate) staged: bool,
    /// Memory for the next image.
    pub(crate) spare: Vec<u8>,
    pub(crate) direct: Direct,
}

impl Store {
    /// The image of the cluster of all entries, in memory that an earlier image had.
    pub(crate) fn image(
        &self,
        memory: Vec<u8>,
        schema: &Schema,
        context: u32,
    ) -> Result<ClusterImage, CommitError>
        requires page { IsFromTo 1 max_page self.now.page }
        requires columns { AreDescribed (columns_of self.now.columns) schema.now.columns }
        ensures bytes { IfOk result (λ i. i.bytes ≡ image self.now.page (columns_of self.now.columns)) }
        ensures meta { IfOk result (λ i. i.meta
            ≡ cluster_meta self.now.page context self.now.entries (columns_of self.now.columns)) }
        ensures err { IfErr result (λ e. e ≡ Memory) }
    {
        let entries = u64::from(self.entries);
        match build_in(memory, &self.columns, schema, self.page, context, entries) {
            Ok(image) => Ok(image),
            Err(AllocError) => Err(CommitError::Memory),
        }
    }
}

/// Gathers the entries of one context in columns, and writes them as clusters through a committer.
/// It is alive until its pen fails.
pub struct FillContextOf<'a, V: Gathering, P> {
    pub(crate) committer: &'a CommitterOf<V>,
    pub(crate) schema: &'a Schema,
    pub(crate) pass: Pass<V>,
    pub(crate) pen: Option<P>,
    pub(crate) store: Store,
}

impl<'a, V: Gathering, P> Model for FillContextOf<'a, V, P> {
    ghost use Rattle.nt_column.specs.Column.{columns_of};
    ghost use Rattle.nt_fill.specs.Context.{FillState};
    ghost use Rattle.nt_shred.specs.Lines.{KnowsRoom};

    ghost Value = { FillState V.Entry V.Birth P };

    ghost view = { λ c. record {
      committer = c.committer.now;
      table = c.schema.now;
      cluster = c.store.cluster;
      page = c.store.page;
      staged = c.store.staged;
      pass = c.pass;
      pen = c.pen;
      columns = columns_of c.store.columns;
      entries = c.store.entries;
    } };

    ghost invariant = { λ c. V.gathering P record {
      committer = c.committer.now;
      table = c.schema.now;
      cluster = c.store.cluster;
      page = c.store.page;
      staged = c.store.staged;
      pass = c.pass;
      pen = c.pen;
      columns = columns_of c.store.columns;
      entries = c.store.entries;
    } × KnowsRoom c.store.direct c.store.columns };
}

/// A context over a disk.
pub type FillContext<'a, D> = FillContextOf<'a, Locked<D>, <D as Disk>::Pen>;

impl<'a, D: Disk> FillContext<'a, D> {
    /// A context that has gathered nothing, with a pass and a pen from `enter` of this committer,
    /// whose clusters are staged exactly where the parameters say so. Without memory both come back.
    pub fn new(
        alloc: Global,
        committer: &'a Committer<D>,
        schema: &'a Schema,
        params: &Params,
        pass: Pass<Locked<D>>,
        pen: D::Pen,
    ) -> Result<FillContext<'a, D>, (Pass<Locked<D>>, D::Pen, AllocError)>
        requires schema { IsTableFor committer.now.birth.columns schema.now }
        requires pass { IsFreshPass params.now.staged committer.now pass }
        ensures ok { IfOk result (λ c. c ≡ record {
          committer = committer.now;
          table = schema.now;
          cluster = params.now.cluster;
          page = params.now.page;
          staged = params.now.staged;
          pass = pass;
          pen = Some pen;
          columns = c.columns;
          entries = 0;
        }) }
        ensures err { IfErr result (λ e. (e.0 ≡ pass) × (e.1 ≡ pen)) }
    {
        described_fields_are_open();
        match empty_columns(alloc, schema) {
            Ok(columns) => Ok(FillContextOf {
                committer,
                schema,
                pass,
                pen: Some(pen),
                store: Store {
                    alloc,
                    columns,
                    entries: 0,
                    cluster: params.cluster,
                    page: params.page,
                    staged: params.staged,
                    spare: Vec::new(alloc),
                    direct: Direct::new(alloc),
                },
            }),
            Err(error) => Err((pass, pen, error)),
        }
    }

    /// Whether it has gathered a whole cluster.
    #[tactic(auto, using(crate::proofs::Entries::gathered_length))]
    pub fn full(&self) -> bool
        ensures { IsTrue result ↔ (length (gathered self.now) ≡ self.now.cluster) }
    {
        self.store.entries == self.store.cluster
    }

    /// Whether no fill of a range has failed.
    pub fn alive(&self) -> bool
        ensures { IsTrue result ↔ IsSome self.now.pen }
    {
        self.pen.is_some()
    }

    /// How many entries it has gathered.
    #[tactic(auto, using(crate::proofs::Entries::gathered_length))]
    pub fn gathered(&self) -> u64
        ensures { result ≡ length (gathered self.now) }
    {
        u64::from(self.store.entries)
    }

    /// Its pass, and its pen while it is alive. What is gathered is dropped.
    pub fn end(self) -> (Pass<Locked<D>>, Option<D::Pen>)
        ensures parts { (result.0 ≡ self.entry.pass) × (result.1 ≡ self.entry.pen) }
        ensures pass { IsPassOf self.entry.committer self.entry.pass }
        ensures none_out { HasNoneOut self.entry.pass.own }
    {
        let FillContextOf {
            committer: _,
            schema: _,
            pass,
            pen,
            store: _,
        } = self;
        (pass, pen)
    }
}
