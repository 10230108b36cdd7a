//! One line.

ghost use Rattle.std.specs.Prelude.{◌≡◌, ◌≤◌, ◌<◌, ◌^◌, List, length, MatchBool, OnOk};
ghost use Rattle.std.specs.Str.{IsUtf8};
ghost use Rattle.nt_column.specs.Column.{Buffer, columns_of};
ghost use Rattle.nt_trees.specs.Views.{plans_in};
ghost use Rattle.nt_shred.specs.Places.{Grew, lengths_of};
ghost use Rattle.nt_shred.specs.Walk.{CanPutEach};
ghost use Rattle.nt_shred.specs.Lines.{PutsLine, IsSoundSet, PutsEntry, KnowsRoom};

use crate::room::{cut_back, make_room, note};
use crate::values::each;
use nt_column::ColumnSet;
use nt_event::{after, after_blanks};
use nt_plans::{Plan, columns_differ, columns_have_types};
use nt_schema::Schema;
use std::alloc::{AllocError, Global};

/// The most bytes of a line that is taken.
const MOST: usize = 4096;

/// Puts lines to columns. It keeps memory for what is noted of the columns, and how much room they have.
#[derive(Drop)]
pub struct Direct {
    marks: Vec<usize>,
    /// Each column has room for so many more elements, where it isn't 0.
    room: usize,
}

/// Adds the values of an entry, one for each plan. Says whether they are the whole line.
fn put_entry(out: &mut ColumnSet, plans: &[Plan], line: &[u8]) -> bool
    requires { CanPutEach (plans_in plans.now) (length line.now) out.old }
    ensures { MatchBool result (PutsLine (plans_in plans.now) line.now out.old out.new)
        (Grew out.old out.new) }
{
    let Some(first) = after(line, 0, b'[') else {
        return false;
    };
    match each(out, plans, line, first) {
        Some(end) => after_blanks(line, end) == line.len(),
        None => false,
    }
}

impl Direct {
    pub fn new(alloc: Global) -> Direct
        ensures { (bs : List Buffer) → KnowsRoom result bs }
    {
        Direct {
            marks: Vec::new(alloc),
            room: 0,
        }
    }

    /// Forgets how much room there is, since something else is done to the columns.
    pub fn forget(&mut self)
        ensures { (bs : List Buffer) → KnowsRoom self.new bs }
    {
        self.room = 0;
    }

    /// Sees to room for so many more elements in each column, which mostly there is, and notes how many each has.
    #[inline(always)]
    fn see_to_room(&mut self, out: &mut ColumnSet, more: usize) -> Result<(), AllocError>
        requires few { (length out.old ≤ 2 ^ 32) × (0 < more) }
        requires room { KnowsRoom self.old out.old }
        ensures columns { columns_of out.new ≡ columns_of out.old }
        ensures room { KnowsRoom self.new out.new }
        ensures ok { OnOk result ((more ≤ self.new.room) × (self.new.marks.items ≡ lengths_of out.new)) }
    {
        if more > self.room {
            self.room = 0;
            self.room = make_room(out, more)?;
        }
        note(out, &mut self.marks)
    }

    /// Adds the entry of a line of UTF-8, whose LF is taken off, and says whether it took the line.
    pub fn put_line(&mut self, line: &[u8], schema: &Schema, out: &mut ColumnSet) -> bool
        requires utf8 { IsUtf8 line.now }
        requires columns { IsSoundSet schema.now out.old }
        requires room { KnowsRoom self.old out.old }
        ensures entry { MatchBool result (PutsEntry schema.now line.now out.old out.new)
            (columns_of out.new ≡ columns_of out.old) }
        ensures room { KnowsRoom self.new out.new }
    {
        // As many as the rows, which have ids of 32 bits. Two laws of their plans follow, which do nothing.
        let _columns = schema.columns();
        columns_differ();
        columns_have_types();
        let most = line.len();
        if most == 0 || most > MOST {
            return false;
        }
        if let Err(AllocError) = self.see_to_room(out, most) {
            return false;
        }
        if put_entry(out, schema.plans().as_slice(), line) {
            self.room -= most;
            return true;
        }
        cut_back(out, &self.marks);
        self.room = 0;
        false
    }
}
