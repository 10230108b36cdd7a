//! Rows by the field that they belong to.

ghost use Rattle.std.specs.Prelude.{◌≡◌, ◌<◌, ◌^◌, ◌++◌, ◌∷◌, [], ℕ, length, get_or, vec_len, ◌==◌, ◌&&◌, not, OnOk, IfOk, if◌then◌else◌};
ghost use Rattle.nt_grammar.specs.Open.{ids_inside, columns_of_field};
ghost use Rattle.nt_plans.specs.Place.{column_ids};
ghost use Rattle.nt_open.specs.Grouped.{items_at, HaveInside, HaveColumns, HaveColumnIds};

use nt_grammar::{ColumnRow, FieldRow};
use std::alloc::{AllocError, Global};

fn empty_lists<T: Drop>(alloc: Global, count: usize) -> Result<Vec<Vec<T>>, AllocError>
    ensures count { IfOk result (λ lists. vec_len lists ≡ count) }
    ensures empty { IfOk result (λ lists. (i : ℕ) → items_at lists.items i ≡ []) }
{
    let mut lists = Vec::new(alloc);
    while lists.len() < count {
        lists.push(Vec::new(alloc))?;
    }
    Ok(lists)
}

fn push_at<T: Drop>(lists: &mut Vec<Vec<T>>, at: usize, item: T) -> Result<(), AllocError>
    requires { at < vec_len lists.old }
    ensures count { vec_len lists.new ≡ vec_len lists.old }
    ensures items { OnOk result ((i : ℕ)
        → items_at lists.new.items i ≡ items_at lists.old.items i ++
        (if i == at then item ∷ [] else [])) }
{
    let list = &mut lists[at];
    list.push(item)?;
    Ok(())
}

/// Puts the id of a field into the list of the field that it lies in.
fn put_id(lists: &mut Vec<Vec<u32>>, id: u32, row: &FieldRow) -> Result<(), AllocError>
    ensures count { vec_len lists.new ≡ vec_len lists.old }
    ensures items { OnOk result ((i : ℕ) → i < vec_len lists.old
        → items_at lists.new.items i ≡ items_at lists.old.items i ++
        (if (row.now.parent == i) && not (id == i) then id ∷ [] else [])) }
{
    let parent = row.parent as usize;
    if row.parent != id && parent < lists.len() {
        push_at(lists, parent, id)?;
    }
    Ok(())
}

/// Puts a column into the list of its field.
fn put_column(lists: &mut Vec<Vec<ColumnRow>>, column: &ColumnRow) -> Result<(), AllocError>
    ensures count { vec_len lists.new ≡ vec_len lists.old }
    ensures items { OnOk result ((i : ℕ) → i < vec_len lists.old
        → items_at lists.new.items i ≡ items_at lists.old.items i ++
        (if column.now.field == i then column.now ∷ [] else [])) }
{
    let field = column.field as usize;
    if field < lists.len() {
        push_at(lists, field, *column)?;
    }
    Ok(())
}

/// The ids of the fields inside each field, in order.
#[tactic(auto, using(nt_grammar::proofs::FieldsInside::ids_inside_next))]
fn ids_inside(alloc: Global, fields: &[FieldRow]) -> Result<Vec<Vec<u32>>, AllocError>
    requires { length fields.now < 2 ^ 32 }
    ensures { IfOk result (λ lists. HaveInside fields.now lists.items) }
{
    let mut lists = empty_lists(alloc, fields.len())?;
    for (id, row) in fields.iter().enumerate() {
        put_id(&mut lists, id as u32, row)?;
    }
    Ok(lists)
}

/// The columns of each of so many fields, in order.
#[tactic(auto, using(crate::proofs::ByField::columns_of_field_next))]
fn columns_by_field(
    alloc: Global,
    fields: usize,
    columns: &[ColumnRow],
) -> Result<Vec<Vec<ColumnRow>>, AllocError>
    ensures { IfOk result (λ lists. HaveColumns fields columns.now lists.items) }
{
    let mut lists = empty_lists(alloc, fields)?;
    for column in columns {
        put_column(&mut lists, column)?;
    }
    Ok(lists)
}

/// Puts the id of a column into the list of its field.
fn put_column_id(lists: &mut Vec<Vec<u32>>, id: u32, column: &ColumnRow) -> Result<(), AllocError>
    ensures count { vec_len lists.new ≡ vec_len lists.old }
    ensures items { OnOk result ((i : ℕ) → i < vec_len lists.old
        → items_at lists.new.items i ≡ items_at lists.old.items i ++
        (if column.now.field == i then id ∷ [] else [])) }
{
    let field = column.field as usize;
    if field < lists.len() {
        push_at(lists, field, id)?;
    }
    Ok(())
}

/// The ids of the columns of each of so many fields, in order.

fn column_ids(
    alloc: Global,
    fields: usize,
    columns: &[ColumnRow],
) -> Result<Vec<Vec<u32>>, AllocError>
    requires { length columns.now < 2 ^ 32 }
    ensures { IfOk result (λ lists. HaveColumnIds fields columns.now lists.items) }
{
    let mut lists = empty_lists(alloc, fields)?;
    for (id, column) in columns.iter().enumerate() {
        put_column_id(&mut lists, id as u32, column)?;
    }
    Ok(lists)
}

/// The rows of a schema, with what belongs to each field.
#[derive(Drop)]
pub(crate) struct Grouped<'a> {
    pub(crate) fields: &'a [FieldRow],
    pub(crate) columns: &'a [ColumnRow],
    /// The ids of the fields inside each field.
    inside: Vec<Vec<u32>>,
    /// The columns of each field.
    own: Vec<Vec<ColumnRow>>,
    /// The ids of the columns of each field.
    own_ids: Vec<Vec<u32>>,
    ghost inside_is: { HaveInside fields.now inside.items },
    ghost own_is: { HaveColumns (length fields.now) columns.now own.items },
    ghost own_ids_are: { HaveColumnIds (length fields.now) columns.now own_ids.items },
}

impl<'a> Grouped<'a> {
    pub(crate) fn new(
        alloc: Global,
        fields: &'a [FieldRow],
        columns: &'a [ColumnRow],
    ) -> Result<Grouped<'a>, AllocError>
        requires few_fields { length fields.now < 2 ^ 32 }
        requires few_columns { length columns.now < 2 ^ 32 }
        ensures { IfOk result (λ rows. (rows.fields.now ≡ fields.now)
            × (rows.columns.now ≡ columns.now)) }
    {
        let inside = ids_inside(alloc, fields)?;
        let own = columns_by_field(alloc, fields.len(), columns)?;
        let own_ids = column_ids(alloc, fields.len(), columns)?;
        Ok(Grouped {
            fields,
            columns,
            inside,
            own,
            own_ids,
        })
    }

    /// The ids of the fields inside a field, in order.
    #[tactic(auto, using(crate::proofs::ByField::items_at_get))]
    pub(crate) fn ids_of(&self, id: u32) -> &[u32]
        requires { id < length self.now.fields.now }
        ensures { result.now ≡ ids_inside id 0 self.now.fields.now }
    {
        &self.inside[id as usize]
    }

    /// The columns of a field, in order.
    #[tactic(auto, using(crate::proofs::ByField::items_at_get))]
    pub(crate) fn columns_of(&self, id: u32) -> &[ColumnRow]
        requires { id < length self.now.fields.now }
        ensures { result.now ≡ columns_of_field id self.now.columns.now }
    {
        &self.own[id as usize]
    }

    /// The id of the field at a place inside a field, or 0.
    #[tactic(auto, using(crate::proofs::Inner::inside_small))]
    pub(crate) fn inside_at(&self, id: u32, place: usize) -> u32
        requires { id < length self.now.fields.now }
        ensures id { result ≡ get_or (ids_inside id 0 self.now.fields.now) place 0 }
        ensures small { result < length self.now.fields.now }
    {
        match self.ids_of(id).get(place) {
            Some(inside) => *inside,
            None => 0,
        }
    }

    /// The id of the column at a place of a field, or 0.
    #[tactic(auto, using(crate::proofs::ByField::items_at_get))]
    pub(crate) fn column_at(&self, id: u32, place: usize) -> u32
        requires { id < length self.now.fields.now }
        ensures { result ≡ get_or (column_ids id 0 self.now.columns.now) place 0 }
    {
        match self.own_ids[id as usize].get(place) {
            Some(column) => *column,
            None => 0,
        }
    }

    /// The ids of the fields inside each field, and of the columns of each.
    pub(crate) fn into_ids(self) -> (Vec<Vec<u32>>, Vec<Vec<u32>>)
        ensures inside { HaveInside self.entry.fields.now result.0.items }
        ensures columns { HaveColumnIds (length self.entry.fields.now) self.entry.columns.now result.1.items }
    {
        (self.inside, self.own_ids)
    }
}
