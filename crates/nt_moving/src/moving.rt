//! Values of elements to columns, which have room for them.

ghost use Rattle.std.specs.Prelude.{◌≡◌, ◌≤◌, ◌-◌};
ghost use Rattle.nt_types.specs.TreeData.{nothing};
ghost use Rattle.nt_plans.specs.PlanViews.{plan_view};
ghost use Rattle.nt_trees.specs.Put.{put_tree, put_each, put_trees};
ghost use Rattle.nt_trees.specs.TreeAt.{tree_at, each_at, trees_from};
ghost use Rattle.nt_trees.specs.Views.{plans_in};
ghost use Rattle.nt_join.specs.Chosen.{tree_in};
ghost use Rattle.nt_join.specs.Readable.{Readable, ReadableTo, ReadableEach};
ghost use Rattle.nt_shred.specs.Steps.{put_some, Ready, ReadyAll, ReadySome, ReadyEach, GainsInRoom};
ghost use Rattle.nt_moving.specs.Levels.{level_tree, CanBeRead};
ghost use Rattle.nt_moving.specs.Moved.{chosen_at};

use crate::ends::push_count;
use crate::forms::{flag_in, integer_in, is_nothing, items_in, parts_in, pick_in, text_in};
use crate::leaves::{push_flag, push_integer};
use crate::level::{Items, Level, Parts, level_at};
use crate::texts::move_text;
use crate::words::{push_words, run_of};
use nt_column::{ColumnSet, Columns};
use nt_plans::Plan;
use nt_shred::counting::count;
use nt_shred::pushing::push_tag;

/// Adds the value of an element.
#[inline(always)]
#[cycle(moving)]
fn move_tree<C: Columns>(out: &mut ColumnSet, to: &Plan, columns: &C, from: &Plan, i: u64)
    requires readable { Readable (plan_view from.now) (C.Columns.elements columns.now) i }
    requires ready { Ready (plan_view to.now)
        (tree_at (plan_view from.now) (C.Columns.elements columns.now) i) out.old }
    ensures { GainsInRoom (put_tree (plan_view to.now)
        (tree_at (plan_view from.now) (C.Columns.elements columns.now) i)) out.old out.new }
{
    move_level(out, to, columns, level_at(columns, from, i));
}

/// Adds what an element says. What lies inside comes first: an end is the number of its elements then,
/// and an index that before.
#[cycle(moving)]
fn move_level<C: Columns>(out: &mut ColumnSet, to: &Plan, columns: &C, level: Level<'_>)
    requires inside { CanBeRead level (C.Columns.elements columns.now) }
    requires ready { Ready (plan_view to.now) (level_tree level (C.Columns.elements columns.now)) out.old }
    ensures { GainsInRoom (put_tree (plan_view to.now) (level_tree level.entry (C.Columns.elements columns.now)))
        out.old out.new }
{
    match to {
        Plan::Bool { column } => push_flag(out, *column, flag_in(level)),
        Plan::Number { column, bits, .. } => {
            push_integer(out, *column, *bits, integer_in(level))
        }
        Plan::Text { ends, bytes } => move_text(out, *ends, *bytes, columns, text_in(level)),
        Plan::List { ends, of } => {
            let inside: &Plan = of;
            move_items(out, inside, columns, items_in(level));
            push_count(out, *ends, inside);
        }
        Plan::Maybe { ends, of } => {
            let inside: &Plan = of;
            move_some(out, inside, columns, level);
            push_count(out, *ends, inside);
        }
        Plan::Record(parts) => move_parts(out, &parts.list, columns, parts_in(level)),
        Plan::Choice { tags, of } => match pick_in(level) {
            None => push_tag(out, *tags, 0, 0),
            Some(pick) => {
                let chosen = &of.list[pick.tag as usize - 1];
                let index = count(out, chosen);
                move_tree(out, chosen, columns, pick.of, pick.i);
                push_tag(out, *tags, index, pick.tag);
            }
        },
    }
}

/// Adds the values of elements of one plan, one after the other.
#[cycle(moving)]
fn move_items<C: Columns>(out: &mut ColumnSet, to: &Plan, columns: &C, items: Items<'_>)
    requires order { items.from ≤ items.to }
    requires readable { ReadableTo (plan_view items.of.now) (C.Columns.elements columns.now) items.to }
    requires ready { ReadyAll (plan_view to.now) (trees_from
        (tree_at (plan_view items.of.now) (C.Columns.elements columns.now)) items.from (items.to - items.from)) out.old }
    ensures { GainsInRoom (put_each (put_tree (plan_view to.now)) (trees_from
        (tree_at (plan_view items.entry.of.now) (C.Columns.elements columns.now)) items.entry.from (items.entry.to - items.entry.from)))
        out.old out.new }
{
    if let Some(numbers) = run_of(to, columns, items) {
        push_words(out, numbers.column, numbers.words);
    } else {
        move_each(out, to, columns, items);
    }
}

/// The same, an element at a time.
#[cycle(moving)]
fn move_each<C: Columns>(out: &mut ColumnSet, to: &Plan, columns: &C, items: Items<'_>)
    requires order { items.from ≤ items.to }
    requires readable { ReadableTo (plan_view items.of.now) (C.Columns.elements columns.now) items.to }
    requires ready { ReadyAll (plan_view to.now) (trees_from
        (tree_at (plan_view items.of.now) (C.Columns.elements columns.now)) items.from (items.to - items.from)) out.old }
    ensures { GainsInRoom (put_each (put_tree (plan_view to.now)) (trees_from
        (tree_at (plan_view items.entry.of.now) (C.Columns.elements columns.now)) items.entry.from (items.entry.to - items.entry.from)))
        out.old out.new }
{
    for i in items.from..items.to {
        move_tree(out, to, columns, items.of, i);
    }
}

/// Adds the value of an optional, if there is one.
#[cycle(moving)]
fn move_some<C: Columns>(out: &mut ColumnSet, to: &Plan, columns: &C, level: Level<'_>)
    requires inside { CanBeRead level (C.Columns.elements columns.now) }
    requires ready { ReadySome (plan_view to.now) (level_tree level (C.Columns.elements columns.now)) out.old }
    ensures { GainsInRoom (put_some (put_tree (plan_view to.now))
        (level_tree level.entry (C.Columns.elements columns.now))) out.old out.new }
{
    if !is_nothing(level) {
        move_level(out, to, columns, level);
    }
}

/// Adds the values of the parts of a record.
#[cycle(moving)]
fn move_parts<C: Columns>(out: &mut ColumnSet, to: &[Plan], columns: &C, parts: Parts<'_>)
    requires readable { ReadableEach (plans_in parts.of.now) (C.Columns.elements columns.now) parts.i }
    requires ready { ReadyEach (plans_in to.now)
        (each_at (plans_in parts.of.now) (C.Columns.elements columns.now) parts.i) out.old }
    ensures { GainsInRoom (put_trees (plans_in to.now)
        (each_at (plans_in parts.entry.of.now) (C.Columns.elements columns.now) parts.entry.i)) out.old out.new }
{
    for (k, plan) in to.iter().enumerate() {
        move_tree(out, plan, columns, &parts.of[k], parts.i);
    }
}

/// Adds the value at a place of an entry, or nothing where there is none.
#[inline(always)]
fn move_place<C: Columns>(
    out: &mut ColumnSet,
    to: &Plan,
    columns: &C,
    from: &[Plan],
    place: u32,
    i: u64,
)
    requires readable { ReadableEach (plans_in from.now) (C.Columns.elements columns.now) i }
    requires ready { Ready (plan_view to.now)
        (tree_in (each_at (plans_in from.now) (C.Columns.elements columns.now) i) place) out.old }
    ensures { GainsInRoom (put_tree (plan_view to.now)
        (tree_in (each_at (plans_in from.now) (C.Columns.elements columns.now) i) place)) out.old out.new }
{
    if place as usize >= from.len() {
        move_level(out, to, columns, Level::Nothing);
    } else {
        move_tree(out, to, columns, &from[place as usize], i);
    }
}

/// Adds the values at some places of an entry, one for each plan.
pub fn move_places<C: Columns>(
    out: &mut ColumnSet,
    to: &[Plan],
    columns: &C,
    from: &[Plan],
    places: &[u32],
    i: u64,
)
    requires readable { ReadableEach (plans_in from.now) (C.Columns.elements columns.now) i }
    requires ready { ReadyEach (plans_in to.now)
        (chosen_at (plans_in from.now) (C.Columns.elements columns.now) places.now i) out.old }
    ensures { GainsInRoom (put_trees (plans_in to.now)
        (chosen_at (plans_in from.now) (C.Columns.elements columns.now) places.now i)) out.old out.new }
{
    for (k, plan) in to.iter().enumerate() {
        move_place(out, plan, columns, from, places[k], i);
    }
}
