//! Trees to columns, which have room for them.

ghost use Rattle.nt_plans.specs.PlanViews.{plan_view};
ghost use Rattle.nt_types.specs.TreeViews.{tree_view};
ghost use Rattle.nt_trees.specs.Put.{put_tree, put_each, put_trees};
ghost use Rattle.nt_trees.specs.Views.{plans_in, trees_in};
ghost use Rattle.nt_shred.specs.Steps.{put_some, Ready, ReadyAll, ReadySome, ReadyEach, GainsInRoom};

use crate::counting::count;
use crate::integers::element;
use crate::parts::{Picked, flag_in, is_nothing, items_in, number_in, parts_in, pick_in, text_in};
use crate::pushing::{push, push_bytes, push_end, push_tag};
use nt_column::{ColumnSet, Columns};
use nt_plans::Plan;
use nt_types::Tree;

/// Adds a tree. What lies inside comes first: an end is the number of its elements then, and an
/// index that before.
#[cycle(put)]
fn put_tree(out: &mut ColumnSet, plan: &Plan, tree: &Tree)
    requires { Ready (plan_view plan.now) (tree_view tree.now) out.old }
    ensures { GainsInRoom (put_tree (plan_view plan.now) (tree_view tree.now)) out.old out.new }
{
    match plan {
        Plan::Bool { column } => push(out, *column, u64::from(flag_in(tree))),
        Plan::Number { column, bits, .. } => push(out, *column, element(number_in(tree), *bits)),
        Plan::Text { ends, bytes } => {
            push_bytes(out, *bytes, text_in(tree));
            let end = out.len(*bytes);
            push_end(out, *ends, end);
        }
        Plan::List { ends, of } => {
            put_each(out, of, items_in(tree));
            let last = count(out, of);
            push_end(out, *ends, last);
        }
        Plan::Maybe { ends, of } => {
            put_some(out, of, tree);
            let total = count(out, of);
            push_end(out, *ends, total);
        }
        Plan::Record(parts) => put_trees(out, &parts.list, parts_in(tree)),
        Plan::Choice { tags, of } => match pick_in(tree) {
            None => push_tag(out, *tags, 0, 0),
            Some(Picked { tag, tree }) => {
                let chosen = &of.list[tag as usize - 1];
                let index = count(out, chosen);
                put_tree(out, chosen, tree);
                push_tag(out, *tags, index, tag);
            }
        },
    }
}

/// Adds trees of one plan, one after the other.
#[cycle(put)]
fn put_each(out: &mut ColumnSet, of: &Plan, items: &[Tree])
    requires { ReadyAll (plan_view of.now) (trees_in items.now) out.old }
    ensures { GainsInRoom (put_each (put_tree (plan_view of.now)) (trees_in items.now)) out.old out.new }
{
    for item in items {
        put_tree(out, of, item);
    }
}

/// Adds the value of an optional, if there is one.
#[cycle(put)]
fn put_some(out: &mut ColumnSet, of: &Plan, tree: &Tree)
    requires { ReadySome (plan_view of.now) (tree_view tree.now) out.old }
    ensures { GainsInRoom (put_some (put_tree (plan_view of.now)) (tree_view tree.now)) out.old out.new }
{
    if !is_nothing(tree) {
        put_tree(out, of, tree);
    }
}

/// Adds a tree of each plan.
#[cycle(put)]
pub fn put_trees(out: &mut ColumnSet, plans: &[Plan], trees: &[Tree])
    requires { ReadyEach (plans_in plans.now) (trees_in trees.now) out.old }
    ensures { GainsInRoom (put_trees (plans_in plans.now) (trees_in trees.now)) out.old out.new }
{
    for (i, plan) in plans.iter().enumerate() {
        put_tree(out, plan, &trees[i]);
    }
}
