//! One level of the tree of an element, read without memory.

ghost use Rattle.std.specs.Prelude.{◌≡◌};
ghost use Rattle.nt_plans.specs.PlanViews.{plan_view};
ghost use Rattle.nt_trees.specs.TreeAt.{tree_at};
ghost use Rattle.nt_join.specs.Readable.{Readable};
ghost use Rattle.nt_moving.specs.Levels.{level_tree, CanBeRead};

use nt_column::Columns;
use nt_join::reading::{begin, number, tag};
use nt_plans::Plan;

/// An element of integers.
#[derive(Clone, Copy)]
pub struct Integer {
    pub element: u64,
    pub bits: u8,
    pub signed: bool,
}

/// Bytes of a column, from one place to before another.
#[derive(Clone, Copy)]
pub struct Span {
    pub column: u32,
    pub from: u64,
    pub to: u64,
}

/// Elements of a plan, from one place to before another.
#[derive(Clone, Copy)]
pub struct Items<'a> {
    pub of: &'a Plan,
    pub from: u64,
    pub to: u64,
}

/// The element of each of these plans.
#[derive(Clone, Copy)]
pub struct Parts<'a> {
    pub of: &'a [Plan],
    pub i: u64,
}

/// An element of an alternative.
#[derive(Clone, Copy)]
pub struct Pick<'a> {
    pub tag: u32,
    pub of: &'a Plan,
    pub i: u64,
}

/// What an element says: a number, or where what lies inside stands. An optional value is the value
/// itself, or nothing.
#[derive(Clone, Copy)]
pub enum Level<'a> {
    Nothing,
    Flag(bool),
    Number(Integer),
    Text(Span),
    List(Items<'a>),
    Record(Parts<'a>),
    Choice(Pick<'a>),
}

/// What an element says, right here where it is called.
#[inline(always)]
#[cycle(level)]
pub fn level_at<'a, C: Columns>(columns: &C, plan: &'a Plan, i: u64) -> Level<'a>
    requires { Readable (plan_view plan.now) (C.Columns.elements columns.now) i }
    ensures tree { level_tree result (C.Columns.elements columns.now)
        ≡ tree_at (plan_view plan.now) (C.Columns.elements columns.now) i }
    ensures inside { CanBeRead result (C.Columns.elements columns.now) }
{
    match plan {
        Plan::Bool { column } => Level::Flag(number(columns, *column, i) == 1),
        Plan::Number {
            column,
            bits,
            signed,
        } => Level::Number(Integer {
            element: number(columns, *column, i),
            bits: *bits,
            signed: *signed,
        }),
        Plan::Text { ends, bytes } => Level::Text(Span {
            column: *bytes,
            from: begin(columns, *ends, i),
            to: number(columns, *ends, i),
        }),
        Plan::List { ends, of } => Level::List(Items {
            of,
            from: begin(columns, *ends, i),
            to: number(columns, *ends, i),
        }),
        Plan::Maybe { ends, of } => {
            let from = begin(columns, *ends, i);
            if from == number(columns, *ends, i) {
                Level::Nothing
            } else {
                inside_at(columns, of, from)
            }
        }
        Plan::Record(parts) => Level::Record(Parts { of: &parts.list, i }),
        Plan::Choice { tags, of } => {
            let tag = tag(columns, *tags, i);
            if tag == 0 {
                Level::Nothing
            } else {
                Level::Choice(Pick {
                    tag,
                    of: &of.list[tag as usize - 1],
                    i: number(columns, *tags, i),
                })
            }
        }
    }
}

/// The same of the value of an optional.
#[inline(never)]
#[cycle(level)]
fn inside_at<'a, C: Columns>(columns: &C, plan: &'a Plan, i: u64) -> Level<'a>
    requires { Readable (plan_view plan.now) (C.Columns.elements columns.now) i }
    ensures tree { level_tree result (C.Columns.elements columns.now)
        ≡ tree_at (plan_view plan.now) (C.Columns.elements columns.now) i }
    ensures inside { CanBeRead result (C.Columns.elements columns.now) }
{
    level_at(columns, plan, i)
}
