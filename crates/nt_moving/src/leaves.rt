//! Values without parts, one element each.

ghost use Rattle.std.specs.Prelude.{Bool};
ghost use Rattle.nt_types.specs.TreeData.{flag, num};
ghost use Rattle.nt_plans.specs.Plan.{bool, number};
ghost use Rattle.nt_trees.specs.Integers.{integer_of};
ghost use Rattle.nt_trees.specs.Put.{put_tree, put_number};
ghost use Rattle.nt_shred.specs.Steps.{Ready, GainsInRoom};

use crate::integers::element_of;
use crate::level::Integer;
use nt_column::ColumnSet;
use nt_shred::pushing::push;

/// Adds a truth value.
#[inline(always)]
pub fn push_flag(out: &mut ColumnSet, column: u32, value: bool)
    requires { Ready (bool column) (flag value) out.old }
    ensures { GainsInRoom (put_tree (bool column) (flag value)) out.old out.new }
{
    push(out, column, u64::from(value));
}

/// Adds an integer to a column of a width.
#[inline(always)]
pub fn push_integer(out: &mut ColumnSet, column: u32, bits: u8, of: Integer)
    requires { (signed : Bool) × Ready (number column bits signed) (num (integer_of of.bits of.signed of.element)) out.old }
    ensures { GainsInRoom (put_number column bits (num (integer_of of.bits of.signed of.element))) out.old out.new }
{
    push(out, column, element_of(of, bits));
}
