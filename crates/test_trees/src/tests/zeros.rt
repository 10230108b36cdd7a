//! Columns of zeros, as those that a schema defers.

use super::columns::{fault_of, lines_of};
use nt_column::ColumnSet;
use nt_plans::{Plan, Plans};
use nt_types::ColumnType;
use std::alloc::{AllocError, Global};
use std::test::*;

/// Whether lists of zeros are empty.
fn lists_of_zeros_are_empty(alloc: Global) -> Result<bool, AllocError> {
    let number = Plan::Number {
        column: 1,
        bits: 8,
        signed: true,
    };
    let list = Plan::List {
        ends: 0,
        of: Box::new(alloc, number)?,
    };
    let lists = Plans::from_vec(vec![in alloc; list]?);
    let mut set = ColumnSet::new(alloc, &[ColumnType::SplitIndex64, ColumnType::Int8])?;
    set.zeros(0, 2);
    let is_shown = lines_of(alloc, &set, &lists, 2)?.as_slice() == b"[[]]\n[[]]\n".as_slice();
    Ok(is_shown && fault_of(&set, &lists, 3) == Some((0, 2)))
}

/// Whether optionals of zeros are nothing.
fn optionals_of_zeros_are_empty(alloc: Global) -> Result<bool, AllocError> {
    let item = Plan::Bool { column: 1 };
    let optional = Plan::Maybe {
        ends: 0,
        of: Box::new(alloc, item)?,
    };
    let optionals = Plans::from_vec(vec![in alloc; optional]?);
    let mut set = ColumnSet::new(alloc, &[ColumnType::Index64, ColumnType::Bit])?;
    set.zeros(0, 2);
    let lines = lines_of(alloc, &set, &optionals, 2)?;
    Ok(lines.as_slice() == b"[null]\n[null]\n".as_slice())
}

/// Whether choices of zeros are of no alternative.
fn choices_of_zeros_are_empty(alloc: Global) -> Result<bool, AllocError> {
    let text = Plan::Text { ends: 1, bytes: 2 };
    let of = Plans::from_vec(vec![in alloc; text]?);
    let choices = Plans::from_vec(vec![in alloc; Plan::Choice { tags: 0, of }]?);
    let kinds = [ColumnType::Switch, ColumnType::Index32, ColumnType::Char];
    let mut set = ColumnSet::new(alloc, &kinds)?;
    set.zeros(0, 2);
    let lines = lines_of(alloc, &set, &choices, 2)?;
    Ok(lines.as_slice() == b"[null]\n[null]\n".as_slice())
}

#[test]
fn zeros(rt: HostRuntime) {
    let alloc = rt.alloc();
    assert!(rt; lists_of_zeros_are_empty(alloc) == Ok(true));
    assert!(rt; optionals_of_zeros_are_empty(alloc) == Ok(true));
    assert!(rt; choices_of_zeros_are_empty(alloc) == Ok(true));
}
