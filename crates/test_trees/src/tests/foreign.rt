//! Columns in an order that this program doesn't write, and more alternatives than one sweep counts.

use super::columns::{Elements, fault_of, lines_of, set_of};
use nt_plans::{Plan, Plans};
use nt_types::ColumnType;
use std::alloc::{AllocError, Global};
use std::test::*;

const CHAR: ColumnType = ColumnType::Char;

const ENDS: ColumnType = ColumnType::Index64;

const TAGS: ColumnType = ColumnType::Switch;

/// Bytes of texts and their ends, and what is wrong first.
const TEXTS: [(Elements, Elements, Option<(u32, u64)>); 3] = [
    (&[(97, 0), (98, 0)], &[(1, 0), (2, 0)], None),
    (&[(97, 0)], &[(2, 0), (1, 0)], Some((1, 1))),
    (&[(97, 0), (98, 0)], &[(2, 0), (1, 0)], Some((0, 2))),
];

/// Whether texts are read whose bytes stand before their ends.
fn bytes_before_ends(alloc: Global) -> Result<bool, AllocError> {
    let text = Plan::Text { ends: 1, bytes: 0 };
    let plans = Plans::from_vec(vec![in alloc; text]?);
    for (bytes, ends, want) in &TEXTS {
        let set = set_of(alloc, &[(CHAR, bytes), (ENDS, ends)])?;
        let lines = lines_of(alloc, &set, &plans, 2)?;
        let is_shown = want.is_some() || lines.as_slice() == b"[\"a\"]\n[\"b\"]\n".as_slice();
        if fault_of(&set, &plans, 2) != *want || !is_shown {
            return Ok(false);
        }
    }
    Ok(true)
}

/// A choice of a list, whose elements stand before its ends, and a number, on both sides of their Switch.
fn either_side(alloc: Global) -> Result<Plans, AllocError> {
    let number = Plan::Number {
        column: 0,
        bits: 8,
        signed: true,
    };
    let list = Plan::List {
        ends: 3,
        of: Box::new(alloc, number)?,
    };
    let other = Plan::Number {
        column: 2,
        bits: 8,
        signed: false,
    };
    let either = vec![in alloc; list, other]?;
    let choice = Plan::Choice {
        tags: 1,
        of: Plans::from_vec(either),
    };
    Ok(Plans::from_vec(vec![in alloc; choice]?))
}

/// Numbers of a list, a Switch, and ends, and what is wrong first.
const SIDES: [(Elements, Elements, Elements, Option<(u32, u64)>); 4] = [
    (
        &[(255, 0), (1, 0), (2, 0)],
        &[(0, 2), (0, 1), (0, 0), (1, 1)],
        &[(1, 0), (3, 0)],
        None,
    ),
    (
        &[(255, 0), (1, 0), (2, 0)],
        &[(0, 2), (0, 1), (0, 0), (1, 1)],
        &[(3, 0), (1, 0)],
        Some((0, 3)),
    ),
    (
        &[(1, 0)],
        &[(0, 2), (0, 1), (0, 0), (1, 1)],
        &[(3, 0), (1, 0)],
        Some((3, 1)),
    ),
    (
        &[(1, 0)],
        &[(0, 2), (0, 1), (0, 0), (0, 1)],
        &[(3, 0), (1, 0)],
        Some((1, 3)),
    ),
];

/// Whether children are read that stand before their parents.
fn children_before_parents(alloc: Global) -> Result<bool, AllocError> {
    let plans = either_side(alloc)?;
    let shown = b"[[2,255]]\n[[1,[-1]]]\n[null]\n[[1,[1,2]]]\n".as_slice();
    for (numbers, tags, ends, want) in &SIDES {
        let columns: [(ColumnType, Elements); 4] = [
            (ColumnType::Int8, numbers),
            (TAGS, tags),
            (ColumnType::UInt8, &[(255, 0)]),
            (ENDS, ends),
        ];
        let set = set_of(alloc, &columns)?;
        let lines = lines_of(alloc, &set, &plans, 4)?;
        let is_shown = want.is_some() || lines.as_slice() == shown;
        if fault_of(&set, &plans, 4) != *want || !is_shown {
            return Ok(false);
        }
    }
    Ok(true)
}

/// A choice of so many truth values, each in the column of its tag, behind its Switch.
fn choice_of(alloc: Global, count: u32) -> Result<Plans, AllocError> {
    let mut of = Vec::new(alloc);
    for column in 0..count {
        of.push(Plan::Bool { column: column + 1 })?;
    }
    let choice = Plan::Choice {
        tags: 0,
        of: Plans::from_vec(of),
    };
    Ok(Plans::from_vec(vec![in alloc; choice]?))
}

/// A Switch, the elements of the last of 130 alternatives, and what is wrong first.
const MANY: [(Elements, Elements, Option<(u32, u64)>); 5] = [
    (&[(0, 130), (1, 130)], &[(1, 0), (0, 0)], None),
    (&[(0, 130), (1, 130)], &[(1, 0)], Some((130, 1))),
    (&[(0, 130), (0, 130)], &[(1, 0), (0, 0)], Some((0, 1))),
    (
        &[(0, 130), (5, 130), (3, 1)],
        &[(1, 0), (0, 0)],
        Some((0, 1)),
    ),
    (&[(0, 131), (5, 130)], &[(1, 0)], Some((0, 0))),
];

/// Whether more alternatives are counted than one sweep counts.
fn more_alternatives_than_are_counted_at_once(alloc: Global) -> Result<bool, AllocError> {
    let plans = choice_of(alloc, 130)?;
    let none: Elements = &[];
    for (tags, last, want) in &MANY {
        let mut columns = [(ColumnType::Bit, none); 131];
        columns[0] = (TAGS, tags);
        columns[130].1 = last;
        let set = set_of(alloc, &columns)?;
        if fault_of(&set, &plans, tags.len() as u64) != *want {
            return Ok(false);
        }
    }
    Ok(true)
}

#[test]
fn foreign(rt: HostRuntime) {
    let alloc = rt.alloc();
    for (holds, name) in [
        (bytes_before_ends(alloc), "bytes before ends"),
        (children_before_parents(alloc), "children before parents"),
        (
            more_alternatives_than_are_counted_at_once(alloc),
            "more alternatives than are counted at once",
        ),
    ] {
        assert!(rt; holds == Ok(true), "{name}");
    }
}
