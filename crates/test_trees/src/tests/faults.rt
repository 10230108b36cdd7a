//! What is wrong with columns first: each kind of fault, at its column and element.

use super::columns::{Elements, fault_of, lines_of, set_of};
use nt_plans::{Plan, Plans};
use nt_types::ColumnType;
use std::alloc::{AllocError, Global};
use std::test::*;

/// A list of texts, a number or a text, a truth value, a record of two numbers, an optional number and an optional text.
fn plans(alloc: Global) -> Result<Plans, AllocError> {
    let names = Box::new(alloc, Plan::Text { ends: 1, bytes: 2 })?;
    let number = Plan::Number {
        column: 4,
        bits: 8,
        signed: false,
    };
    let either = vec![in alloc; number, Plan::Text { ends: 5, bytes: 6 }]?;
    let low = Plan::Number {
        column: 8,
        bits: 16,
        signed: true,
    };
    let high = Plan::Number {
        column: 9,
        bits: 32,
        signed: false,
    };
    let both = vec![in alloc; low, high]?;
    let some = Plan::Number {
        column: 11,
        bits: 8,
        signed: true,
    };
    let word = Plan::Text {
        ends: 13,
        bytes: 14,
    };
    Ok(Plans::from_vec(vec![in alloc;
        Plan::List { ends: 0, of: names },
        Plan::Choice {
            tags: 3,
            of: Plans::from_vec(either)
        },
        Plan::Bool { column: 7 },
        Plan::Record(Plans::from_vec(both)),
        Plan::Maybe {
            ends: 10,
            of: Box::new(alloc, some)?
        },
        Plan::Maybe {
            ends: 12,
            of: Box::new(alloc, word)?
        },
    ]?))
}

/// The columns of two entries.
const COLUMNS: [(ColumnType, Elements); 15] = [
    (ColumnType::SplitIndex64, &[(2, 0), (2, 0)]),
    (ColumnType::Index32, &[(1, 0), (1, 0)]),
    (ColumnType::Char, &[(97, 0)]),
    (ColumnType::Switch, &[(0, 2), (0, 1)]),
    (ColumnType::UInt8, &[(7, 0)]),
    (ColumnType::SplitIndex32, &[(1, 0)]),
    (ColumnType::Char, &[(98, 0)]),
    (ColumnType::Bit, &[(1, 0), (0, 0)]),
    (ColumnType::SplitInt16, &[(0xffff, 0), (1, 0)]),
    (ColumnType::UInt32, &[(1, 0), (2, 0)]),
    (ColumnType::SplitIndex64, &[(1, 0), (1, 0)]),
    (ColumnType::Int8, &[(254, 0)]),
    (ColumnType::Index32, &[(0, 0), (1, 0)]),
    (ColumnType::Index64, &[(2, 0)]),
    (ColumnType::Char, &[(111, 0), (107, 0)]),
];

/// A column, other elements for it, and what is wrong first then.
const FAULTS: [(usize, Elements, Option<(u32, u64)>); 35] = [
    (2, &[(98, 0)], None),
    (0, &[(2, 0)], Some((0, 1))),
    (0, &[(1, 0), (2, 0), (2, 0)], Some((0, 3))),
    (0, &[(3, 0), (2, 0)], Some((0, 1))),
    (0, &[(2, 0), (3, 0)], Some((1, 2))),
    (0, &[(0, 0), (1, 0)], Some((1, 2))),
    (1, &[(2, 0), (1, 0)], Some((1, 1))),
    (1, &[(1, 0)], Some((1, 1))),
    (2, &[], Some((2, 0))),
    (2, &[(97, 0), (97, 0)], Some((2, 2))),
    (3, &[(0, 2)], Some((3, 1))),
    (3, &[(0, 2), (1, 1)], Some((3, 1))),
    (3, &[(1, 2), (1, 1)], Some((3, 0))),
    (3, &[(0, 3), (0, 1)], Some((3, 0))),
    (3, &[(9, 0), (0, 1)], Some((5, 1))),
    (3, &[(0, 1), (1, 1)], Some((4, 1))),
    (4, &[], Some((4, 0))),
    (4, &[(7, 0), (7, 0)], Some((4, 2))),
    (5, &[(1, 0), (1, 0)], Some((5, 2))),
    (6, &[(98, 0), (98, 0)], Some((6, 2))),
    (7, &[(1, 0)], Some((7, 1))),
    (8, &[(1, 0), (1, 0), (1, 0)], Some((8, 3))),
    (9, &[], Some((9, 0))),
    // ends of optionals go up by one at most, whatever their width
    (10, &[(0, 0), (1, 0)], None),
    (10, &[(0, 0), (2, 0)], Some((10, 1))),
    (10, &[(2, 0), (2, 0)], Some((10, 0))),
    (10, &[(1, 0), (0, 0)], Some((10, 1))),
    (10, &[(1, 0), (2, 0)], Some((11, 1))),
    (10, &[(1, 0), (1, 0), (1, 0)], Some((10, 3))),
    (10, &[(u64::MAX, 0), (0, 0)], Some((10, 0))),
    (12, &[(0, 0), (2, 0)], Some((12, 1))),
    (12, &[(2, 0), (2, 0)], Some((12, 0))),
    (12, &[(1, 0), (0, 0)], Some((12, 1))),
    (12, &[(0, 0), (0, 0)], Some((13, 1))),
    (13, &[], Some((13, 0))),
];

/// Whether each of these changes makes its fault.
fn each_fault(alloc: Global) -> Result<bool, AllocError> {
    let plans = plans(alloc)?;
    for (column, elements, want) in &FAULTS {
        let mut columns = COLUMNS;
        if let Some(place) = columns.get_mut(*column) {
            place.1 = elements;
        }
        let set = set_of(alloc, &columns)?;
        if fault_of(&set, &plans, 2) != *want {
            return Ok(false);
        }
    }
    Ok(true)
}

/// Whether of two faults the one of the lower column is told.
fn the_lower_column_of_two(alloc: Global) -> Result<bool, AllocError> {
    let mut columns = COLUMNS;
    columns[6].1 = &[];
    columns[9].1 = &[];
    let plans = plans(alloc)?;
    let set = set_of(alloc, &columns)?;
    Ok(fault_of(&set, &plans, 2) == Some((6, 0)) && fault_of(&set, &plans, 3) == Some((0, 2)))
}

/// Whether entries are read where nothing is wrong.
fn entries_without_a_fault(alloc: Global) -> Result<bool, AllocError> {
    let set = set_of(alloc, &COLUMNS)?;
    let lines = lines_of(alloc, &set, &plans(alloc)?, 2)?;
    let want =
        b"[[\"a\",\"\"],[2,\"b\"],true,[-1,1],-2,null]\n[[],[1,7],false,[1,2],null,\"ok\"]\n";
    Ok(lines.as_slice() == want.as_slice())
}

#[test]
fn faults(rt: HostRuntime) {
    let alloc = rt.alloc();
    for (holds, name) in [
        (each_fault(alloc), "each fault"),
        (the_lower_column_of_two(alloc), "the lower column of two"),
        (entries_without_a_fault(alloc), "entries without a fault"),
    ] {
        assert!(rt; holds == Ok(true), "{name}");
    }
}
