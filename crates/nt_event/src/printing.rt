//! Entries as lines: JSON without blanks.

ghost use Rattle.std.specs.Prelude.{◌≡◌, ◌++◌, ◌∷◌, [], length, map, take, false, OnOk, OnErr};
ghost use Rattle.serde_json.specs.Written.{compact_text, items_text};
ghost use Rattle.nt_event.specs.Json.{data_of, datas_of, line_of};
ghost use Rattle.nt_types.specs.TreeData.{trees_of};
ghost use Rattle.nt_types.specs.TreeViews.{tree_view, trees_view};

use crate::strings::write_text;
use itoa::Buffer;
use nt_types::{Tree, Trees};
use std::alloc::{AllocError, Global};

/// The end of a line.
const LF: u8 = 10;

#[cycle(print)]
fn put_tree(alloc: Global, tree: &Tree, out: &mut Vec<u8>) -> Result<(), AllocError>
    ensures ok { OnOk result (out.new.items ≡ out.old.items ++ compact_text
        (data_of (tree_view tree.now))) }
    ensures kept { take (length out.old.items) out.new.items ≡ out.old.items }
{
    match tree {
        Tree::Flag(holds) => {
            if *holds {
                out.extend_from_slice(b"true")
            } else {
                out.extend_from_slice(b"false")
            }
        }
        Tree::Num(n) => {
            let mut digits = Buffer::new();
            out.extend_from_slice(digits.format(*n).as_bytes())
        }
        Tree::Text(bytes) => write_text(alloc, bytes.as_slice(), out),
        Tree::Items(trees) => {
            out.push(b'[')?;
            put_items(alloc, &trees.list, out)?;
            Ok(())
        }
        Tree::Parts(trees) => {
            out.push(b'[')?;
            put_items(alloc, &trees.list, out)?;
            Ok(())
        }
        Tree::Pick { tag, value } => {
            out.push(b'[')?;
            let mut digits = Buffer::new();
            out.extend_from_slice(digits.format(*tag).as_bytes())?;
            out.push(b',')?;
            put_tree(alloc, value, out)?;
            out.push(b']')?;
            Ok(())
        }
        Tree::Nothing => out.extend_from_slice(b"null"),
    }
}

#[cycle(print)]
fn put_items(alloc: Global, list: &[Tree], out: &mut Vec<u8>) -> Result<(), AllocError>
    ensures ok { OnOk result (out.new.items ≡ out.old.items ++ items_text false
        (datas_of (trees_of (map tree_view list.now)))) }
    ensures kept { take (length out.old.items) out.new.items ≡ out.old.items }
{
    let mut later = false;
    for item in list {
        if later {
            out.push(b',')?;
        }
        put_tree(alloc, item, out)?;
        later = true;
    }
    out.push(b']')?;
    Ok(())
}

/// An entry's array and its LF, where memory suffices.
fn put_line(alloc: Global, trees: &Trees, out: &mut Vec<u8>) -> Result<(), AllocError>
    ensures ok { OnOk result (out.new.items ≡ out.old.items ++
        (line_of (trees_of (trees_view trees.now)) ++ LF ∷ [])) }
    ensures kept { take (length out.old.items) out.new.items ≡ out.old.items }
{
    out.push(b'[')?;
    put_items(alloc, trees.as_slice(), out)?;
    out.push(LF)?;
    Ok(())
}

/// Appends the line of an entry, a JSON array without blanks, and its LF; nothing where memory runs out.
pub fn write_line(alloc: Global, trees: &Trees, out: &mut Vec<u8>) -> Result<(), AllocError>
    ensures ok { OnOk result (out.new.items ≡ out.old.items ++
        (line_of (trees_of (trees_view trees.now)) ++ LF ∷ [])) }
    ensures err { OnErr result (out.new.items ≡ out.old.items) }
{
    let len = out.len();
    match put_line(alloc, trees, out) {
        Ok(()) => Ok(()),
        Err(error) => {
            out.truncate(len);
            Err(error)
        }
    }
}
