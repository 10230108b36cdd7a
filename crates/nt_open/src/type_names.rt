//! What a row says of a field of a shape: its role, and the name of its type.

ghost use Rattle.std.specs.Prelude.{◌≡◌, ◌++◌, true, map, codes, OnOk, IfOk};
ghost use Rattle.nt_types.specs.Views.{shape_view, shapes_view};
ghost use Rattle.nt_types.specs.ShapeData.{kinds_of};
ghost use Rattle.nt_grammar.specs.Types.{holds_record, any_holds_record, int_name, template, cpp_name, cpp_names, type_name, role_of};

use nt_types::{Bytes, Shape, Shapes};
use std::alloc::{AllocError, Global};

/// The structural role of a field.
pub fn role_of(shape: &Shape) -> u16
    ensures { result ≡ role_of (shape_view shape.now) }
{
    match shape {
        Shape::Bool | Shape::Char | Shape::Byte | Shape::Int { .. } | Shape::Text => 0,
        Shape::List(_) | Shape::Maybe(_) => 1,
        Shape::Rec(_) | Shape::Tuple(_) => 2,
        Shape::Choice(_) => 3,
    }
}

/// Whether values hold a record with named members, at any depth.
#[cycle(holds)]
fn holds_record(shape: &Shape) -> bool
    ensures { result ≡ holds_record (shape_view shape.now) }
{
    match shape {
        Shape::Bool | Shape::Char | Shape::Byte | Shape::Int { .. } | Shape::Text => false,
        Shape::List(of) | Shape::Maybe(of) => holds_record(of),
        Shape::Rec(_) => true,
        Shape::Tuple(shapes) => any_holds_record(&shapes.list),
        Shape::Choice(shapes) => any_holds_record(&shapes.list),
    }
}

#[cycle(holds)]
fn any_holds_record(shapes: &[Shape]) -> bool
    ensures { result ≡ any_holds_record (kinds_of (map shape_view shapes.now)) }
{
    for shape in shapes {
        if holds_record(shape) {
            return true;
        }
    }
    false
}

fn int_name(bits: u8, signed: bool) -> &'static str
    ensures { result.now ≡ int_name bits signed }
{
    match (bits, signed) {
        (8, true) => "std::int8_t",
        (16, true) => "std::int16_t",
        (32, true) => "std::int32_t",
        (_, true) => "std::int64_t",
        (8, false) => "std::uint8_t",
        (16, false) => "std::uint16_t",
        (32, false) => "std::uint32_t",
        (_, false) => "std::uint64_t",
    }
}

fn put(out: &mut Vec<u8>, text: &str) -> Result<(), AllocError>
    ensures { OnOk result (out.new.items ≡ out.old.items ++ text.now) }
{
    out.extend_from_slice(text.as_bytes())
}

/// Appends the C++ type of values that hold no record.
#[cycle(name)]
fn put_name(out: &mut Vec<u8>, shape: &Shape) -> Result<(), AllocError>
    ensures { OnOk result (out.new.items ≡ out.old.items ++ cpp_name (shape_view shape.now)) }
{
    match shape {
        Shape::Bool => put(out, "bool")?,
        Shape::Char => put(out, "char")?,
        Shape::Byte => put(out, "std::byte")?,
        Shape::Int { bits, signed } => put(out, int_name(*bits, *signed))?,
        Shape::Text => put(out, "std::string")?,
        Shape::List(of) => put_one(out, "std::vector<", of)?,
        Shape::Maybe(of) => put_one(out, "std::optional<", of)?,
        Shape::Rec(_) => {}
        Shape::Tuple(shapes) => put_all(out, "std::tuple<", shapes)?,
        Shape::Choice(shapes) => put_all(out, "std::variant<", shapes)?,
    }
    Ok(())
}

/// Appends a template of this head with its argument.
#[cycle(name)]
#[tactic(auto, using(crate::proofs::TypeNames::three), unfolding(nt_grammar::specs::Types::template))]
fn put_one(out: &mut Vec<u8>, head: &str, of: &Shape) -> Result<(), AllocError>
    ensures { OnOk result (out.new.items
        ≡ out.old.items ++ template head.now (cpp_name (shape_view of.now))) }
{
    put(out, head)?;
    put_name(out, of)?;
    put(out, ">")?;
    Ok(())
}

/// Appends a template of this head with its arguments.
#[cycle(name)]
#[tactic(auto, using(crate::proofs::TypeNames::three), unfolding(nt_grammar::specs::Types::template))]
fn put_all(out: &mut Vec<u8>, head: &str, shapes: &Shapes) -> Result<(), AllocError>
    ensures { OnOk result (out.new.items
        ≡ out.old.items ++ template head.now (cpp_names true (kinds_of (shapes_view shapes.now)))) }
{
    put(out, head)?;
    put_names(out, &shapes.list)?;
    put(out, ">")?;
    Ok(())
}

#[cycle(name)]
fn put_names(out: &mut Vec<u8>, shapes: &[Shape]) -> Result<(), AllocError>
    ensures { OnOk result (out.new.items
        ≡ out.old.items ++ cpp_names true (kinds_of (map shape_view shapes.now))) }
{
    let mut first = true;
    for shape in shapes {
        if !first {
            put(out, ",")?;
        }
        put_name(out, shape)?;
        first = false;
    }
    Ok(())
}

/// The name of a field's type in C++; it is empty where values hold a record with named members.
pub fn type_name(alloc: Global, shape: &Shape) -> Result<Bytes, AllocError>
    ensures { IfOk result (λ name. name ≡ type_name (shape_view shape.now)) }
{
    let mut out = Vec::new(alloc);
    if !holds_record(shape) {
        put_name(&mut out, shape)?;
    }
    Ok(Bytes::from_vec(out))
}
