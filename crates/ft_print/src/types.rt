//! Types of values.

ghost use Rattle.std.specs.Prelude.{◌≡◌, ◌++◌, length, IfOk, OnOk};
ghost use Rattle.ft_meaning.specs.Faults.{type_text, is_pair};
ghost use Rattle.ft_types.specs.Types.{type_in, Below, stands_for};
ghost use Rattle.ft_print.specs.declared.types.Piece.TheVariants.{Whole, Inside};
ghost use Rattle.ft_print.specs.Pieces.{Within, AllWithin, Goes};

use ft_base::{Memory, Text};
use ft_types::{KnownType, Row, SharedType};
use std::alloc::Global;

// A part of a type's text that is still to be written.
#[derive(Clone, Copy, Debug, Drop)]
pub enum Piece {
    Whole(KnownType),
    Inside(KnownType),
    Times,
    Closing,
}

/// A type, as it is written in a source, with each pair inside another type in parentheses.
pub fn type_text(alloc: Global, ty: &SharedType) -> Result<Text, Memory>
    ensures { IfOk result (λ t. t ≡ type_text (stands_for ty.now)) }
{
    let mut out = Text::new(alloc);
    push_type(alloc, ty, &mut out)?;
    Ok(out)
}

// Appends a type. Types may nest more deeply than calls, so what is still to be written stands on a stack.
pub fn push_type(alloc: Global, ty: &SharedType, out: &mut Text) -> Result<(), Memory>
    ensures ok { OnOk result (out.new ≡ out.old ++ type_text (stands_for ty.now)) }
{
    let mut left = Vec::new(alloc);
    left.push(Piece::Whole(ty.whole()))?;
    'writing: while let Some(piece) = left.pop() {
        push_piece(ty, piece, out, &mut left)?;
    }
    Ok(())
}

// Appends a piece, or its beginning, and puts what is left of it on the stack.
fn push_piece(
    ty: &SharedType,
    piece: Piece,
    out: &mut Text,
    left: &mut Vec<Piece>,
) -> Result<(), Memory>
    requires within { Within (length ty.now.types) piece }
    requires all_within { AllWithin (length ty.now.types) left.old.items }
    ensures { OnOk result (Goes ty.now.types piece out.old left.old.items out.new left.new.items) }
{
    match piece {
        Piece::Whole(t) => push_whole(ty, t, out, left),
        Piece::Inside(t) => push_inside(ty, t, out, left),
        Piece::Times => out.push_str(" * "),
        Piece::Closing => out.push_str(")"),
    }
}

// Appends a type without parts, or the beginning of one with parts.
fn push_whole(
    ty: &SharedType,
    t: KnownType,
    out: &mut Text,
    left: &mut Vec<Piece>,
) -> Result<(), Memory>
    requires within { Below (length ty.now.types) t }
    requires all_within { AllWithin (length ty.now.types) left.old.items }
    ensures { OnOk result (Goes ty.now.types (Whole t) out.old left.old.items out.new left.new.items) }
{
    let place = match t {
        KnownType::Judgement => return out.push_str("judgement"),
        KnownType::Boundary => return out.push_str("boundary"),
        KnownType::Unit => return out.push_str("unit"),
        KnownType::Bool => return out.push_str("bool"),
        KnownType::Compound(place) => place,
    };
    match ty.row(place) {
        Row::Pair(first, second) => {
            left.push(Piece::Inside(second))?;
            left.push(Piece::Times)?;
            left.push(Piece::Inside(first))?;
        }
        Row::List(of) => {
            out.push_str("list ")?;
            left.push(Piece::Inside(of))?;
        }
        Row::Opt(of) => {
            out.push_str("option ")?;
            left.push(Piece::Inside(of))?;
        }
    }
    Ok(())
}

// Appends what stands before a type inside another one.
fn push_inside(
    ty: &SharedType,
    t: KnownType,
    out: &mut Text,
    left: &mut Vec<Piece>,
) -> Result<(), Memory>
    requires within { Below (length ty.now.types) t }
    requires all_within { AllWithin (length ty.now.types) left.old.items }
    ensures { OnOk result (Goes ty.now.types (Inside t) out.old left.old.items out.new left.new.items) }
{
    if is_pair(ty, t) {
        out.push_str("(")?;
        left.push(Piece::Closing)?;
    }
    left.push(Piece::Whole(t))?;
    Ok(())
}

// Whether the type is one of pairs.
fn is_pair(ty: &SharedType, t: KnownType) -> bool
    requires { Below (length ty.now.types) t }
    ensures { result ≡ is_pair (type_in ty.now.types t) }
{
    match t {
        KnownType::Compound(place) => matches!(ty.row(place), Row::Pair(_, _)),
        KnownType::Judgement | KnownType::Boundary | KnownType::Unit | KnownType::Bool => false,
    }
}
