//! Expressions as text.

ghost use Rattle.std.specs.Prelude.{◌≡◌, ◌++◌, ◌<◌, length, option_map, OnOk};
ghost use Rattle.ft_theory.specs.Small.{IsSmall};
ghost use Rattle.ft_items.specs.Texts.{expression_text, ItsNumbersFit};
ghost use Rattle.ft_syntax.specs.Arguments.{node_of, arguments_of};
ghost use Rattle.ft_syntax.specs.Table.{tree, BodyBelow};
ghost use Rattle.ft_export.specs.Arguments.{body_text, binders_text, arguments_text, BodyFits, ArgumentsFit};

use crate::pieces::{comma_before, push_lettered};
use ft_base::{Memory, Text};
use ft_syntax::{E, Node, Terms};

// Appends an expression.
#[cycle(expression)]
pub fn push_expression(terms: &Terms, e: E, out: &mut Text) -> Result<(), Memory>
    requires within { e < length terms.now }
    ensures ok { OnOk result (out.new ≡ out.old ++ expression_text (tree terms.now e)) }
    ensures fits { OnOk result (ItsNumbersFit (tree terms.now e)) }
    ensures small { IsSmall (tree terms.now e) }
{
    match terms.node(e) {
        Node::Bound(i) => push_lettered("b", i, out),
        Node::Free(v) => push_lettered("v", v, out),
        Node::Sym(s) => {
            push_lettered("s", s, out)?;
            push_arguments(terms, e, out)
        }
        Node::Meta(m) => {
            push_lettered("m", m, out)?;
            push_arguments(terms, e, out)
        }
    }
}

// Appends the arguments of an application in parentheses.
#[cycle(expression)]
fn push_arguments(terms: &Terms, e: E, out: &mut Text) -> Result<(), Memory>
    requires within { e < length terms.now }
    ensures ok { OnOk result (out.new ≡ out.old ++ arguments_text (node_of (tree terms.now e)) (arguments_of (tree terms.now e))) }
    ensures fits { OnOk result (ArgumentsFit (arguments_of (tree terms.now e))) }
{
    out.push_str("(")?;
    let node = terms.node(e);
    for i in 0..terms.count(e) {
        let arg = terms.arg(e, i + 1);
        out.push_str(comma_before(i))?;
        push_binders(node, arg.binders, out)?;
        push_body(terms, arg.body, out)?;
    }
    out.push_str(")")
}

// Appends what stands before the body of an argument of the node.
fn push_binders(node: Node, binders: u64, out: &mut Text) -> Result<(), Memory>
    ensures ok { OnOk result (out.new ≡ out.old ++ binders_text node binders) }
{
    match node {
        Node::Sym(_) => {
            out.push_number(binders)?;
            out.push_str(".")
        }
        _ => Ok(()),
    }
}

// Appends the body of an argument, a star for a dummy.
#[cycle(expression)]
fn push_body(terms: &Terms, body: Option<E>, out: &mut Text) -> Result<(), Memory>
    requires below { BodyBelow (length terms.now) body }
    ensures ok { OnOk result (out.new ≡ out.old ++ body_text (option_map (tree terms.now) body)) }
    ensures fits { OnOk result (BodyFits (option_map (tree terms.now) body)) }
{
    match body {
        Some(e) => push_expression(terms, e, out),
        None => out.push_str("*"),
    }
}
