//! Expressions.

ghost use Rattle.std.specs.Prelude.{◌≡◌, ◌≢◌, ◌+◌, ◌*◌, ◌-◌, ◌^◌, ◌<◌, ◌++◌, suc, length, codes, decimal, option_map, IfSome, OnOk};
ghost use Rattle.std.specs.List.Sorted.{IsNonDecreasing};
ghost use Rattle.ft_theory.specs.Small.{IsSmall};
ghost use Rattle.ft_items.specs.Good.{Good};
ghost use Rattle.ft_items.specs.Store.{declared_by};
ghost use Rattle.ft_syntax.specs.Arguments.{arguments_of};
ghost use Rattle.ft_syntax.specs.Table.{tree, BodyBelow};
ghost use Rattle.ft_meaning.specs.Texts.{binders_text, expression_text};
ghost use Rattle.ft_print.specs.Arguments.{body_text, arguments_text, HasRoom};

use crate::names::{push_metavariable, push_symbol, push_variable};
use ft_base::{Memory, Text};
use ft_kernel::Kernel;
use ft_syntax::{E, Node};
use itoa::Buffer;

// Appends an expression with `n` domains around it, in a line that mentions these variables.
pub fn push_expression(
    k: &Kernel,
    variables: &[u64],
    n: u64,
    e: E,
    out: &mut Text,
) -> Result<(), Memory>
    requires good { Good k.now.items }
    requires within { e < length k.now.trees }
    requires ascending { IsNonDecreasing variables.now }
    ensures ok { OnOk result
        (out.new ≡ out.old ++
        expression_text (declared_by k.now.items) variables.now n (tree k.now.trees e)) }
{
    push_part(k, variables, u128::from(n), e, out)
}

// Appends a part of an expression, with `n` binders around it.
#[cycle(expression)]
fn push_part(k: &Kernel, variables: &[u64], n: u128, e: E, out: &mut Text) -> Result<(), Memory>
    requires good { Good k.now.items }
    requires within { e < length k.now.trees }
    requires room { HasRoom n e }
    requires ascending { IsNonDecreasing variables.now }
    ensures ok { OnOk result
        (out.new ≡ out.old ++
        expression_text (declared_by k.now.items) variables.now n (tree k.now.trees e)) }
{
    match k.terms().node(e) {
        Node::Bound(i) => push_bound(n, i, out),
        Node::Free(v) => push_variable(k, variables, v, out),
        Node::Sym(s) => {
            push_symbol(k, s, out)?;
            push_arguments(k, variables, n, e, out)
        }
        Node::Meta(m) => {
            push_metavariable(k, m, out)?;
            push_arguments(k, variables, n, e, out)
        }
    }
}

// Appends a bound variable, with `n` binders around it.
fn push_bound(n: u128, i: u64, out: &mut Text) -> Result<(), Memory>
    ensures ok { OnOk result (out.new ≡ out.old ++ (codes "@" ++ decimal (n - suc i))) }
{
    out.push_str("@")?;
    push_wide(n.saturating_sub(u128::from(i) + 1), out)
}

// Appends the decimal digits of the number, without leading zeros.
fn push_wide(number: u128, out: &mut Text) -> Result<(), Memory>
    ensures ok { OnOk result (out.new ≡ out.old ++ decimal number) }
{
    let mut buffer = Buffer::new();
    out.push_str(buffer.format(number))
}

// Appends the arguments of an application, in parentheses where there are any.
#[cycle(expression)]
fn push_arguments(
    k: &Kernel,
    variables: &[u64],
    n: u128,
    e: E,
    out: &mut Text,
) -> Result<(), Memory>
    requires good { Good k.now.items }
    requires within { e < length k.now.trees }
    requires small { IsSmall (tree k.now.trees e) }
    requires room { HasRoom n e }
    requires ascending { IsNonDecreasing variables.now }
    ensures ok { OnOk result
        (out.new ≡ out.old ++ arguments_text (declared_by k.now.items) variables.now n (arguments_of
        (tree k.now.trees e))) }
{
    let terms = k.terms();
    let count = terms.count(e);
    for i in 0..count {
        let arg = terms.arg(e, i + 1);
        out.push_str(before(i))?;
        push_binders(n, arg.binders, out)?;
        push_body(k, variables, n + u128::from(arg.binders), arg.body, out)?;
    }
    if count == 0 {
        return Ok(());
    }
    out.push_str(")")
}

// What stands before the argument at place `i`, counted from 0.
fn before(i: u64) -> &'static str
    ensures first { i ≡ 0 → result.now ≡ codes "(" }
    ensures further { i ≢ 0 → result.now ≡ codes ", " }
{
    if i == 0 {
        return "(";
    }
    ", "
}

// Appends so many binders, with `n` others around them.
fn push_binders(n: u128, count: u64, out: &mut Text) -> Result<(), Memory>
    requires { n + count < 2 ^ 128 }
    ensures ok { OnOk result (out.new ≡ out.old ++ binders_text n count) }
{
    for i in 0..count {
        push_binder(n + u128::from(i), out)?;
    }
    Ok(())
}

// Appends a binder, with `n` others around it.
fn push_binder(n: u128, out: &mut Text) -> Result<(), Memory>
    ensures ok { OnOk result (out.new ≡ out.old ++ (codes "{@" ++ decimal n ++ codes "} ")) }
{
    out.push_str("{@")?;
    push_wide(n, out)?;
    out.push_str("} ")
}

// Appends the body of an argument, a star for a dummy.
#[cycle(expression)]
fn push_body(
    k: &Kernel,
    variables: &[u64],
    n: u128,
    body: Option<E>,
    out: &mut Text,
) -> Result<(), Memory>
    requires good { Good k.now.items }
    requires below { BodyBelow (length k.now.trees) body }
    requires room { IfSome body (λ e. HasRoom n e) }
    requires ascending { IsNonDecreasing variables.now }
    ensures ok { OnOk result
        (out.new ≡ out.old ++
        body_text (declared_by k.now.items) variables.now n (option_map (tree k.now.trees) body)) }
{
    match body {
        Some(e) => push_part(k, variables, n, e, out),
        None => out.push_str("*"),
    }
}
