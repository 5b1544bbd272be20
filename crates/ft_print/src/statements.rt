//! Theses and boundaries.

ghost use Rattle.std.specs.Prelude.{◌≡◌, ◌<◌, ◌++◌, length, OnOk};
ghost use Rattle.std.specs.List.Sorted.{IsNonDecreasing};
ghost use Rattle.ft_items.specs.Good.{Good};
ghost use Rattle.ft_items.specs.Store.{declared_by};
ghost use Rattle.ft_syntax.specs.Table.{tree, AllBelow};
ghost use Rattle.ft_judge.specs.Meaning.{claim_in, goal_in, thesis_in, boundary_in, FormBelow, GoalBelow, ThesisBelow, BoundaryBelow};
ghost use Rattle.ft_meaning.specs.Texts.{sides_text, of_type_text, claim_text, statement_text};
ghost use Rattle.ft_print.specs.Domains.{domain_text, domains_text};

use crate::expressions::push_expression;
use ft_base::{Memory, Text};
use ft_judge::{Boundary, Form, Goal, Thesis};
use ft_kernel::Kernel;
use ft_syntax::E;

// Appends a thesis.
pub fn push_thesis(k: &Kernel, variables: &[u64], x: &Thesis, out: &mut Text) -> Result<(), Memory>
    requires good { Good k.now.items }
    requires below { ThesisBelow (length k.now.trees) x.now }
    requires ascending { IsNonDecreasing variables.now }
    ensures ok { OnOk result
        (out.new ≡ out.old ++
        statement_text (declared_by k.now.items) variables.now 0 (thesis_in k.now.trees x.now)) }
{
    let domains = x.domains.items();
    push_domains(k, variables, domains, out)?;
    push_form(k, variables, domains.len() as u64, x.form, out)
}

// Appends a boundary.
pub fn push_boundary(
    k: &Kernel,
    variables: &[u64],
    x: &Boundary,
    out: &mut Text,
) -> Result<(), Memory>
    requires good { Good k.now.items }
    requires below { BoundaryBelow (length k.now.trees) x.now }
    requires ascending { IsNonDecreasing variables.now }
    ensures ok { OnOk result
        (out.new ≡ out.old ++
        statement_text (declared_by k.now.items) variables.now 0 (boundary_in k.now.trees x.now)) }
{
    let domains = x.domains.items();
    push_domains(k, variables, domains, out)?;
    push_goal(k, variables, domains.len() as u64, x.goal, out)
}

// Appends each domain.
fn push_domains(k: &Kernel, variables: &[u64], domains: &[E], out: &mut Text) -> Result<(), Memory>
    requires good { Good k.now.items }
    requires below { AllBelow (length k.now.trees) domains.now }
    requires ascending { IsNonDecreasing variables.now }
    ensures ok { OnOk result
        (out.new ≡ out.old ++
        domains_text (declared_by k.now.items) variables.now k.now.trees 0 domains.now) }
{
    for i in 0..domains.len() {
        push_domain(k, variables, i as u64, domains[i], out)?;
    }
    Ok(())
}

// Appends a domain with `n` others around it.
fn push_domain(
    k: &Kernel,
    variables: &[u64],
    n: u64,
    domain: E,
    out: &mut Text,
) -> Result<(), Memory>
    requires good { Good k.now.items }
    requires below { domain < length k.now.trees }
    requires ascending { IsNonDecreasing variables.now }
    ensures ok { OnOk result
        (out.new ≡ out.old ++
        domain_text (declared_by k.now.items) variables.now n (tree k.now.trees domain)) }
{
    out.push_str("{@")?;
    out.push_number(n)?;
    push_of_type(k, variables, n, domain, out)?;
    out.push_str("} ")
}

// Appends a colon and a type.
pub fn push_of_type(
    k: &Kernel,
    variables: &[u64],
    n: u64,
    ty: E,
    out: &mut Text,
) -> Result<(), Memory>
    requires good { Good k.now.items }
    requires below { ty < length k.now.trees }
    requires ascending { IsNonDecreasing variables.now }
    ensures ok { OnOk result
        (out.new ≡ out.old ++
        of_type_text (declared_by k.now.items) variables.now n (tree k.now.trees ty)) }
{
    out.push_str(" : ")?;
    push_expression(k, variables, n, ty, out)
}

// Appends two sides.
fn push_sides(
    k: &Kernel,
    variables: &[u64],
    n: u64,
    sides: (E, E),
    out: &mut Text,
) -> Result<(), Memory>
    requires good { Good k.now.items }
    requires below { (sides.0 < length k.now.trees) × (sides.1 < length k.now.trees) }
    requires ascending { IsNonDecreasing variables.now }
    ensures ok { OnOk result
        (out.new ≡ out.old ++ sides_text (declared_by k.now.items) variables.now n (tree k.now.trees
        sides.0) (tree k.now.trees sides.1)) }
{
    push_expression(k, variables, n, sides.0, out)?;
    out.push_str(" == ")?;
    push_expression(k, variables, n, sides.1, out)
}

// Appends what a thesis says below its domains.
fn push_form(
    k: &Kernel,
    variables: &[u64],
    n: u64,
    form: Form,
    out: &mut Text,
) -> Result<(), Memory>
    requires good { Good k.now.items }
    requires below { FormBelow (length k.now.trees) form }
    requires ascending { IsNonDecreasing variables.now }
    ensures ok { OnOk result
        (out.new ≡ out.old ++
        claim_text (declared_by k.now.items) variables.now n (claim_in k.now.trees form)) }
{
    match form {
        Form::Ty(a) => {
            push_expression(k, variables, n, a, out)?;
            out.push_str(" type")
        }
        Form::Tm(t, a) => {
            push_expression(k, variables, n, t, out)?;
            push_of_type(k, variables, n, a, out)
        }
        Form::EqTy(a, b) => push_sides(k, variables, n, (a, b), out),
        Form::EqTm(s, t, a) => {
            push_sides(k, variables, n, (s, t), out)?;
            push_of_type(k, variables, n, a, out)
        }
    }
}

// Appends what a boundary asks below its domains.
fn push_goal(
    k: &Kernel,
    variables: &[u64],
    n: u64,
    goal: Goal,
    out: &mut Text,
) -> Result<(), Memory>
    requires good { Good k.now.items }
    requires below { GoalBelow (length k.now.trees) goal }
    requires ascending { IsNonDecreasing variables.now }
    ensures ok { OnOk result
        (out.new ≡ out.old ++
        claim_text (declared_by k.now.items) variables.now n (goal_in k.now.trees goal)) }
{
    match goal {
        Goal::Ty => out.push_str("_ type"),
        Goal::Tm(a) => {
            out.push_str("_")?;
            push_of_type(k, variables, n, a, out)
        }
        Goal::EqTy(a, b) => push_sides(k, variables, n, (a, b), out),
        Goal::EqTm(s, t, a) => {
            push_sides(k, variables, n, (s, t), out)?;
            push_of_type(k, variables, n, a, out)
        }
    }
}
