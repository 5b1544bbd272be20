//! The first part of commands that asks the equality checker, in the order of the text.

ghost use Rattle.std.specs.Prelude.{◌≡◌, ◌++◌, [], map, flat_map};
ghost use Rattle.ft_meaning.specs.Trees.{form, binder, premise, equation_body, command_of};
ghost use Rattle.ft_meaning.specs.Stages.{no_equality, first_unbuilt, binder_parts, body_parts};
ghost use Rattle.ft_meaning.specs.Stages.{rule_parts, command_parts};
ghost use Rattle.ft_stages.specs.First.{first, premise_parts, body_in, conclusion_in};

use crate::expressions::{first_in, in_three, in_two};
use ft_grammar::{Ast, Binder, Body, Command, Conclusion, Premise};

// In the types of binders.
fn in_binders(bs: &[Binder]) -> Option<u64>
    ensures { result ≡ first (binder_parts [] (map binder bs.now)) }
{
    for b in bs {
        if let Some(at) = first_in(&b.domain) {
            return Some(at);
        }
    }
    None
}

// In an equation, at a type where one is written.
fn in_equation(e: &Ast, f: &Ast, a: &Option<Ast>) -> Option<u64>
    ensures { result ≡ first (body_parts [] 0 (equation_body e.now f.now a.now)) }
{
    match a {
        Some(a) => in_three(e, f, a),
        None => in_two(e, f),
    }
}

// In the body of a premise. Its place does not matter.
fn in_body(body: &Body) -> Option<u64>
    ensures { result ≡ first (body_parts [] 0 (body_in body.now)) }
{
    match body {
        Body::Type(..) => None,
        Body::Term(_, _, a) => first_in(a),
        Body::Equation(_, e, f, a, _) => in_equation(e, f, a),
    }
}

// In the conclusion of a rule. Its place does not matter.
fn in_conclusion(conclusion: &Conclusion) -> Option<u64>
    ensures { result ≡ first (body_parts [] 0 (conclusion_in conclusion.now)) }
{
    match conclusion {
        Conclusion::Type(_) => None,
        Conclusion::Term(_, a) => first_in(a),
        Conclusion::Equation(_, e, f, a) => in_equation(e, f, a),
    }
}

// In a premise.
#[tactic(auto, using(crate::proofs::Rules::in_turn))]
fn in_premise(p: &Premise) -> Option<u64>
    ensures { result ≡ first (premise_parts (premise p.now)) }
{
    match in_binders(p.binders.as_slice()) {
        Some(at) => Some(at),
        None => in_body(&p.body),
    }
}

// In premises in a row.
fn in_premises(ps: &[Premise]) -> Option<u64>
    ensures { result ≡ first (flat_map premise_parts (map premise ps.now)) }
{
    for p in ps {
        if let Some(at) = in_premise(p) {
            return Some(at);
        }
    }
    None
}

// In the premises and the conclusion of a rule. The place of the conclusion does not matter.
#[tactic(auto, using(crate::proofs::Rules::in_turn, crate::proofs::Names::of_rule))]
fn in_rule(ps: &[Premise], conclusion: &Conclusion) -> Option<u64>
    ensures { result ≡ first
        (rule_parts [] (map premise ps.now) 0 (conclusion_in conclusion.now)) }
{
    match in_premises(ps) {
        Some(at) => Some(at),
        None => in_conclusion(conclusion),
    }
}

// In a command.
#[tactic(auto, using(crate::proofs::Names::of_conclusion))]
fn in_command(c: &Command) -> Option<u64>
    ensures { result ≡ first (command_parts (command_of c.now)) }
{
    match c {
        Command::Rule(_, _, ps, conclusion) => in_rule(ps.as_slice(), conclusion),
        Command::Let(_, _, e) => first_in(e),
        Command::Operation(..) => None,
        Command::Computation(at, _) => Some(*at),
        Command::Extensionality(at, _) => Some(*at),
        Command::Show(_, e) => first_in(e),
    }
}

/// The place of the first part of the commands that asks the equality checker, in the order of the
/// text. It takes no memory.
pub fn first_unbuilt(commands: &[Command]) -> Option<u64>
    ensures { result ≡ first_unbuilt no_equality (map command_of commands.now) }
{
    for c in commands {
        if let Some(at) = in_command(c) {
            return Some(at);
        }
    }
    None
}
