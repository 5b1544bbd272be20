//! Outlines of trees, for tests: a tree's own word and place, and those of the parts in it.

use ft_parser::{AmlType, Ast, Case, Named, OpCase, Pattern, ValCase};
use std::alloc::{AllocError, Global};

fn put(text: &mut String, word: &str, at: u64) -> Result<(), AllocError> {
    write!(text, " {word}@{at}")
}

fn put_name(text: &mut String, name: &Named) -> Result<(), AllocError> {
    text.push_str(" ")?;
    for c in name.name.chars() {
        text.push(*c)?;
    }
    write!(text, "@{}", name.at)
}

// The word of an expression, and its place.
fn head(e: &Ast) -> (&'static str, u64) {
    match e {
        Ast::LetIn(at, ..) => ("LetIn", *at),
        Ast::If(at, ..) => ("If", *at),
        Ast::Match(at, ..) => ("Match", *at),
        Ast::Handle(at, ..) => ("Handle", *at),
        Ast::Abstract(at, ..) => ("Abstract", *at),
        Ast::Cons(at, ..) => ("Cons", *at),
        Ast::Refl(at, ..) => ("Refl", *at),
        Ast::Sym(at, ..) => ("Sym", *at),
        Ast::Left(at, ..) => ("Left", *at),
        Ast::Right(at, ..) => ("Right", *at),
        Ast::Typeof(at, ..) => ("Typeof", *at),
        Ast::Domain(at, ..) => ("Domain", *at),
        Ast::Natural(at, ..) => ("Natural", *at),
        Ast::Normal(at, ..) => ("Normal", *at),
        Ast::Boundaryof(at, ..) => ("Boundaryof", *at),
        Ast::SomeWord(at, ..) => ("SomeWord", *at),
        Ast::Trans(at, ..) => ("Trans", *at),
        Ast::Convert(at, ..) => ("Convert", *at),
        Ast::Equal(at, ..) => ("Equal", *at),
        Ast::Widen(at, ..) => ("Widen", *at),
        Ast::Rewrite(at, ..) => ("Rewrite", *at),
        Ast::Fill(at, ..) => ("Fill", *at),
        Ast::Argument(at, ..) => ("Argument", *at),
        Ast::Congruence(at, ..) => ("Congruence", *at),
        Ast::Perform(at, ..) => ("Perform", *at),
        Ast::Call(at, ..) => ("Call", *at),
        Ast::Subst(at, ..) => ("Subst", *at),
        Ast::TrueWord(at) => ("TrueWord", *at),
        Ast::FalseWord(at) => ("FalseWord", *at),
        Ast::Unit(at) => ("Unit", *at),
        Ast::Pair(at, ..) => ("Pair", *at),
        Ast::NoneWord(at, ..) => ("NoneWord", *at),
        Ast::Nil(at, ..) => ("Nil", *at),
    }
}

// The name in an expression.
fn name_in(e: &Ast) -> Option<&Named> {
    match e {
        Ast::LetIn(_, name, _, _)
        | Ast::Abstract(_, name, _, _)
        | Ast::Congruence(_, name, _, _)
        | Ast::Perform(_, name, _)
        | Ast::Call(_, name, _) => Some(name),
        _ => None,
    }
}

// The first expression in an expression.
fn first_in(e: &Ast) -> Option<&Ast> {
    match e {
        Ast::LetIn(_, _, e, _)
        | Ast::If(_, e, _, _)
        | Ast::Match(_, e, _)
        | Ast::Handle(_, e, _, _)
        | Ast::Abstract(_, _, e, _)
        | Ast::Refl(_, e)
        | Ast::Sym(_, e)
        | Ast::Left(_, e)
        | Ast::Right(_, e)
        | Ast::Typeof(_, e)
        | Ast::Domain(_, e)
        | Ast::Natural(_, e)
        | Ast::Normal(_, e)
        | Ast::Boundaryof(_, e)
        | Ast::SomeWord(_, e)
        | Ast::Trans(_, e, _)
        | Ast::Convert(_, e, _)
        | Ast::Equal(_, e, _)
        | Ast::Widen(_, e, _)
        | Ast::Rewrite(_, e, _)
        | Ast::Fill(_, e, _)
        | Ast::Cons(_, e, _)
        | Ast::Pair(_, e, _)
        | Ast::Argument(_, e, _)
        | Ast::Congruence(_, _, e, _)
        | Ast::Perform(_, _, e)
        | Ast::Subst(_, e, _) => Some(e.get()),
        _ => None,
    }
}

// The second.
fn second_in(e: &Ast) -> Option<&Ast> {
    match e {
        Ast::LetIn(_, _, _, e)
        | Ast::If(_, _, e, _)
        | Ast::Abstract(_, _, _, e)
        | Ast::Trans(_, _, e)
        | Ast::Convert(_, _, e)
        | Ast::Equal(_, _, e)
        | Ast::Widen(_, _, e)
        | Ast::Rewrite(_, _, e)
        | Ast::Fill(_, _, e)
        | Ast::Cons(_, _, e)
        | Ast::Pair(_, _, e)
        | Ast::Congruence(_, _, _, e) => Some(e.get()),
        _ => None,
    }
}

// The third.
fn third_in(e: &Ast) -> Option<&Ast> {
    match e {
        Ast::If(_, _, _, e) => Some(e.get()),
        _ => None,
    }
}

// The expressions in a list.
fn listed_in(e: &Ast) -> &[Ast] {
    match e {
        Ast::Call(_, _, items) | Ast::Subst(_, _, items) => items.as_slice(),
        _ => &[],
    }
}

fn put_part(text: &mut String, part: Option<&Ast>) -> Result<(), AllocError> {
    match part {
        Some(e) => {
            let (word, at) = head(e);
            put(text, word, at)
        }
        None => Ok(()),
    }
}

fn put_case(text: &mut String, case: &Case) -> Result<(), AllocError> {
    put(text, "case", case.at)?;
    put_part(text, Some(case.body.get()))
}

fn put_value_case(text: &mut String, case: &ValCase) -> Result<(), AllocError> {
    put(text, "val", case.at)?;
    put_name(text, &case.name)?;
    put_part(text, Some(case.body.get()))
}

fn put_operation_case(text: &mut String, case: &OpCase) -> Result<(), AllocError> {
    put(text, "case", case.at)?;
    put_name(text, &case.operation)?;
    put_name(text, &case.argument)?;
    put_part(text, Some(case.body.get()))
}

fn put_cases(text: &mut String, cases: &[Case]) -> Result<(), AllocError> {
    for case in cases {
        put_case(text, case)?;
    }
    Ok(())
}

fn put_operation_cases(text: &mut String, cases: &[OpCase]) -> Result<(), AllocError> {
    for case in cases {
        put_operation_case(text, case)?;
    }
    Ok(())
}

// What an expression has beside a name and expressions.
fn put_rest(text: &mut String, e: &Ast) -> Result<(), AllocError> {
    match e {
        Ast::Match(_, _, cases) => put_cases(text, cases.as_slice()),
        Ast::Handle(_, _, value, cases) => {
            if let Some(value) = value {
                put_value_case(text, value)?;
            }
            put_operation_cases(text, cases.as_slice())
        }
        Ast::Argument(_, _, number) => write!(text, " {number}"),
        Ast::NoneWord(_, item) | Ast::Nil(_, item) => write!(text, " {}", type_word(item)),
        _ => Ok(()),
    }
}

pub fn outline(alloc: Global, e: &Ast) -> Result<String, AllocError> {
    let (word, at) = head(e);
    let mut text = format!(in alloc; "{word}@{at}")?;
    if let Some(name) = name_in(e) {
        put_name(&mut text, name)?;
    }
    put_part(&mut text, first_in(e))?;
    put_part(&mut text, second_in(e))?;
    put_part(&mut text, third_in(e))?;
    for item in listed_in(e) {
        put_part(&mut text, Some(item))?;
    }
    put_rest(&mut text, e)?;
    Ok(text)
}

fn type_word(t: &AmlType) -> &'static str {
    match t {
        AmlType::Judgement => "Judgement",
        AmlType::Boundary => "Boundary",
        AmlType::Unit => "Unit",
        AmlType::Bool => "Bool",
        AmlType::Pair(_, _) => "Pair",
        AmlType::List(_) => "List",
        AmlType::Opt(_) => "Opt",
    }
}

pub fn type_outline(alloc: Global, t: &AmlType) -> Result<String, AllocError> {
    match t {
        AmlType::Pair(first, second) => {
            format!(in alloc;
                "Pair {} {}",
                type_word(first.get()),
                type_word(second.get())
            )
        }
        AmlType::List(item) => format!(in alloc; "List {}", type_word(item.get())),
        AmlType::Opt(item) => format!(in alloc; "Opt {}", type_word(item.get())),
        other => format!(in alloc; "{}", type_word(other)),
    }
}

// The word of a pattern, and its place.
fn pattern_head(p: &Pattern) -> (&'static str, u64) {
    match p {
        Pattern::Cons(at, ..) => ("Cons", *at),
        Pattern::SomeWord(at, _) => ("SomeWord", *at),
        Pattern::Symbol(at, ..) => ("Symbol", *at),
        Pattern::Name(at, _) => ("Name", *at),
        Pattern::Wildcard(at) => ("Wildcard", *at),
        Pattern::TrueWord(at) => ("TrueWord", *at),
        Pattern::FalseWord(at) => ("FalseWord", *at),
        Pattern::Unit(at) => ("Unit", *at),
        Pattern::NoneWord(at) => ("NoneWord", *at),
        Pattern::Nil(at) => ("Nil", *at),
        Pattern::Pair(at, ..) => ("Pair", *at),
    }
}

fn put_pattern(text: &mut String, p: &Pattern) -> Result<(), AllocError> {
    let (word, at) = pattern_head(p);
    put(text, word, at)
}

fn put_patterns(text: &mut String, patterns: &[Pattern]) -> Result<(), AllocError> {
    for p in patterns {
        put_pattern(text, p)?;
    }
    Ok(())
}

// The parts of a pattern.
fn put_pattern_parts(text: &mut String, p: &Pattern) -> Result<(), AllocError> {
    match p {
        Pattern::Cons(_, first, second) | Pattern::Pair(_, first, second) => {
            put_pattern(text, first.get())?;
            put_pattern(text, second.get())
        }
        Pattern::SomeWord(_, inside) => put_pattern(text, inside.get()),
        Pattern::Symbol(_, name, parts) => {
            put_name(text, name)?;
            put_patterns(text, parts.as_slice())
        }
        _ => Ok(()),
    }
}

pub fn pattern_outline(alloc: Global, p: &Pattern) -> Result<String, AllocError> {
    let (word, at) = pattern_head(p);
    let mut text = format!(in alloc; "{word}@{at}")?;
    put_pattern_parts(&mut text, p)?;
    Ok(text)
}
