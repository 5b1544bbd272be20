//! Tests of sources with their trees and faults.

use crate::outline::{outline, pattern_outline, type_outline};
use ft_lexer::tokens;
use ft_parser::{Ast, Body, Command, Conclusion, Premise, SyntaxFault, parse};
use std::alloc::{AllocError, Global};

// The commands of a source.
fn commands(alloc: Global, source: &str) -> Result<Vec<Command>, SyntaxFault> {
    parse(alloc, &tokens(alloc, source)?)
}

// The outline of the one expression that a source shows.
fn shown(alloc: Global, source: &str) -> Result<String, SyntaxFault> {
    match commands(alloc, source)?.as_slice() {
        [Command::Show(_, e)] => Ok(outline(alloc, e)?),
        _ => Ok(String::new(alloc)),
    }
}

// Sources that show one expression, with its word and place, and those of its parts.
const SHOWN: [(&str, &str); 42] = [
    ("show let x = a in b", "LetIn@5 x@9 Call@13 Call@18"),
    ("show if a then b else c", "If@5 Call@8 Call@15 Call@22"),
    ("show { x : A } f x", "Abstract@5 x@7 Call@11 Call@15"),
    ("show a :: b :: c", "Cons@5 Call@5 Cons@10"),
    ("show refl a", "Refl@5 Call@10"),
    ("show sym a", "Sym@5 Call@9"),
    ("show left a", "Left@5 Call@10"),
    ("show right a", "Right@5 Call@11"),
    ("show typeof a", "Typeof@5 Call@12"),
    ("show domain a", "Domain@5 Call@12"),
    ("show natural a", "Natural@5 Call@13"),
    ("show normal a", "Normal@5 Call@12"),
    ("show boundaryof a", "Boundaryof@5 Call@16"),
    ("show some a", "SomeWord@5 Call@10"),
    ("show trans a b", "Trans@5 Call@11 Call@13"),
    ("show convert a b", "Convert@5 Call@13 Call@15"),
    ("show equal a b", "Equal@5 Call@11 Call@13"),
    ("show widen a b", "Widen@5 Call@11 Call@13"),
    ("show rewrite a b", "Rewrite@5 Call@13 Call@15"),
    ("show fill a b", "Fill@5 Call@10 Call@12"),
    ("show argument a 7", "Argument@5 Call@14 7"),
    ("show congruence f a b", "Congruence@5 f@16 Call@18 Call@20"),
    ("show perform f a", "Perform@5 f@13 Call@15"),
    ("show f", "Call@5 f@5"),
    (
        "show f a (g b) true",
        "Call@5 f@5 Call@7 Call@10 TrueWord@15",
    ),
    ("show (f)", "Call@6 f@6"),
    ("show true", "TrueWord@5"),
    ("show false", "FalseWord@5"),
    ("show ( )", "Unit@5"),
    ("show (a, b)", "Pair@5 Call@6 Call@9"),
    ("show none unit", "NoneWord@5 Unit"),
    ("show nil list bool", "Nil@5 List"),
    ("show a{b}{c}", "Subst@5 Call@5 Call@7 Call@10"),
    ("show f a{b}", "Call@5 f@5 Subst@7"),
    ("show (f a){b}", "Subst@5 Call@6 Call@11"),
    ("show f ({ x : A } x)", "Call@5 f@5 Abstract@8"),
    ("show f{a} :: b", "Cons@5 Subst@5 Call@13"),
    (
        "show match a with | x -> b | _ -> c end",
        "Match@5 Call@11 case@18 Call@25 case@27 Call@34",
    ),
    ("show handle a with end", "Handle@5 Call@12"),
    (
        "show handle a with | val x -> b end",
        "Handle@5 Call@12 val@19 x@25 Call@30",
    ),
    (
        "show handle a with | f x -> b end",
        "Handle@5 Call@12 case@19 f@21 x@23 Call@28",
    ),
    (
        "show handle a with | val x -> b | f y -> c | g z -> d end",
        "Handle@5 Call@12 val@19 x@25 Call@30 case@32 f@34 y@36 Call@41 case@43 g@45 z@47 Call@52",
    ),
];

#[test]
fn each_expression_has_its_tree(rt: HostRuntime) -> Result<(), SyntaxFault> {
    for (source, wanted) in SHOWN {
        let found = shown(rt.alloc(), source)?;
        assert!(rt; found.as_str() == wanted, "{source}");
    }
    Ok(())
}

// The outline of the pattern of the first case that a source shows.
fn matched(alloc: Global, source: &str) -> Result<String, SyntaxFault> {
    match commands(alloc, source)?.as_slice() {
        [Command::Show(_, Ast::Match(_, _, cases))] => match cases.as_slice() {
            [first, ..] => Ok(pattern_outline(alloc, &first.pattern)?),
            [] => Ok(String::new(alloc)),
        },
        _ => Ok(String::new(alloc)),
    }
}

#[test]
fn each_pattern_has_its_tree(rt: HostRuntime) -> Result<(), SyntaxFault> {
    let alloc = rt.alloc();
    for (source, wanted) in [
        ("show match a with | x -> b end", "Name@20"),
        ("show match a with | _ -> b end", "Wildcard@20"),
        ("show match a with | true -> b end", "TrueWord@20"),
        ("show match a with | false -> b end", "FalseWord@20"),
        ("show match a with | () -> b end", "Unit@20"),
        ("show match a with | none -> b end", "NoneWord@20"),
        ("show match a with | nil -> b end", "Nil@20"),
        ("show match a with | (x) -> b end", "Name@21"),
        (
            "show match a with | (x, _) -> b end",
            "Pair@20 Name@21 Wildcard@24",
        ),
        (
            "show match a with | x :: y :: z -> b end",
            "Cons@20 Name@20 Cons@25",
        ),
        ("show match a with | some x -> b end", "SomeWord@20 Name@25"),
        (
            "show match a with | @ f x (some y) _ -> b end",
            "Symbol@20 f@22 Name@24 SomeWord@27 Wildcard@35",
        ),
        ("show match a with | @ f -> b end", "Symbol@20 f@22"),
    ] {
        let found = matched(alloc, source)?;
        assert!(rt; found.as_str() == wanted, "{source}");
    }
    Ok(())
}

// The outlines of the types of an operation.
fn declared(alloc: Global, source: &str) -> Result<String, SyntaxFault> {
    match commands(alloc, source)?.as_slice() {
        [Command::Operation(_, _, argument, answer)] => {
            let mut text = type_outline(alloc, argument)?;
            text.push_str(" : ")?;
            text.push_str(&type_outline(alloc, answer)?)?;
            Ok(text)
        }
        _ => Ok(String::new(alloc)),
    }
}

#[test]
fn each_type_has_its_tree(rt: HostRuntime) -> Result<(), SyntaxFault> {
    let alloc = rt.alloc();
    for (source, wanted) in [
        ("operation f judgement : boundary", "Judgement : Boundary"),
        ("operation f unit : bool", "Unit : Bool"),
        (
            "operation f list unit : option bool",
            "List Unit : Opt Bool",
        ),
        (
            "operation f unit : unit * bool * unit",
            "Unit : Pair Unit Pair",
        ),
        (
            "operation f (unit * bool) : (unit * bool) * unit",
            "Pair Unit Bool : Pair Pair Unit",
        ),
        (
            "operation f unit : list unit * bool",
            "Unit : Pair List Bool",
        ),
    ] {
        let found = declared(alloc, source)?;
        assert!(rt; found.as_str() == wanted, "{source}");
    }
    Ok(())
}

// The kinds of the premises and of the conclusion of the one rule of a source.
fn ruled(alloc: Global, source: &str) -> Result<String, SyntaxFault> {
    match commands(alloc, source)?.as_slice() {
        [Command::Rule(_, _, premises, concludes)] => {
            let mut text = String::new(alloc);
            for premise in premises.as_slice() {
                put_premise(&mut text, premise)?;
            }
            put_conclusion(&mut text, concludes)?;
            Ok(text)
        }
        _ => Ok(String::new(alloc)),
    }
}

fn put_premise(text: &mut String, premise: &Premise) -> Result<(), AllocError> {
    let (word, at) = match &premise.body {
        Body::Type(at, _) => ("type", *at),
        Body::Term(at, _, _) => ("term", *at),
        Body::Equation(at, _, _, None, _) => ("type equation", *at),
        Body::Equation(at, _, _, Some(_), _) => ("term equation", *at),
    };
    let binders = premise.binders.len();
    write!(text, "{}:{binders} {word}@{at}, ", premise.at)
}

fn put_conclusion(text: &mut String, concludes: &Conclusion) -> Result<(), AllocError> {
    let (word, at) = match concludes {
        Conclusion::Type(at) => ("type", *at),
        Conclusion::Term(at, _) => ("term", *at),
        Conclusion::Equation(at, _, _, None) => ("type equation", *at),
        Conclusion::Equation(at, _, _, Some(_)) => ("term equation", *at),
    };
    write!(text, "{word}@{at}")
}

#[test]
fn each_rule_has_its_tree(rt: HostRuntime) -> Result<(), SyntaxFault> {
    let alloc = rt.alloc();
    for (source, wanted) in [
        ("rule A type", "type@7"),
        ("rule a : A", "term@7"),
        ("rule a : b == c", "type equation@7"),
        ("rule a : b == c : A", "term equation@7"),
        ("rule F (A type) type", "7:0 type@8, type@16"),
        ("rule F ({x : A} B type) type", "7:1 type@16, type@24"),
        ("rule F ({x : A}{y : A} b : B) type", "7:2 term@23, type@30"),
        ("rule F (a == b by c) type", "7:0 type equation@8, type@21"),
        (
            "rule F (a b == c : A by d) type",
            "7:0 term equation@8, type@27",
        ),
        (
            "rule F (a : A) (b : A) : A",
            "7:0 term@8, 15:0 term@16, term@23",
        ),
        (
            "rule F (let x = y in x == z by c) type",
            "7:0 type equation@8, type@34",
        ),
    ] {
        let found = ruled(alloc, source)?;
        assert!(rt; found.as_str() == wanted, "{source}");
    }
    Ok(())
}

#[test]
fn each_command_is_read(rt: HostRuntime) -> Result<(), SyntaxFault> {
    let source =
        "rule A type let x = a operation f unit : bool computation c extensionality e show x";
    let found = commands(rt.alloc(), source)?;
    assert!(rt;
        matches!(
            found.as_slice(),
            [
                Command::Rule(0, _, _, _),
                Command::Let(12, _, _),
                Command::Operation(22, _, _, _),
                Command::Computation(46, _),
                Command::Extensionality(60, _),
                Command::Show(77, _),
            ]
        )
    );
    Ok(())
}

// Sources, with the place of the first token that is not allowed.
const FAULTS: [(&str, Option<u64>); 17] = [
    ("", None),
    (" -- nothing", None),
    ("N (x : A) : B", Some(0)),
    ("rule rule (x : A) : B", Some(5)),
    ("rule N )x : A) : B", Some(7)),
    ("rule N () : B", Some(8)),
    ("rule N (x ) : B", Some(10)),
    ("rule N (x : ) : B", Some(12)),
    ("rule N (x : A by) : B", Some(14)),
    ("rule N (x : A) A", Some(15)),
    ("rule N (x : A) :", Some(16)),
    ("rule N (x : A) : )", Some(17)),
    ("rule N (x : A) : B )", Some(19)),
    ("show match a with end", Some(18)),
    ("show handle a with | val x -> b | val y -> c end", Some(34)),
    ("show f {x : A} x", Some(10)),
    ("show a $ b $", Some(7)),
];

#[test]
fn the_first_token_that_is_not_allowed_is_named(rt: HostRuntime) -> Result<(), SyntaxFault> {
    let alloc = rt.alloc();
    for (source, place) in FAULTS {
        let fault = place.map(SyntaxFault::Unexpected);
        assert!(rt; commands(alloc, source).err() == fault, "{source}");
    }
    Ok(())
}

// What stands before, what stands so many times, between, and so many times again, what stands after, and the place of a part
// at nesting 201.
const NESTED: [(&str, &str, usize, &str, &str, &str, Option<u64>); 15] = [
    ("show ", "(", 199, "a", ")", "", None),
    ("show ", "(", 200, "a", ")", "", Some(205)),
    ("show ", "(", 200, "", ")", "", None),
    ("show ", "(", 201, "", ")", "", Some(205)),
    ("show ", "(", 200, "by", ")", "", Some(205)),
    ("show ", "(", 197, "none (unit)", ")", "", None),
    ("show ", "(", 199, "none unit", ")", "", Some(209)),
    ("show ", "a :: ", 199, "a", "", "", None),
    ("show ", "a :: ", 200, "a", "", "", Some(1005)),
    ("operation f unit : ", "list ", 199, "unit", "", "", None),
    (
        "operation f unit : ",
        "list ",
        200,
        "unit",
        "",
        "",
        Some(1019),
    ),
    ("operation f unit : ", "bool * ", 199, "bool", "", "", None),
    (
        "operation f unit : ",
        "bool * ",
        200,
        "bool",
        "",
        "",
        Some(1419),
    ),
    (
        "show match x with | ",
        "a :: ",
        198,
        "a",
        "",
        " -> b end",
        None,
    ),
    (
        "show match x with | ",
        "a :: ",
        199,
        "a",
        "",
        " -> b end",
        Some(1015),
    ),
];

// A text, so many times.
fn repeated(alloc: Global, text: &str, times: usize) -> Result<String, SyntaxFault> {
    let mut all = String::new(alloc);
    for _ in 0..times {
        all.push_str(text)?;
    }
    Ok(all)
}

#[test]
fn parts_nest_200_deep(rt: HostRuntime) -> Result<(), SyntaxFault> {
    let alloc = rt.alloc();
    for (before, left, times, middle, right, after, place) in NESTED {
        let left = repeated(alloc, left, times)?;
        let right = repeated(alloc, right, times)?;
        let source = format!(in alloc; "{before}{left}{middle}{right}{after}")?;
        let fault = place.map(SyntaxFault::TooNested);
        assert!(rt; commands(alloc, &source).err() == fault, "{source}");
    }
    Ok(())
}
