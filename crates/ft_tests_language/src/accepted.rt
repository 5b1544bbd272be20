//! Sources without a fault of types.

use crate::faults::{NATURALS, first_fault};
use ft_grammar::{Command, SyntaxFault};
use ft_lexer::tokens;
use ft_parser::parse;
use ft_types::{Scope, check_command};
use std::alloc::Global;

// Sources that have no fault where they stand after the four rules.
const ACCEPTED: [&str; 61] = [
    "let a = let x = () in x",
    "let a = if true then () else ()",
    "let a = match (true, ()) with | (x, _) -> x | y -> false end",
    "let a = match true :: nil bool with | x :: _ -> x | nil -> false end",
    "let a = match some () with | some x -> x | none -> () end",
    "let a = match S O with | @ S (@ O) -> true | @ S x -> false | x -> true end",
    "let a = match () with | () -> true end",
    "let a = match true with | true -> () | false -> () end",
    "operation f unit : bool let a = handle perform f () with | val x -> (x, x) | f y -> (true, false) end",
    "let a = handle S O with | coerce p -> match p with | (j, b) -> fill b j end end",
    "show {x : Nat} S x",
    "let b = {x : Nat} boundaryof x",
    "show O :: S O :: nil judgement",
    "show refl O",
    "show sym eq",
    "show left eq",
    "show right (boundaryof eq)",
    "show typeof O",
    "show typeof (boundaryof O)",
    "show domain ({x : Nat} x)",
    "show natural O",
    "show normal O",
    "let b = boundaryof O",
    "show some O",
    "show trans eq eq",
    "show convert O (refl Nat)",
    "show equal O O",
    "show widen O eq",
    "show rewrite ({x : Nat} x) eq",
    "show fill (boundaryof O) O",
    "show argument (S O) 1",
    "show congruence S (O :: nil judgement) (eq :: nil judgement)",
    "operation f unit : judgement show perform f ()",
    "show ({x : Nat} S x){O}",
    "let a = ((true, ()), (none (bool * unit), nil (list boundary)))",
    "show none judgement",
    "show nil judgement",
    "computation eq",
    "extensionality eq",
    "rule R (A type) ({x : A} B type) (a : A) (a == a : A by e) : B{a}",
    "rule R : Nat == Nat",
    "operation f (bool * unit) : list (option judgement)",
    "show match (O, ()) with | (x, ()) -> x end",
    "let a = match true with | false -> () | true -> () | _ -> () end",
    "let a = match (true, ()) with | (x, y) -> x | (y, x) -> y end",
    "let a = match none bool with | none -> () end",
    "let a = match nil bool with | nil -> () | _ :: (_ :: _) -> () end",
    "let a = match Nat with | @ Nat -> true | @ S _ -> false end",
    "let a = handle O with end",
    "operation f unit : bool let a = handle () with | val x -> true | coerce x -> false | f x -> true end",
    "operation f bool : unit operation g unit : bool let a = handle true with | f x -> x | g x -> false end",
    "show perform coerce (O, boundaryof O)",
    "operation S bool : unit show S O let a = perform S true",
    "let S = O show S",
    "let a = true let a = O show a",
    "let x = O show let x = S x in x",
    "rule R (x : Nat) ({x : Nat} y : Nat) (Nat == Nat by z) : S x == y{x} : Nat",
    "show left (boundaryof eq)",
    "show domain (boundaryof ({x : Nat} x))",
    "show {x : Nat} {y : Nat} x",
    "let b = (boundaryof ({x : Nat} x)){O}",
];

#[test]
fn a_source_without_a_fault_is_accepted(rt: HostRuntime) -> Result<(), SyntaxFault> {
    let alloc = rt.alloc();
    for commands in ACCEPTED {
        let source = format!(in alloc; "{NATURALS}{commands}")?;
        let found = first_fault(alloc, &source)?;
        assert!(rt; found.bytes().is_empty(), "{source}");
    }
    Ok(())
}

// Whether the command has types, and is given back as the value of a name that begins at the place.
fn is_given_back(alloc: Global, command: Command, place: u64) -> Result<bool, SyntaxFault> {
    let mut scope = Scope::new(alloc)?;
    match check_command(alloc, &mut scope, command) {
        Ok(typed) => Ok(matches!(typed.command(), Command::Let(_, name, _) if name.at == place)),
        Err(_) => Ok(false),
    }
}

#[test]
fn a_checked_command_is_given_back(rt: HostRuntime) -> Result<(), SyntaxFault> {
    let alloc = rt.alloc();
    for command in parse(alloc, &tokens(alloc, "let a = true")?)? {
        assert!(rt; is_given_back(alloc, command, 4)?);
    }
    Ok(())
}
