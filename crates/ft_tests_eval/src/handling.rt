//! Operations and their handlers.

use crate::theories::{COERCIONS, OPERATIONS, writes};
use ft_base::Memory;

// Which handler takes an operation, and what it gives.
const HANDLED: [(&str, u8, &str); 28] = [
    ("show handle O with end", 0, "|- O : Nat\n"),
    (
        "show handle O with | val x -> S x end",
        0,
        "|- S(O) : Nat\n",
    ),
    ("show handle O with | ask u -> S O end", 0, "|- O : Nat\n"),
    (
        "show handle perform ask () with | ask u -> O end",
        0,
        "|- O : Nat\n",
    ),
    // The rest of the body is given up.
    (
        "show handle S (perform ask ()) with | ask u -> O end",
        0,
        "|- O : Nat\n",
    ),
    (
        "show handle S (perform put (S O)) with | put x -> x end",
        0,
        "|- S(O) : Nat\n",
    ),
    // What a case gives does not go through `val`.
    (
        "show handle perform ask () with | val x -> S x | ask u -> O end",
        0,
        "|- O : Nat\n",
    ),
    (
        "show handle (if perform pick () then O else S O) with | val x -> x :: nil judgement | pick u -> O :: S O :: nil judgement end",
        0,
        "|- O : Nat\n|- S(O) : Nat\n",
    ),
    // The innermost one takes it.
    (
        "show handle (handle perform ask () with | ask u -> O end) with | ask u -> S O end",
        0,
        "|- O : Nat\n",
    ),
    (
        "show handle (handle perform ask () with | put x -> x end) with | ask u -> S O end",
        0,
        "|- S(O) : Nat\n",
    ),
    // Only the body of the one that takes it is given up.
    (
        "show handle S (handle S (perform ask ()) with | ask u -> O end) with | ask u -> O end",
        0,
        "|- S(O) : Nat\n",
    ),
    // A case is run outside its handler.
    (
        "show handle (handle perform ask () with | ask u -> perform ask () end) with | ask u -> S O end",
        0,
        "|- S(O) : Nat\n",
    ),
    // Also for the other cases of it.
    (
        "show handle (handle perform ask () with | ask u -> perform put O | put x -> x end) with | put x -> S x end",
        0,
        "|- S(O) : Nat\n",
    ),
    // So is `val`.
    (
        "show handle (handle O with | val x -> perform put x | put x -> x end) with | put x -> S x end",
        0,
        "|- S(O) : Nat\n",
    ),
    (
        "show handle (handle O with | val x -> S x end) with | val x -> S (S x) end",
        0,
        "|- S(S(S(O))) : Nat\n",
    ),
    // The argument comes first.
    (
        "show handle perform put (perform ask ()) with | put x -> S x | ask u -> O end",
        0,
        "|- O : Nat\n",
    ),
    // A case has the names that its handler had.
    (
        "show let x = O in handle let x = S O in perform ask () with | ask u -> x end",
        0,
        "|- O : Nat\n",
    ),
    (
        "show let x = O in handle perform put (S x) with | put x -> x end",
        0,
        "|- S(O) : Nat\n",
    ),
    (
        "let k = S O show handle perform ask () with | ask k -> O end show k",
        0,
        "|- O : Nat\n|- S(O) : Nat\n",
    ),
    (
        "show {x : Nat} handle perform ask () with | ask u -> S x end",
        0,
        "|- {@0 : Nat} S(@0) : Nat\n",
    ),
    // An abstraction is given up too.
    (
        "show handle ({x : Nat} perform ask ()) with | ask u -> S O end",
        0,
        "|- S(O) : Nat\n",
    ),
    (
        "show handle perform give (O :: S O :: nil judgement) with | give l -> match l with | _ :: x :: _ -> x | _ -> Nat end end",
        0,
        "|- S(O) : Nat\n",
    ),
    (
        "operation none_ (bool * option judgement) : unit show handle (match perform none_ (true, some O) with | () -> S O end) with | none_ p -> match p with | (true, some x) -> x | _ -> Nat end end",
        0,
        "|- O : Nat\n",
    ),
    // Operations have names of their own.
    (
        "operation S unit : judgement show S (handle perform S () with | S u -> O end)",
        0,
        "|- S(O) : Nat\n",
    ),
    (
        "let f = handle perform ask () with | ask u -> {x : Nat} S x end show f{O}",
        0,
        "|- S(O) : Nat\n",
    ),
    (
        "let b = handle boundaryof O with | val b -> b end show fill b O",
        0,
        "|- O : Nat\n",
    ),
    (
        "show if (handle perform pick () with | pick u -> false end) then O else S O",
        0,
        "|- S(O) : Nat\n",
    ),
    (
        "show match (handle (let x = perform ask () in none judgement) with | ask u -> some O end) with | some x -> x | none -> Nat end",
        0,
        "|- O : Nat\n",
    ),
];

#[test]
fn a_handler_takes_what_its_body_performs(rt: HostRuntime) -> Result<(), Memory> {
    for (commands, status, lines) in HANDLED {
        assert!(rt;
            writes(rt.alloc(), &OPERATIONS, commands, status, lines)?,
            "{commands}"
        );
    }
    Ok(())
}

// The first part that performs an operation is heard.
const ORDER: [(&str, u8, &str); 15] = [
    (
        "show handle P (perform put O) (perform put (S O)) with | put x -> x end",
        0,
        "|- O : Nat\n",
    ),
    (
        "show handle P O (perform put (S O)) with | put x -> x end",
        0,
        "|- S(O) : Nat\n",
    ),
    // An argument that does not fit is heard before the next one.
    (
        "show handle P Nat (perform put O) with | coerce p -> S O | put x -> x end",
        0,
        "|- S(O) : Nat\n",
    ),
    (
        "show handle P (perform put O) Nat with | coerce p -> S O | put x -> x end",
        0,
        "|- O : Nat\n",
    ),
    (
        "show handle trans (perform put O) (perform put (S O)) with | put x -> x end",
        0,
        "|- O : Nat\n",
    ),
    (
        "show handle congruence S (perform put O :: nil judgement) (perform put (S O) :: nil judgement) with | put x -> x end",
        0,
        "|- O : Nat\n",
    ),
    (
        "show handle (perform put O :: perform give (nil judgement) :: nil judgement) with | val l -> Nat | put x -> x | give l -> S O end",
        0,
        "|- O : Nat\n",
    ),
    (
        "show handle (perform put O, perform put (S O)) with | val p -> Nat | put x -> x end",
        0,
        "|- O : Nat\n",
    ),
    (
        "show handle (perform put O){perform put (S O)} with | put x -> x end",
        0,
        "|- O : Nat\n",
    ),
    (
        "show handle ({x : Nat} {y : Nat} x){perform put O}{perform put (S O)} with | put x -> x end",
        0,
        "|- O : Nat\n",
    ),
    // A term is put in before the next one is evaluated.
    (
        "show handle ({x : Nat} x){Nat}{perform put (S O)} with | put x -> x end",
        11,
        "error 9:13 refused WrongForm\n",
    ),
    (
        "show handle (let x = perform put O in perform put (S x)) with | put x -> x end",
        0,
        "|- O : Nat\n",
    ),
    (
        "show handle {x : perform put Nat} perform put O with | put x -> x end",
        0,
        "|- Nat type\n",
    ),
    (
        "show handle (match perform put O with | x -> perform put (S x) end) with | put x -> x end",
        0,
        "|- O : Nat\n",
    ),
    (
        "show handle fill (boundaryof (perform put O)) (perform put (S O)) with | put x -> x end",
        0,
        "|- O : Nat\n",
    ),
];

#[test]
fn parts_are_evaluated_from_the_left(rt: HostRuntime) -> Result<(), Memory> {
    for (commands, status, lines) in ORDER {
        assert!(rt;
            writes(rt.alloc(), &OPERATIONS, commands, status, lines)?,
            "{commands}"
        );
    }
    Ok(())
}

// Handlers inside cases, values and rules.
const NESTED: [(&str, u8, &str); 15] = [
    // A handler inside a case.
    (
        "show handle perform ask () with | ask u -> handle perform put O with | put x -> S x end end",
        0,
        "|- S(O) : Nat\n",
    ),
    // Of the same operation.
    (
        "show handle perform ask () with | ask u -> handle perform ask () with | ask u -> O end end",
        0,
        "|- O : Nat\n",
    ),
    // The outer one is left already.
    (
        "show handle perform ask () with | ask u -> handle perform put O with | ask u -> O end | put x -> x end",
        10,
        "error 9:51 unhandled put\n",
    ),
    // A handler inside `val`.
    (
        "show handle O with | val x -> handle perform put x with | put y -> P x y end | put z -> Nat end",
        0,
        "|- P(O, O) : Nat\n",
    ),
    (
        "show handle (handle perform ask () with | ask u -> handle perform put O with | ask u -> Nat end end) with | put x -> S x end",
        0,
        "|- S(O) : Nat\n",
    ),
    // A handler inside an argument.
    (
        "show handle perform put (handle perform ask () with | ask u -> S O end) with | put x -> x end",
        0,
        "|- S(O) : Nat\n",
    ),
    (
        "show match (handle (O, perform ask ()) with | ask u -> (S O, O) end) with | (x, y) -> P x y end",
        0,
        "|- P(S(O), O) : Nat\n",
    ),
    // A handler inside a premise.
    (
        "rule R (a : handle perform ask () with | ask u -> Nat end) : Nat show R O",
        0,
        "accepted R\n|- R(O) : Nat\n",
    ),
    (
        "rule R ({x : Nat} a : handle perform put x with | put y -> Nat end) : Nat show R ({x : Nat} S x)",
        0,
        "accepted R\n|- R({@0} S(@0)) : Nat\n",
    ),
    (
        "rule R ({x : handle perform ask () with | ask u -> Nat end} A type) (n : Nat) : handle perform put n with | put m -> A{m} end show R ({x : Nat} Nat) O",
        0,
        "accepted R\n|- R({@0} Nat, O) : Nat\n",
    ),
    (
        "let l = handle (P (perform put O) O) with | val x -> x :: nil judgement | put x -> x :: x :: nil judgement end show l show O :: l",
        0,
        "|- O : Nat\n|- O : Nat\n|- O : Nat\n|- O : Nat\n|- O : Nat\n",
    ),
    // No handler takes a refusal.
    (
        "show handle O{O} with | val x -> x | coerce p -> O | ask u -> O end",
        11,
        "error 9:13 refused NotAbstracted\n",
    ),
    // A refusal in a case.
    (
        "show handle perform put O with | put x -> x{x} end",
        11,
        "error 9:43 refused NotAbstracted\n",
    ),
    (
        "show handle O with | val x -> x{x} end",
        11,
        "error 9:31 refused NotAbstracted\n",
    ),
    (
        "show handle perform put O with | put x -> match x with | @ S y -> y end end",
        12,
        "error 9:43 no match\n",
    ),
];

#[test]
fn handlers_stand_in_cases_and_in_rules(rt: HostRuntime) -> Result<(), Memory> {
    for (commands, status, lines) in NESTED {
        assert!(rt;
            writes(rt.alloc(), &OPERATIONS, commands, status, lines)?,
            "{commands}"
        );
    }
    Ok(())
}

// Variables that get out by an operation.
const LEFT: [(&str, u8, &str); 15] = [
    (
        "show handle {x : Nat} perform put x with | put z -> z end",
        0,
        "x#0 : Nat |- x#0 : Nat\n",
    ),
    (
        "show handle {x : Nat} perform put (S x) with | put z -> P z z end",
        0,
        "x#0 : Nat |- P(S(x#0), S(x#0)) : Nat\n",
    ),
    (
        "let y = handle {x : Nat} perform put x with | put z -> z end show {z : Nat} P y z",
        0,
        "x#0 : Nat |- {@0 : Nat} P(x#0, @0) : Nat\n",
    ),
    (
        "let y = handle {x : Nat} perform put x with | put z -> z end show ({z : Nat} S z){y} show O",
        0,
        "x#0 : Nat |- S(x#0) : Nat\n|- O : Nat\n",
    ),
    // It stays where the judgement rests on it.
    (
        "let y = handle {x : Nat} perform put x with | put z -> z end show widen O y",
        0,
        "x#0 : Nat |- O : Nat\n",
    ),
    // Two of one name, by their numbers.
    (
        "let a = handle {x : Nat} perform put x with | put z -> z end let b = handle {x : Nat} perform put x with | put z -> z end show P a b show P b a",
        0,
        "x#0 : Nat, x#1 : Nat |- P(x#0, x#1) : Nat\nx#0 : Nat, x#1 : Nat |- P(x#1, x#0) : Nat\n",
    ),
    // Counted on its line alone.
    (
        "let a = handle {x : Nat} perform put x with | put z -> z end let b = handle {x : Nat} perform put x with | put z -> z end show b",
        0,
        "x#0 : Nat |- x#0 : Nat\n",
    ),
    (
        "rule F (n : Nat) type show handle {x : Nat} {y : F x} perform put y with | put z -> z end",
        0,
        "accepted F\nx#0 : Nat, y#1 : F(x#0) |- y#1 : F(x#0)\n",
    ),
    (
        "rule F (n : Nat) type show handle {x : Nat} {y : F x} perform put (refl y) with | put z -> z end",
        0,
        "accepted F\nx#0 : Nat, y#1 : F(x#0) |- y#1 == y#1 : F(x#0)\n",
    ),
    // What it does not rest on does not stay.
    (
        "show handle {x : Nat} {y : Nat} perform put ({z : Nat} P x z) with | put z -> z{O} end",
        0,
        "x#0 : Nat |- P(x#0, O) : Nat\n",
    ),
    (
        "show handle ({x : Nat} {y : Nat} perform give (y :: x :: nil judgement)) with | val z -> nil judgement | give l -> l end",
        0,
        "y#0 : Nat |- y#0 : Nat\nx#0 : Nat |- x#0 : Nat\n",
    ),
    (
        "show {x : Nat} handle {y : Nat} perform put (P x y) with | put z -> z end",
        0,
        "y#0 : Nat |- {@0 : Nat} P(@0, y#0) : Nat\n",
    ),
    (
        "let y = handle {x : Nat} perform put x with | put z -> z end rule R (a : y) type",
        11,
        "error 9:70 refused WrongForm\n",
    ),
    (
        "rule Empty type rule Bool type rule absurd (a : Empty) : Nat == Bool show handle {a : Empty} perform put (convert O (absurd a)) with | put z -> z end",
        0,
        "accepted Empty\naccepted Bool\naccepted absurd\na#0 : Empty |- O : Bool\n",
    ),
    (
        "rule Empty type rule R (a : Empty) : Nat let y = handle {a : Empty} perform put a with | put z -> z end show refl (R y) show typeof (R y)",
        0,
        "accepted Empty\naccepted R\na#0 : Empty |- R(a#0) == R(a#0) : Nat\na#0 : Empty |- Nat type\n",
    ),
];

#[test]
fn a_variable_that_gets_out_stays_in_the_context(rt: HostRuntime) -> Result<(), Memory> {
    for (commands, status, lines) in LEFT {
        assert!(rt;
            writes(rt.alloc(), &OPERATIONS, commands, status, lines)?,
            "{commands}"
        );
    }
    Ok(())
}

// The operation `coerce`.
const COERCED: [(&str, u8, &str); 25] = [
    ("show f u", 10, "error 7:8 unhandled coerce\n"),
    ("show f (convert u eq)", 0, "|- f(u) : T\n"),
    (
        "show handle f u with | coerce p -> match p with | (j, b) -> f (convert j eq) end end",
        0,
        "|- f(u) : T\n",
    ),
    // The judgement is the first part.
    (
        "show handle f u with | coerce p -> match p with | (j, b) -> j end end",
        0,
        "|- u : U\n",
    ),
    // The boundary is the second part.
    (
        "show handle f u with | coerce p -> match p with | (j, b) -> typeof b end end",
        0,
        "|- T type\n",
    ),
    // What the case gives is what the handler gives.
    (
        "show handle f u with | coerce p -> match p with | (j, b) -> fill b (convert j eq) end end",
        0,
        "|- u : T\n",
    ),
    (
        "show handle f (f u) with | coerce p -> match p with | (j, b) -> f (f (convert j eq)) end end",
        0,
        "|- f(f(u)) : T\n",
    ),
    // A handler around the argument alone.
    (
        "show f (handle fill (boundaryof O) u with | coerce p -> match p with | (j, b) -> convert j eq end end)",
        0,
        "|- f(u) : T\n",
    ),
    (
        "show handle fill (boundaryof O) U with | coerce p -> match p with | (j, b) -> j end end",
        0,
        "|- U type\n",
    ),
    // What fits is not coerced.
    (
        "show handle fill (boundaryof O) O with | coerce p -> match p with | (j, b) -> u end end",
        0,
        "|- O : T\n",
    ),
    (
        "show handle f O with | val x -> x | coerce p -> u end",
        0,
        "|- f(O) : T\n",
    ),
    // A case that performs it again.
    (
        "show handle f u with | coerce p -> match p with | (j, b) -> f j end end",
        10,
        "error 7:63 unhandled coerce\n",
    ),
    // The next handler outside takes it then.
    (
        "show handle (handle f u with | coerce p -> match p with | (j, b) -> f j end end) with | coerce p -> match p with | (j, b) -> f (convert j eq) end end",
        0,
        "|- f(u) : T\n",
    ),
    (
        "show handle (handle f u with | coerce p -> perform coerce p end) with | coerce p -> match p with | (j, b) -> convert j eq end end",
        0,
        "|- u : T\n",
    ),
    (
        "show handle f u with | coerce p -> handle f u with | coerce p -> O end end",
        0,
        "|- O : T\n",
    ),
    // The variable of an abstraction that is given up gets out.
    (
        "show handle {x : U} f x with | coerce p -> match p with | (j, b) -> convert j eq end end",
        0,
        "x#0 : U |- x#0 : T\n",
    ),
    (
        "show {x : U} handle f x with | coerce p -> match p with | (j, b) -> f (convert j eq) end end",
        0,
        "|- {@0 : U} f(@0) : T\n",
    ),
    // An abstraction.
    (
        "rule g ({x : U} y : T) : T show handle g ({x : U} x) with | coerce p -> match p with | (j, b) -> g ({x : U} convert j{x} eq) end end",
        0,
        "accepted g\n|- g({@0} @0) : T\n",
    ),
    (
        "rule g ({x : U} y : T) : T show handle g ({x : T} x) with | coerce p -> match p with | (j, b) -> fill b ({x : domain b} convert x eq) end end",
        0,
        "accepted g\n|- {@0 : U} @0 : T\n",
    ),
    // The boundary is that over the arguments before it.
    (
        "rule g (A type) (a : A) : T show handle g T u with | coerce p -> match p with | (j, b) -> g (typeof b) (convert j eq) end end",
        0,
        "accepted g\n|- g(T, u) : T\n",
    ),
    (
        "rule g (u == u : U by e) : T show handle g (refl (convert u eq)) with | coerce p -> match p with | (j, b) -> g (refl (left b)) end end",
        0,
        "accepted g\n|- g(*) : T\n",
    ),
    // In a rule.
    (
        "rule R (a : handle typeof (f u) with | coerce p -> match p with | (j, b) -> typeof b end end) type show R O",
        0,
        "accepted R\n|- R(O) type\n",
    ),
    // It can be performed by name.
    (
        "show handle perform coerce (u, boundaryof O) with | coerce p -> match p with | (j, b) -> fill b (convert j eq) end end",
        0,
        "|- u : T\n",
    ),
    (
        "let l = handle (f u :: nil judgement) with | coerce p -> match p with | (j, b) -> j :: convert j eq :: nil judgement end end show l",
        0,
        "|- u : U\n|- u : T\n",
    ),
    // A refusal is not coerced.
    (
        "show handle f (convert u (refl T)) with | coerce p -> O end",
        11,
        "error 7:16 refused TypeDiffers: found U, wanted T\n",
    ),
];

#[test]
fn coerce_is_performed_where_an_argument_does_not_fit(rt: HostRuntime) -> Result<(), Memory> {
    for (commands, status, lines) in COERCED {
        assert!(rt;
            writes(rt.alloc(), &COERCIONS, commands, status, lines)?,
            "{commands}"
        );
    }
    Ok(())
}
