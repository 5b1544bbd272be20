//! Commands without a type, names without a meaning, and matches without a case.

use crate::theories::{NATURALS, OPERATIONS, writes};
use ft_base::Memory;

// Faults of types; `ft_tests_language` has all.
const TYPES: [(&str, u8, &str); 57] = [
    ("show x", 8, "error 4:6 unbound x\n"),
    // What comes before is run.
    (
        "show S O show x",
        8,
        "|- S(O) : Nat\nerror 4:15 unbound x\n",
    ),
    // A command is typed only when it is reached.
    ("show O{O} show x", 11, "error 4:6 refused NotAbstracted\n"),
    ("let x = x", 8, "error 4:9 unbound x\n"),
    (
        "show later rule later : Nat",
        8,
        "error 4:6 unbound later\n",
    ),
    ("rule R (x : y) type", 8, "error 4:13 unbound y\n"),
    ("show perform ask ()", 8, "error 4:14 unbound ask\n"),
    (
        "show handle O with | ask x -> x end",
        8,
        "error 4:22 unbound ask\n",
    ),
    (
        "show congruence R (nil judgement) (nil judgement)",
        8,
        "error 4:17 unbound R\n",
    ),
    // The rule of an equation has no symbol.
    (
        "rule e : O == O : Nat show match O with | @ e -> O end",
        8,
        "accepted e\nerror 4:45 unbound e\n",
    ),
    (
        "show match O with | @ T -> O end",
        8,
        "error 4:23 unbound T\n",
    ),
    (
        "operation coerce unit : unit",
        8,
        "error 4:11 coerce declared twice\n",
    ),
    (
        "operation a unit : bool operation a unit : bool",
        8,
        "error 4:35 a declared twice\n",
    ),
    (
        "rule R (x type) (x type) type",
        8,
        "error 4:18 x declared twice\n",
    ),
    (
        "show match (O, O) with | (x, x) -> x end",
        8,
        "error 4:30 x declared twice\n",
    ),
    (
        "show match S O with | @ S -> x end",
        8,
        "error 4:25 S takes 1, given 0\n",
    ),
    (
        "show handle O with | coerce p -> O | coerce p -> O end",
        8,
        "error 4:38 coerce declared twice\n",
    ),
    ("show Nat Nat", 8, "error 4:6 Nat takes 0, given 1\n"),
    ("show S (S)", 8, "error 4:9 S takes 1, given 0\n"),
    ("show S O O", 8, "error 4:6 S takes 1, given 2\n"),
    ("let x = O show x O", 8, "error 4:16 x takes 0, given 1\n"),
    ("show true", 8, "error 4:6 type bool, wanted judgement\n"),
    ("show ()", 8, "error 4:6 type unit, wanted judgement\n"),
    (
        "show (O, O)",
        8,
        "error 4:6 type judgement * judgement, wanted judgement\n",
    ),
    (
        "show boundaryof O",
        8,
        "error 4:6 type boundary, wanted judgement\n",
    ),
    (
        "show nil bool",
        8,
        "error 4:6 type list bool, wanted judgement\n",
    ),
    (
        "show none (bool * unit)",
        8,
        "error 4:6 type option (bool * unit), wanted judgement\n",
    ),
    ("show S true", 8, "error 4:8 type bool, wanted judgement\n"),
    (
        "show if O then O else O",
        8,
        "error 4:9 type judgement, wanted bool\n",
    ),
    (
        "show if true then O else ()",
        8,
        "error 4:26 type unit, wanted judgement\n",
    ),
    (
        "show match true with | true -> O | false -> () end",
        8,
        "error 4:45 type unit, wanted judgement\n",
    ),
    (
        "show match O with | some x -> x end",
        8,
        "error 4:21 type judgement, wanted option\n",
    ),
    (
        "show match O with | (x, y) -> x end",
        8,
        "error 4:21 type judgement, wanted pair\n",
    ),
    (
        "show match O with | x :: y -> x end",
        8,
        "error 4:21 type judgement, wanted list\n",
    ),
    (
        "show match some O with | some nil -> O end",
        8,
        "error 4:31 type judgement, wanted list\n",
    ),
    (
        "show match true with | @ O -> O end",
        8,
        "error 4:24 type bool, wanted judgement\n",
    ),
    (
        "show match O with | () -> O end",
        8,
        "error 4:21 type judgement, wanted unit\n",
    ),
    (
        "show {x : true} O",
        8,
        "error 4:11 type bool, wanted judgement\n",
    ),
    (
        "show {x : Nat} (x, x)",
        8,
        "error 4:16 type judgement * judgement, wanted judgement\n",
    ),
    (
        "show O :: O",
        8,
        "error 4:11 type judgement, wanted list judgement\n",
    ),
    (
        "show O :: nil bool",
        8,
        "error 4:11 type list bool, wanted list judgement\n",
    ),
    ("show true{O}", 8, "error 4:6 type bool, wanted judgement\n"),
    ("show O{true}", 8, "error 4:8 type bool, wanted judgement\n"),
    (
        "show fill O O",
        8,
        "error 4:11 type judgement, wanted boundary\n",
    ),
    (
        "show typeof ()",
        8,
        "error 4:13 type unit, wanted judgement\n",
    ),
    (
        "show refl (boundaryof O)",
        8,
        "error 4:12 type boundary, wanted judgement\n",
    ),
    (
        "show trans O ()",
        8,
        "error 4:14 type unit, wanted judgement\n",
    ),
    (
        "show argument true 1",
        8,
        "error 4:15 type bool, wanted judgement\n",
    ),
    (
        "show congruence S O (nil judgement)",
        8,
        "error 4:19 type judgement, wanted list judgement\n",
    ),
    (
        "show congruence S (nil judgement) ()",
        8,
        "error 4:35 type unit, wanted list judgement\n",
    ),
    (
        "operation a bool : unit let b = perform a ()",
        8,
        "error 4:43 type unit, wanted bool\n",
    ),
    (
        "operation a bool : unit let b = handle () with | a x -> x end",
        8,
        "error 4:57 type bool, wanted unit\n",
    ),
    (
        "show handle O with | val x -> O | coerce p -> p end",
        8,
        "error 4:47 type judgement * boundary, wanted judgement\n",
    ),
    (
        "rule R : true",
        8,
        "error 4:10 type bool, wanted judgement\n",
    ),
    (
        "rule R ({x : ()} A type) type",
        8,
        "error 4:14 type unit, wanted judgement\n",
    ),
    (
        "rule R (O == () : Nat by e) type",
        8,
        "error 4:14 type unit, wanted judgement\n",
    ),
    // No handler takes a fault of types.
    (
        "show handle x with | coerce p -> O end",
        8,
        "error 4:13 unbound x\n",
    ),
];

#[test]
fn a_command_without_a_type_ends_the_run(rt: HostRuntime) -> Result<(), Memory> {
    for (commands, status, lines) in TYPES {
        assert!(rt;
            writes(rt.alloc(), &NATURALS, commands, status, lines)?,
            "{commands}"
        );
    }
    Ok(())
}

// No case fits.
const UNMATCHED: [(&str, u8, &str); 16] = [
    (
        "show match none judgement with | some x -> x end",
        12,
        "error 4:6 no match\n",
    ),
    (
        "show S (match some O with | none -> O end)",
        12,
        "error 4:9 no match\n",
    ),
    (
        "show match nil judgement with | x :: y -> x end",
        12,
        "error 4:6 no match\n",
    ),
    (
        "show match O :: nil judgement with | nil -> O | _ :: _ :: _ -> O end",
        12,
        "error 4:6 no match\n",
    ),
    (
        "show match true with | false -> O end",
        12,
        "error 4:6 no match\n",
    ),
    (
        "show match (true, false) with | (false, _) -> O | (_, true) -> O end",
        12,
        "error 4:6 no match\n",
    ),
    (
        "show match O with | @ S x -> x end",
        12,
        "error 4:6 no match\n",
    ),
    (
        "show match S O with | @ S (@ S x) -> x end",
        12,
        "error 4:6 no match\n",
    ),
    (
        "show match refl O with | @ O -> O | @ Nat -> O end",
        12,
        "error 4:6 no match\n",
    ),
    (
        "show {x : Nat} match x with | @ O -> O | @ S y -> y end",
        12,
        "error 4:16 no match\n",
    ),
    (
        "let x = if true then match none bool with | some x -> x end else true",
        12,
        "error 4:22 no match\n",
    ),
    (
        "show let x = match some true with | some false -> O end in O",
        12,
        "error 4:14 no match\n",
    ),
    // No handler takes it.
    (
        "show handle match true with | false -> O end with | val x -> S x | coerce p -> O end",
        12,
        "error 4:13 no match\n",
    ),
    (
        "show match true with | true -> match false with | true -> O end end",
        12,
        "error 4:32 no match\n",
    ),
    (
        "rule R ({x : Nat} A : match x with | @ O -> Nat end) type",
        12,
        "error 4:23 no match\n",
    ),
    (
        "show S O show match O :: nil judgement with | nil -> O end",
        12,
        "|- S(O) : Nat\nerror 4:15 no match\n",
    ),
];

#[test]
fn a_match_without_a_case_that_fits_ends_the_run(rt: HostRuntime) -> Result<(), Memory> {
    for (commands, status, lines) in UNMATCHED {
        assert!(rt;
            writes(rt.alloc(), &NATURALS, commands, status, lines)?,
            "{commands}"
        );
    }
    Ok(())
}

// An operation that no handler takes, in each kind of place.
const UNHANDLED: [(&str, u8, &str); 51] = [
    ("show perform ask ()", 10, "error 9:6 unhandled ask\n"),
    ("let x = perform pick ()", 10, "error 9:9 unhandled pick\n"),
    (
        "show let x = perform ask () in O",
        10,
        "error 9:14 unhandled ask\n",
    ),
    (
        "show let x = O in perform put x",
        10,
        "error 9:19 unhandled put\n",
    ),
    (
        "show if perform pick () then O else perform ask ()",
        10,
        "error 9:9 unhandled pick\n",
    ),
    (
        "show if true then perform ask () else perform put O",
        10,
        "error 9:19 unhandled ask\n",
    ),
    (
        "show if false then perform ask () else perform put O",
        10,
        "error 9:40 unhandled put\n",
    ),
    (
        "show match perform ask () with | x -> O end",
        10,
        "error 9:12 unhandled ask\n",
    ),
    (
        "show match O with | @ S x -> perform put x | x -> perform ask () end",
        10,
        "error 9:51 unhandled ask\n",
    ),
    (
        "show handle perform ask () with | put x -> x end",
        10,
        "error 9:13 unhandled ask\n",
    ),
    // The case for a value is run outside.
    (
        "show handle O with | val x -> perform ask () | ask u -> O end",
        10,
        "error 9:31 unhandled ask\n",
    ),
    // So is that of an operation.
    (
        "show handle perform ask () with | ask u -> perform ask () end",
        10,
        "error 9:44 unhandled ask\n",
    ),
    (
        "show handle (handle perform ask () with | ask u -> perform put O end) with | ask u -> O end",
        10,
        "error 9:52 unhandled put\n",
    ),
    (
        "show handle perform put (perform ask ()) with | put x -> x end",
        10,
        "error 9:26 unhandled ask\n",
    ),
    (
        "show {x : perform ask ()} O",
        10,
        "error 9:11 unhandled ask\n",
    ),
    (
        "show {x : Nat} perform put x",
        10,
        "error 9:16 unhandled put\n",
    ),
    (
        "show perform ask () :: perform put O :: nil judgement",
        10,
        "error 9:6 unhandled ask\n",
    ),
    (
        "show O :: S (perform put O) :: nil judgement",
        10,
        "error 9:14 unhandled put\n",
    ),
    (
        "let p = (O, (true, perform pick ()))",
        10,
        "error 9:20 unhandled pick\n",
    ),
    (
        "show some (perform ask ())",
        10,
        "error 9:12 unhandled ask\n",
    ),
    (
        "show refl (perform ask ())",
        10,
        "error 9:12 unhandled ask\n",
    ),
    (
        "show trans (perform ask ()) (perform put O)",
        10,
        "error 9:13 unhandled ask\n",
    ),
    // Both parts come before the refusal.
    (
        "show trans O (perform put O)",
        10,
        "error 9:15 unhandled put\n",
    ),
    (
        "show fill (boundaryof O) (perform ask ())",
        10,
        "error 9:27 unhandled ask\n",
    ),
    (
        "show argument (perform ask ()) 1",
        10,
        "error 9:16 unhandled ask\n",
    ),
    (
        "show congruence S (perform ask () :: nil judgement) (nil judgement)",
        10,
        "error 9:20 unhandled ask\n",
    ),
    (
        "show congruence O (nil judgement) (perform ask () :: nil judgement)",
        10,
        "error 9:36 unhandled ask\n",
    ),
    ("show S (perform ask ())", 10, "error 9:9 unhandled ask\n"),
    (
        "show P O (perform ask ())",
        10,
        "error 9:11 unhandled ask\n",
    ),
    ("show (perform ask ()){O}", 10, "error 9:7 unhandled ask\n"),
    (
        "show ({x : Nat} x){perform ask ()}",
        10,
        "error 9:20 unhandled ask\n",
    ),
    ("show O{perform ask ()}", 10, "error 9:8 unhandled ask\n"),
    (
        "rule R (x : perform ask ()) type",
        10,
        "error 9:13 unhandled ask\n",
    ),
    (
        "rule R ({x : perform ask ()} A type) type",
        10,
        "error 9:14 unhandled ask\n",
    ),
    (
        "rule R ({x : Nat} {y : perform put x} A type) type",
        10,
        "error 9:24 unhandled put\n",
    ),
    (
        "rule R (O == perform ask () : Nat by e) type",
        10,
        "error 9:14 unhandled ask\n",
    ),
    (
        "rule R (O == O : perform ask () by e) type",
        10,
        "error 9:18 unhandled ask\n",
    ),
    (
        "rule R (x : Nat) : perform put x",
        10,
        "error 9:20 unhandled put\n",
    ),
    (
        "rule R : perform ask () == O : Nat",
        10,
        "error 9:10 unhandled ask\n",
    ),
    (
        "show O show perform ask () show S O",
        10,
        "|- O : Nat\nerror 9:13 unhandled ask\n",
    ),
    ("show S Nat", 10, "error 9:8 unhandled coerce\n"),
    ("show P O Nat", 10, "error 9:10 unhandled coerce\n"),
    // An argument is held against its boundary before the next one is evaluated.
    (
        "show P Nat (perform ask ())",
        10,
        "error 9:8 unhandled coerce\n",
    ),
    // At the start of the argument, inside its parentheses.
    ("show S (S (refl O))", 10, "error 9:12 unhandled coerce\n"),
    ("show S ({x : Nat} x)", 10, "error 9:9 unhandled coerce\n"),
    (
        "show fill (boundaryof O) Nat",
        10,
        "error 9:26 unhandled coerce\n",
    ),
    (
        "show {x : Nat} fill (boundaryof x) (refl x)",
        10,
        "error 9:37 unhandled coerce\n",
    ),
    // Whether it fits or not.
    (
        "show perform coerce (O, boundaryof O)",
        10,
        "error 9:6 unhandled coerce\n",
    ),
    (
        "rule R (A type) (a : A) (b : S a) type",
        10,
        "error 9:32 unhandled coerce\n",
    ),
    (
        "show handle S Nat with | coerce p -> match p with | (j, b) -> S j end end",
        10,
        "error 9:65 unhandled coerce\n",
    ),
    (
        "show handle O with | val x -> S Nat | coerce p -> O end",
        10,
        "error 9:33 unhandled coerce\n",
    ),
];

#[test]
fn an_operation_without_a_handler_ends_the_run(rt: HostRuntime) -> Result<(), Memory> {
    for (commands, status, lines) in UNHANDLED {
        assert!(rt;
            writes(rt.alloc(), &OPERATIONS, commands, status, lines)?,
            "{commands}"
        );
    }
    Ok(())
}
