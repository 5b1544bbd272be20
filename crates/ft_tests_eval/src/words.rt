//! Words of the nucleus: sides, types, equations, conversion, arguments and congruence.

use crate::theories::{EQUATIONS, writes};
use ft_base::Memory;

// Words before one atom, and arguments.
const PARTS: [(&str, u8, &str); 34] = [
    ("show refl O", 0, "|- O == O : Nat\n"),
    ("show refl Nat", 0, "|- Nat == Nat\n"),
    (
        "show refl ({x : Nat} S x)",
        0,
        "|- {@0 : Nat} S(@0) == S(@0) : Nat\n",
    ),
    (
        "show refl ({x : Nat} F x)",
        0,
        "|- {@0 : Nat} F(@0) == F(@0)\n",
    ),
    ("show sym one", 0, "|- S(O) == O : Nat\n"),
    ("show sym NT", 0, "|- T == Nat\n"),
    ("show left one", 0, "|- O : Nat\n"),
    ("show left NT", 0, "|- Nat type\n"),
    // An equation is its own boundary.
    ("show left (boundaryof one)", 0, "|- O : Nat\n"),
    (
        "show left ({x : Nat} refl (S x))",
        0,
        "|- {@0 : Nat} S(@0) : Nat\n",
    ),
    ("show right one", 0, "|- S(O) : Nat\n"),
    ("show right NT", 0, "|- T type\n"),
    ("show right (boundaryof NT)", 0, "|- T type\n"),
    (
        "show right ({x : Nat} refl (F x))",
        0,
        "|- {@0 : Nat} F(@0) type\n",
    ),
    ("show typeof O", 0, "|- Nat type\n"),
    ("show typeof one", 0, "|- Nat type\n"),
    ("show typeof (v (S O))", 0, "|- F(S(O)) type\n"),
    (
        "show typeof ({x : Nat} v x)",
        0,
        "|- {@0 : Nat} F(@0) type\n",
    ),
    ("show typeof (boundaryof (v O))", 0, "|- F(O) type\n"),
    (
        "show typeof (boundaryof ({x : Nat} refl x))",
        0,
        "|- {@0 : Nat} Nat type\n",
    ),
    ("show domain ({x : F O} O)", 0, "|- F(O) type\n"),
    // The first domain.
    ("show domain ({x : Nat} {y : F x} y)", 0, "|- Nat type\n"),
    ("show domain (boundaryof ({x : T} x))", 0, "|- T type\n"),
    ("show natural O", 0, "|- Nat == Nat\n"),
    ("show natural (v O)", 0, "|- F(O) == F(O)\n"),
    // The type that a term has by its rule, and the one that it is at.
    ("show natural (convert O NT)", 0, "|- Nat == T\n"),
    (
        "show {x : T} natural (convert x (sym NT))",
        0,
        "|- {@0 : T} T == Nat\n",
    ),
    ("show fill (boundaryof O) (S O)", 0, "|- S(O) : Nat\n"),
    ("show fill (boundaryof Nat) T", 0, "|- T type\n"),
    ("show fill (boundaryof one) one", 0, "|- O == S(O) : Nat\n"),
    (
        "show fill (boundaryof ({x : Nat} F x)) ({y : Nat} T)",
        0,
        "|- {@0 : Nat} T type\n",
    ),
    ("show argument (S O) 1", 0, "|- O : Nat\n"),
    ("show argument (F (S O)) 1", 0, "|- S(O) : Nat\n"),
    // At the type of its premise, whatever the application is at.
    (
        "show argument (convert (S (S O)) NT) 1",
        0,
        "|- S(O) : Nat\n",
    ),
];

#[test]
fn a_word_takes_a_part(rt: HostRuntime) -> Result<(), Memory> {
    for (commands, status, lines) in PARTS {
        assert!(rt;
            writes(rt.alloc(), &EQUATIONS, commands, status, lines)?,
            "{commands}"
        );
    }
    Ok(())
}

// Words before two atoms, and congruence.
const JOINED: [(&str, u8, &str); 23] = [
    ("show trans one (sym one)", 0, "|- O == O : Nat\n"),
    ("show trans (sym one) one", 0, "|- S(O) == S(O) : Nat\n"),
    ("show trans NT (sym NT)", 0, "|- Nat == Nat\n"),
    (
        "show trans (trans one (refl (S O))) (sym one)",
        0,
        "|- O == O : Nat\n",
    ),
    ("show convert O NT", 0, "|- O : T\n"),
    // A term equation.
    ("show convert one NT", 0, "|- O == S(O) : T\n"),
    ("show convert (convert O NT) (sym NT)", 0, "|- O : Nat\n"),
    ("show widen O one", 0, "|- O : Nat\n"),
    ("show widen ({x : Nat} x) T", 0, "|- {@0 : Nat} @0 : Nat\n"),
    ("show {x : Nat} widen O x", 0, "|- {@0 : Nat} O : Nat\n"),
    (
        "show rewrite ({x : Nat} S x) one",
        0,
        "|- S(O) == S(S(O)) : Nat\n",
    ),
    (
        "show rewrite ({x : Nat} F x) one",
        0,
        "|- F(O) == F(S(O))\n",
    ),
    // At the type at the left side.
    (
        "show rewrite ({x : Nat} v x) one",
        0,
        "|- v(O) == v(S(O)) : F(O)\n",
    ),
    (
        "show rewrite ({x : Nat} {y : F x} S x) one",
        0,
        "|- {@0 : F(O)} S(O) == S(S(O)) : Nat\n",
    ),
    ("show rewrite ({x : Nat} T) one", 0, "|- T == T\n"),
    (
        "show congruence S (O :: nil judgement) (one :: nil judgement)",
        0,
        "|- S(O) == S(S(O)) : Nat\n",
    ),
    (
        "show congruence F (O :: nil judgement) (one :: nil judgement)",
        0,
        "|- F(O) == F(S(O))\n",
    ),
    (
        "show congruence v (O :: nil judgement) (one :: nil judgement)",
        0,
        "|- v(O) == v(S(O)) : F(O)\n",
    ),
    (
        "show congruence O (nil judgement) (nil judgement)",
        0,
        "|- O == O : Nat\n",
    ),
    (
        "show congruence Nat (nil judgement) (nil judgement)",
        0,
        "|- Nat == Nat\n",
    ),
    // One equation for each premise that is none.
    (
        "rule H (O == S O : Nat by e) (n : Nat) : Nat show congruence H (one :: O :: nil judgement) (one :: nil judgement)",
        0,
        "accepted H\n|- H(*, O) == H(*, S(O)) : Nat\n",
    ),
    (
        "rule G ({x : Nat} n : Nat) : Nat show congruence G (({x : Nat} S x) :: nil judgement) (({x : Nat} refl (S x)) :: nil judgement)",
        0,
        "accepted G\n|- G({@0} S(@0)) == G({@0} S(@0)) : Nat\n",
    ),
    (
        "rule K (A type) (a : A) : A show congruence K (Nat :: O :: nil judgement) (NT :: one :: nil judgement)",
        0,
        "accepted K\n|- K(Nat, O) == K(T, S(O)) : Nat\n",
    ),
];

#[test]
fn a_word_joins_two_parts(rt: HostRuntime) -> Result<(), Memory> {
    for (commands, status, lines) in JOINED {
        assert!(rt;
            writes(rt.alloc(), &EQUATIONS, commands, status, lines)?,
            "{commands}"
        );
    }
    Ok(())
}
