//! The rules and operations that stand before the commands of a row, and what is compared with a row.

use crate::transcript::transcript;
use ft_base::Memory;
use std::alloc::Global;

/// Commands, and the lines that they write.
#[derive(Clone, Copy)]
pub struct Theory {
    pub source: &'static str,
    pub lines: &'static str,
}

/// Two equal types, with a term of the first and a function on the second. Commands after them begin on line 7.
pub const COERCIONS: Theory = Theory {
    source: "rule U type\nrule T type\nrule eq : U == T\nrule u : U\nrule f (x : T) : T\nrule O : T\n",
    lines: "accepted U\naccepted T\naccepted eq\naccepted u\naccepted f\naccepted O\n",
};

/// Natural numbers, functions that add a power of two to a number, and `m`, which nests as deep as a term may. Commands after them begin on line 15.
pub const DOUBLED: Theory = Theory {
    source: "rule Nat type\nrule O : Nat\nrule S (n : Nat) : Nat\nlet f1 = {x : Nat} S x\nlet f2 = {x : Nat} f1{f1{x}}\nlet f4 = {x : Nat} f2{f2{x}}\nlet f8 = {x : Nat} f4{f4{x}}\nlet f16 = {x : Nat} f8{f8{x}}\nlet f32 = {x : Nat} f16{f16{x}}\nlet f64 = {x : Nat} f32{f32{x}}\nlet f128 = {x : Nat} f64{f64{x}}\nlet f256 = {x : Nat} f128{f128{x}}\nlet f512 = {x : Nat} f256{f256{x}}\nlet m = f512{f256{f128{f64{f32{f4{f2{f1{O}}}}}}}}\n",
    lines: "accepted Nat\naccepted O\naccepted S\n",
};

/// Natural numbers, a type that equals theirs, an equation of terms, and a family. Commands after them begin on line 9.
pub const EQUATIONS: Theory = Theory {
    source: "rule Nat type\nrule O : Nat\nrule S (n : Nat) : Nat\nrule T type\nrule NT : Nat == T\nrule one : O == S O : Nat\nrule F (n : Nat) type\nrule v (n : Nat) : F n\n",
    lines: "accepted Nat\naccepted O\naccepted S\naccepted T\naccepted NT\naccepted one\naccepted F\naccepted v\n",
};

/// The natural numbers. Commands after them begin on line 4.
pub const NATURALS: Theory = Theory {
    source: "rule Nat type\nrule O : Nat\nrule S (n : Nat) : Nat\n",
    lines: "accepted Nat\naccepted O\naccepted S\n",
};

/// No rules.
pub const NOTHING: Theory = Theory {
    source: "",
    lines: "",
};

/// Natural numbers with pairs of them, and operations. Commands after them begin on line 9.
pub const OPERATIONS: Theory = Theory {
    source: "rule Nat type\nrule O : Nat\nrule S (n : Nat) : Nat\nrule P (a : Nat) (b : Nat) : Nat\noperation ask unit : judgement\noperation put judgement : judgement\noperation pick unit : bool\noperation give list judgement : judgement\n",
    lines: "accepted Nat\naccepted O\naccepted S\naccepted P\n",
};

/// Dependent products over natural numbers and a family. Commands after them begin on line 9.
pub const PRODUCTS: Theory = Theory {
    source: "rule Nat type\nrule O : Nat\nrule S (n : Nat) : Nat\nrule F (n : Nat) type\nrule Pi (A type) ({x : A} B type) type\nrule lam (A type) ({x : A} B type) ({x : A} e : B{x}) : Pi A B\nrule app (A type) ({x : A} B type) (f : Pi A B) (a : A) : B{a}\nrule beta (A type) ({x : A} B type) ({x : A} e : B{x}) (a : A) : app A B (lam A B e) a == e{a} : B{a}\n",
    lines: "accepted Nat\naccepted O\naccepted S\naccepted F\naccepted Pi\naccepted lam\naccepted app\naccepted beta\n",
};

// The budget of a run whose words say none.
const DEFAULT_BUDGET: u64 = 1_000_000;

// The status of a run that ends without a fault.
const DONE: u8 = 0;

/// Whether a run of the source has this transcript, with its status.
pub fn is_transcript(
    alloc: Global,
    source: &[u8],
    budget: u64,
    status: u8,
    text: &str,
) -> Result<bool, Memory> {
    let (written, number) = transcript(alloc, source, budget)?;
    Ok(number == status && written.bytes() == text.as_bytes())
}

/// Whether commands after those of a theory have this transcript within a budget, where the lines of the theory come first. Behind
/// a fault further commands write nothing.
pub fn writes_within(
    alloc: Global,
    theory: &Theory,
    commands: &str,
    budget: u64,
    status: u8,
    lines: &str,
) -> Result<bool, Memory> {
    let source = format!(in alloc; "{}{commands}\n", theory.source)?;
    let text = format!(in alloc; "{}{lines}", theory.lines)?;
    if !is_transcript(alloc, source.as_bytes(), budget, status, &text)? {
        return Ok(false);
    }
    if status == DONE {
        return Ok(true);
    }
    let longer = format!(in alloc; "{source}show O\n")?;
    is_transcript(alloc, longer.as_bytes(), budget, status, &text)
}

/// The same within the budget of a run whose words say none.
pub fn writes(
    alloc: Global,
    theory: &Theory,
    commands: &str,
    status: u8,
    lines: &str,
) -> Result<bool, Memory> {
    writes_within(alloc, theory, commands, DEFAULT_BUDGET, status, lines)
}

/// Whether a source that begins with the natural numbers has the one line, with the status of sources that are not run.
pub fn writes_only(alloc: Global, commands: &str, line: &str) -> Result<bool, Memory> {
    let source = format!(in alloc; "{}{commands}", NATURALS.source)?;
    is_transcript(alloc, source.as_bytes(), DEFAULT_BUDGET, 7, line)
}
