//! Steps as text.

ghost use Rattle.std.specs.Prelude.{◌≡◌, ◌++◌, ◌∷◌, [], OnOk};
ghost use Rattle.ft_items.specs.Texts.{number, slash, written, step_text, PartsFit};
ghost use Rattle.ft_kernel.specs.Steps.{entry_of, step_of};
ghost use Rattle.ft_export.specs.Parts.{parts_text, worded_text, numbers};

use ft_base::{Memory, Text};
use ft_kernel::{J, Judgements, Part, Step};

// Appends a step: its word and what it names.
pub fn push_step(step: &Step, out: &mut Text) -> Result<(), Memory>
    ensures ok { OnOk result (out.new ≡ out.old ++ step_text (step_of step.now)) }
    ensures fits { OnOk result (PartsFit (written (step_of step.now)).1) }
{
    match step {
        Step::Var(v) => push_one("var", v.number(), out),
        Step::Generic(m) => push_one("generic", m.number(), out),
        Step::Meta(m, ps) => push_list("meta", m.number(), ps, out),
        Step::Metacong(m, es) => push_list("metacong", m.number(), es, out),
        Step::Abs(v, p) => push_two("abs", v.number(), entry(p), out),
        Step::Subst(p, t) => push_two("subst", entry(p), t.number(), out),
        Step::Substeq(p, e) => push_two("substeq", p.number(), e.number(), out),
        Step::Refl(p) => push_one("refl", p.number(), out),
        Step::Sym(p) => push_one("sym", p.number(), out),
        Step::Trans(p, q) => push_two("trans", p.number(), q.number(), out),
        Step::Conv(p, e) => push_two("conv", p.number(), e.number(), out),
        Step::Conveq(p, e) => push_two("conveq", p.number(), e.number(), out),
        Step::Left(p) => push_one("left", entry(p), out),
        Step::Right(p) => push_one("right", entry(p), out),
        Step::Typeof(p) => push_one("typeof", entry(p), out),
        Step::Domain(p) => push_one("domain", entry(p), out),
        Step::Boundary(p) => push_one("boundary", p.number(), out),
        Step::Widen(p, q) => push_two("widen", p.number(), q.number(), out),
        Step::Btype => out.push_str("btype"),
        Step::Bterm(p) => push_one("bterm", p.number(), out),
        Step::Beqty(p, q) => push_two("beqty", p.number(), q.number(), out),
        Step::Beqtm(p, s, t) => push_three("beqtm", *p, *s, *t, out),
        Step::Rule(r, ps) => push_list("rule", r.number(), ps, out),
        Step::Rulewith(r, b, ps) => push_applied("rulewith", r.number(), b.number(), ps, out),
        Step::Inst(r, ps) => push_list("inst", r.number(), ps, out),
        Step::Cong(r, ps, es) => push_lists("cong", r.number(), ps, es, out),
        Step::Convprem(r, ps, es, q) => push_moved("convprem", r.number(), ps, es, *q, out),
        Step::Convback(r, ps, es, q) => push_moved("convback", r.number(), ps, es, *q, out),
        Step::Arg(i, p) => push_two("arg", *i, p.number(), out),
        Step::Natural(p) => push_one("natural", p.number(), out),
    }
}

// The number of an entry, whatever it is.
fn entry(part: &Part) -> u64
    ensures { result ≡ entry_of part.now }
{
    match part {
        Part::Thesis(j) => j.number(),
        Part::Boundary(b) => b.number(),
    }
}

// Appends a space and a number.
pub fn push_number(n: u64, out: &mut Text) -> Result<(), Memory>
    ensures ok { OnOk result (out.new ≡ out.old ++ parts_text (number n ∷ [])) }
    ensures fits { PartsFit (number n ∷ []) }
{
    out.push_str(" ")?;
    out.push_number(n)
}

// Appends the numbers of theses, with a space before each.
fn push_numbers(items: &[J], out: &mut Text) -> Result<(), Memory>
    ensures ok { OnOk result (out.new ≡ out.old ++ parts_text (numbers items.now)) }
    ensures fits { OnOk result (PartsFit (numbers items.now)) }
{
    for j in items {
        push_number(j.number(), out)?;
    }
    Ok(())
}

// Appends a word and a number.
fn push_one(word: &str, a: u64, out: &mut Text) -> Result<(), Memory>
    ensures ok { OnOk result (out.new ≡ out.old ++ worded_text word.now (number a ∷ [])) }
    ensures fits { PartsFit (number a ∷ []) }
{
    out.push_str(word)?;
    push_number(a, out)
}

// Appends a word and two numbers.
fn push_two(word: &str, a: u64, b: u64, out: &mut Text) -> Result<(), Memory>
    ensures ok { OnOk result (out.new ≡ out.old ++ worded_text word.now (number a ∷ number b ∷ [])) }
    ensures fits { PartsFit (number a ∷ number b ∷ []) }
{
    push_one(word, a, out)?;
    push_number(b, out)
}

// Appends a word and the numbers of three theses.
fn push_three(word: &str, p: J, q: J, r: J, out: &mut Text) -> Result<(), Memory>
    ensures ok { OnOk result (out.new ≡ out.old ++ worded_text word.now (number p ∷ number q ∷ number r ∷ [])) }
    ensures fits { OnOk result (PartsFit (number p ∷ number q ∷ number r ∷ [])) }
{
    push_two(word, p.number(), q.number(), out)?;
    push_number(r.number(), out)
}

// Appends a word, a number, and a list.
fn push_list(word: &str, a: u64, ps: &Judgements, out: &mut Text) -> Result<(), Memory>
    ensures ok { OnOk result (out.new ≡ out.old ++ worded_text word.now (number a ∷ numbers ps.now)) }
    ensures fits { OnOk result (PartsFit (number a ∷ numbers ps.now)) }
{
    push_one(word, a, out)?;
    push_numbers(ps.items(), out)
}

// Appends a word, two numbers, and a list.
fn push_applied(word: &str, a: u64, b: u64, ps: &Judgements, out: &mut Text) -> Result<(), Memory>
    ensures ok { OnOk result (out.new ≡ out.old ++ worded_text word.now (number a ∷ number b ∷ numbers ps.now)) }
    ensures fits { OnOk result (PartsFit (number a ∷ number b ∷ numbers ps.now)) }
{
    push_two(word, a, b, out)?;
    push_numbers(ps.items(), out)
}

// Appends a word, a number, and two lists with a slash between them.
fn push_lists(
    word: &str,
    a: u64,
    ps: &Judgements,
    es: &Judgements,
    out: &mut Text,
) -> Result<(), Memory>
    ensures ok { OnOk result (out.new ≡ out.old ++ worded_text word.now (number a ∷ (numbers ps.now ++ (slash ∷ numbers es.now)))) }
    ensures fits { OnOk result (PartsFit (number a ∷ (numbers ps.now ++ (slash ∷ numbers es.now)))) }
{
    push_list(word, a, ps, out)?;
    out.push_str(" /")?;
    push_numbers(es.items(), out)
}

// Appends a word, a number, two lists, and the number of a thesis, with slashes between the last three.
fn push_moved(
    word: &str,
    a: u64,
    ps: &Judgements,
    es: &Judgements,
    q: J,
    out: &mut Text,
) -> Result<(), Memory>
    ensures ok { OnOk result (out.new ≡ out.old ++ worded_text word.now (number a ∷ (numbers ps.now ++ (slash ∷ (numbers es.now ++ (slash ∷ number q ∷ [])))))) }
    ensures fits { OnOk result (PartsFit (number a ∷ (numbers ps.now ++ (slash ∷ (numbers es.now ++ (slash ∷ number q ∷ [])))))) }
{
    push_lists(word, a, ps, es, out)?;
    out.push_str(" /")?;
    push_number(q.number(), out)
}
