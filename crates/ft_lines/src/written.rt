//! The step that is written with a word and parts.

ghost use Rattle.std.specs.Prelude.{◌≡◌, List, ℕ, IfOk, IsErrOf};
ghost use Rattle.ft_items.specs.Item.{Stated};
ghost use Rattle.ft_stated.specs.Steps.{stated_step};
ghost use Rattle.ft_lines.specs.declared.fault.Fault.TheVariants.{Form};
ghost use Rattle.ft_lines.specs.Steps.{IsWritten};
ghost use Rattle.ft_lines.specs.Written as spec;
ghost use Rattle.ft_lines.specs.Written.{Tells};

use crate::fault::Fault;
use crate::steps::Part;
use crate::words::Word;
use ft_base::Memory;
use ft_stated::{Numbers, StatedStep};
use std::alloc::Global;

/// The step that is written with the word and the parts; `Form` where none of version 1 is.
pub fn stated(alloc: Global, word: Word, parts: &[Part]) -> Result<StatedStep, Fault>
    ensures some { IfOk result (λ s. IsWritten (stated_step s) word parts.now) }
    ensures none { IsErrOf result Form → (s : Stated) → IsWritten s word parts.now → ⊥ }
    ensures tells { Tells stated_step (spec.step_of word parts.now) result }
{
    told(alloc, word, parts)
}

// The same, by the definition.
fn told(alloc: Global, word: Word, parts: &[Part]) -> Result<StatedStep, Fault>
    ensures { Tells stated_step (spec.step_of word parts.now) result }
{
    if takes_slashes(word) {
        with_slashes(alloc, word, parts)
    } else if takes_list(word) {
        with_list(alloc, word, parts)
    } else {
        with_numbers(word, parts)
    }
}

// Whether slashes stand with the word.
fn takes_slashes(word: Word) -> bool
    ensures { result ≡ spec.takes_slashes word }
{
    matches!(word, Word::Cong | Word::Convprem | Word::Convback)
}

// Whether a list stands with the word, and no slash.
fn takes_list(word: Word) -> bool
    ensures { result ≡ spec.takes_list word }
{
    matches!(
        word,
        Word::Meta | Word::Metacong | Word::Rule | Word::Rulewith | Word::Inst
    )
}

// The step with no number, or with up to three.
fn with_numbers(word: Word, parts: &[Part]) -> Result<StatedStep, Fault>
    ensures { Tells stated_step (spec.with_numbers word parts.now) result }
{
    match parts {
        [] => with_none(word),
        [Part::Number(p)] => with_one(word, *p),
        [Part::Number(p), Part::Number(q)] => with_two(word, *p, *q),
        [Part::Number(p), Part::Number(q), Part::Number(r)] => with_three(word, *p, *q, *r),
        _ => Err(Fault::Form),
    }
}

fn with_none(word: Word) -> Result<StatedStep, Fault>
    ensures { Tells stated_step (spec.with_none word) result }
{
    match word {
        Word::Btype => Ok(StatedStep::Btype),
        _ => Err(Fault::Form),
    }
}

fn with_one(word: Word, p: u64) -> Result<StatedStep, Fault>
    ensures { Tells stated_step (spec.with_one word p) result }
{
    match word {
        Word::Var => Ok(StatedStep::Var(p)),
        Word::Generic => Ok(StatedStep::Generic(p)),
        Word::Refl => Ok(StatedStep::Refl(p)),
        Word::Sym => Ok(StatedStep::Sym(p)),
        Word::Left => Ok(StatedStep::Left(p)),
        Word::Right => Ok(StatedStep::Right(p)),
        Word::Typeof => Ok(StatedStep::Typeof(p)),
        Word::Domain => Ok(StatedStep::Domain(p)),
        Word::Boundary => Ok(StatedStep::Boundary(p)),
        Word::Bterm => Ok(StatedStep::Bterm(p)),
        Word::Natural => Ok(StatedStep::Natural(p)),
        _ => Err(Fault::Form),
    }
}

fn with_two(word: Word, p: u64, q: u64) -> Result<StatedStep, Fault>
    ensures { Tells stated_step (spec.with_two word p q) result }
{
    match word {
        Word::Abs => Ok(StatedStep::Abs(p, q)),
        Word::Subst => Ok(StatedStep::Subst(p, q)),
        Word::Substeq => Ok(StatedStep::Substeq(p, q)),
        Word::Trans => Ok(StatedStep::Trans(p, q)),
        Word::Conv => Ok(StatedStep::Conv(p, q)),
        Word::Conveq => Ok(StatedStep::Conveq(p, q)),
        Word::Widen => Ok(StatedStep::Widen(p, q)),
        Word::Beqty => Ok(StatedStep::Beqty(p, q)),
        Word::Arg => Ok(StatedStep::Arg(p, q)),
        _ => Err(Fault::Form),
    }
}

fn with_three(word: Word, p: u64, q: u64, r: u64) -> Result<StatedStep, Fault>
    ensures { Tells stated_step (spec.with_three word p q r) result }
{
    match word {
        Word::Beqtm => Ok(StatedStep::Beqtm(p, q, r)),
        _ => Err(Fault::Form),
    }
}

// The step with a number and a list.
fn with_list(alloc: Global, word: Word, parts: &[Part]) -> Result<StatedStep, Fault>
    ensures { Tells stated_step (spec.after_number (spec.listed word) parts.now) result }
{
    match parts {
        [Part::Number(r), others @ ..] => listed(alloc, word, *r, others),
        _ => Err(Fault::Form),
    }
}

fn listed(alloc: Global, word: Word, r: u64, parts: &[Part]) -> Result<StatedStep, Fault>
    ensures { Tells stated_step (spec.listed word r parts.now) result }
{
    match word {
        Word::Meta => Ok(StatedStep::Meta(r, numbers(alloc, parts)?)),
        Word::Metacong => Ok(StatedStep::Metacong(r, numbers(alloc, parts)?)),
        Word::Rule => Ok(StatedStep::Rule(r, numbers(alloc, parts)?)),
        Word::Inst => Ok(StatedStep::Inst(r, numbers(alloc, parts)?)),
        Word::Rulewith => with_boundary(alloc, r, parts),
        _ => Err(Fault::Form),
    }
}

fn with_boundary(alloc: Global, r: u64, parts: &[Part]) -> Result<StatedStep, Fault>
    ensures { Tells stated_step (spec.with_boundary r parts.now) result }
{
    match parts {
        [Part::Number(b), others @ ..] => {
            Ok(StatedStep::Rulewith(r, *b, numbers(alloc, others)?))
        }
        _ => Err(Fault::Form),
    }
}

// The step with a number and lists, with slashes between them.
fn with_slashes(alloc: Global, word: Word, parts: &[Part]) -> Result<StatedStep, Fault>
    ensures { Tells stated_step (spec.after_number (spec.slashed word) parts.now) result }
{
    match parts {
        [Part::Number(r), others @ ..] => slashed(alloc, word, *r, others),
        _ => Err(Fault::Form),
    }
}

fn slashed(alloc: Global, word: Word, r: u64, parts: &[Part]) -> Result<StatedStep, Fault>
    ensures { Tells stated_step (spec.slashed word r parts.now) result }
{
    let listed = first_numbers(alloc, parts)?;
    let others = behind_numbers(parts);
    match word {
        Word::Cong => with_second(alloc, r, listed, others),
        _ => moved_argument(alloc, word, r, listed, others),
    }
}

fn with_second(alloc: Global, r: u64, listed: Numbers, parts: &[Part]) -> Result<StatedStep, Fault>
    ensures { Tells stated_step (spec.with_second r listed parts.now) result }
{
    match parts {
        [Part::Slash, others @ ..] => Ok(StatedStep::Cong(r, listed, numbers(alloc, others)?)),
        _ => Err(Fault::Form),
    }
}

fn moved_argument(
    alloc: Global,
    word: Word,
    r: u64,
    listed: Numbers,
    parts: &[Part],
) -> Result<StatedStep, Fault>
    ensures { Tells stated_step (spec.moved_argument word r listed parts.now) result }
{
    match parts {
        [Part::Slash, others @ ..] => {
            let equations = first_numbers(alloc, others)?;
            with_third(word, r, listed, equations, behind_numbers(others))
        }
        _ => Err(Fault::Form),
    }
}

fn with_third(
    word: Word,
    r: u64,
    listed: Numbers,
    equations: Numbers,
    parts: &[Part],
) -> Result<StatedStep, Fault>
    ensures { Tells stated_step (spec.with_third word r listed equations parts.now) result }
{
    match parts {
        [Part::Slash, Part::Number(q)] => moved_by(word, r, listed, equations, *q),
        _ => Err(Fault::Form),
    }
}

fn moved_by(
    word: Word,
    r: u64,
    listed: Numbers,
    equations: Numbers,
    q: u64,
) -> Result<StatedStep, Fault>
    ensures { Tells stated_step (spec.moved_by word r listed equations q) result }
{
    match word {
        Word::Convprem => Ok(StatedStep::Convprem(r, listed, equations, q)),
        Word::Convback => Ok(StatedStep::Convback(r, listed, equations, q)),
        _ => Err(Fault::Form),
    }
}

// The numbers, where the parts are numbers alone.
fn numbers(alloc: Global, parts: &[Part]) -> Result<Numbers, Fault>
    ensures { Tells (λ ns. ns) (spec.numbers_in parts.now) result }
{
    if behind_numbers(parts).is_empty() {
        Ok(first_numbers(alloc, parts)?)
    } else {
        Err(Fault::Form)
    }
}

// The numbers that the parts begin with.
fn first_numbers(alloc: Global, parts: &[Part]) -> Result<Numbers, Memory>
    ensures { IfOk result (λ ns. ns ≡ spec.first_numbers parts.now) }
{
    let mut found = Numbers::new(alloc);
    for part in parts {
        match part {
            Part::Number(n) => found.push(*n)?,
            Part::Slash => return Ok(found),
        }
    }
    Ok(found)
}

// What stands behind these.
fn behind_numbers(parts: &[Part]) -> &[Part]
    ensures { result.now ≡ spec.behind_numbers parts.now }
{
    let mut at = 0;
    for part in parts {
        if *part == Part::Slash {
            return &parts[at..];
        }
        at += 1;
    }
    &[]
}
