//! Equality, conversion and weakening.

ghost use Rattle.std.specs.Prelude.{◌≡◌, ℕ, List, length, true, false, IfOk, IfErr};
ghost use Rattle.ft_items.specs.Item.{by_refl, by_sym, by_trans, by_conv, by_conveq, by_widen};
ghost use Rattle.ft_items.specs.Rows.{transitivity, conversion};
ghost use Rattle.ft_reference.specs.Checks.{transitivity_checks, conversion_checks};
ghost use Rattle.ft_judge.specs.Meaning.{FormBelow};
ghost use Rattle.ft_judge.specs.declared.fault.Refusal.TheVariants.{WrongForm};
ghost use Rattle.ft_kernel.specs.State.{IsThesisOf};
ghost use Rattle.ft_calls.specs.Answers.{Answers};
ghost use Rattle.ft_calls.specs.Forming.{FormsTwo, plain_in};
ghost use Rattle.ft_nucleus.specs.Forms.{HasHead, IsEqualToItself, Swaps, ConvertsEquation};

use ft_calls::{conclude, form_named, forms_named, plain, same_side, same_type};
use ft_judge::{Fault, Form, Refusal, Thesis};
use ft_kernel::{J, Kernel, Step};
use ft_syntax::Terms;
use std::alloc::Global;

/// The type or term equal to itself, under its domains.
pub fn refl(k: &mut Kernel, j: J) -> Result<J, Fault>
    requires { IsThesisOf k.old j }
    ensures answers { Answers k.old (by_refl j) result k.new }
    ensures thesis { IfOk result (λ j. IsThesisOf k.new j) }
{
    let x = k.thesis_of(j);
    let form = match reflexive(&x.form) {
        Ok(form) => form,
        Err(refusal) => return Err(Fault::Refused(refusal)),
    };
    let domains = x.domains.copy()?;
    let set = k.asm_of(j).copy()?;
    conclude(k, Thesis { domains, form }, set, Step::Refl(j))
}

// The equation of a type or a term with itself.
fn reflexive(form: &Form) -> Result<Form, Refusal>
    ensures head { IfOk result (λ f. HasHead form.now true) }
    ensures equal { IfOk result (λ f. IsEqualToItself form.now f) }
    ensures none { IfErr result (λ q. HasHead form.now false) }
    ensures refused { IfErr result (λ q. q ≡ WrongForm) }
    ensures below { (n : ℕ) → FormBelow n form.now → IfOk result (λ f. FormBelow n f) }
{
    match *form {
        Form::Ty(a) => Ok(Form::EqTy(a, a)),
        Form::Tm(t, a) => Ok(Form::EqTm(t, t, a)),
        _ => Err(Refusal::WrongForm),
    }
}

/// The equation with its sides exchanged.
pub fn sym(alloc: Global, k: &mut Kernel, e: J) -> Result<J, Fault>
    requires { IsThesisOf k.old e }
    ensures answers { Answers k.old (by_sym e) result k.new }
    ensures thesis { IfOk result (λ j. IsThesisOf k.new j) }
{
    let x = match form_named(k, e) {
        Ok(form) => form,
        Err(refusal) => return Err(Fault::Refused(refusal)),
    };
    let form = match swapped(&x) {
        Ok(form) => form,
        Err(refusal) => return Err(Fault::Refused(refusal)),
    };
    let set = k.asm_of(e).copy()?;
    conclude(k, plain(alloc, form), set, Step::Sym(e))
}

// The equation with its sides exchanged.
fn swapped(form: &Form) -> Result<Form, Refusal>
    ensures forms { Swaps form.now result }
    ensures below { (n : ℕ) → FormBelow n form.now → IfOk result (λ f. FormBelow n f) }
{
    match *form {
        Form::EqTy(a, b) => Ok(Form::EqTy(b, a)),
        Form::EqTm(s, t, a) => Ok(Form::EqTm(t, s, a)),
        _ => Err(Refusal::WrongForm),
    }
}

/// The left side of the first equation equals the right side of the second.
pub fn trans(alloc: Global, k: &mut Kernel, e: J, f: J) -> Result<J, Fault>
    requires first { IsThesisOf k.old e }
    requires second { IsThesisOf k.old f }
    ensures answers { Answers k.old (by_trans e f) result k.new }
    ensures thesis { IfOk result (λ j. IsThesisOf k.new j) }
{
    let (x, y) = match forms_named(k, e, f) {
        Ok(forms) => forms,
        Err(refusal) => return Err(Fault::Refused(refusal)),
    };
    let form = match chained(k.terms(), &x, &y) {
        Ok(form) => form,
        Err(refusal) => return Err(Fault::Refused(refusal)),
    };
    let set = k.asm_of(e).union(k.asm_of(f))?;
    conclude(k, plain(alloc, form), set, Step::Trans(e, f))
}

// The equation of the outer sides of two.
fn chained(t: &Terms, x: &Form, y: &Form) -> Result<Form, Refusal>
    requires first { FormBelow (length t.now) x.now }
    requires second { FormBelow (length t.now) y.now }
    ensures forms { FormsTwo plain_in transitivity_checks transitivity t.now x.now y.now result }
    ensures below { IfOk result (λ f. FormBelow (length t.now) f) }
{
    match (x, y) {
        (Form::EqTy(a, b), Form::EqTy(c, d)) => {
            same_side(t, *c, *b)?;
            Ok(Form::EqTy(*a, *d))
        }
        (Form::EqTm(s, m, a), Form::EqTm(n, r, b)) => {
            same_type(t, *b, *a)?;
            same_side(t, *n, *m)?;
            Ok(Form::EqTm(*s, *r, *a))
        }
        _ => Err(Refusal::WrongForm),
    }
}

/// The term at the right side of the equation of types.
pub fn convert(alloc: Global, k: &mut Kernel, t: J, e: J) -> Result<J, Fault>
    requires term { IsThesisOf k.old t }
    requires equation { IsThesisOf k.old e }
    ensures answers { Answers k.old (by_conv t e) result k.new }
    ensures thesis { IfOk result (λ j. IsThesisOf k.new j) }
{
    let (x, y) = match forms_named(k, t, e) {
        Ok(forms) => forms,
        Err(refusal) => return Err(Fault::Refused(refusal)),
    };
    let form = match converted(k.terms(), &x, &y) {
        Ok(form) => form,
        Err(refusal) => return Err(Fault::Refused(refusal)),
    };
    let set = k.asm_of(t).union(k.asm_of(e))?;
    conclude(k, plain(alloc, form), set, Step::Conv(t, e))
}

// The term at the right side of an equation of types.
fn converted(t: &Terms, x: &Form, y: &Form) -> Result<Form, Refusal>
    requires term { FormBelow (length t.now) x.now }
    requires equation { FormBelow (length t.now) y.now }
    ensures forms { FormsTwo plain_in conversion_checks conversion t.now x.now y.now result }
    ensures below { IfOk result (λ f. FormBelow (length t.now) f) }
{
    match (x, y) {
        (Form::Tm(s, a), Form::EqTy(b, c)) => {
            same_type(t, *a, *b)?;
            Ok(Form::Tm(*s, *c))
        }
        _ => Err(Refusal::WrongForm),
    }
}

/// The equation of terms at the right side of the equation of types.
pub fn convert_equation(alloc: Global, k: &mut Kernel, d: J, e: J) -> Result<J, Fault>
    requires terms { IsThesisOf k.old d }
    requires types { IsThesisOf k.old e }
    ensures answers { Answers k.old (by_conveq d e) result k.new }
    ensures thesis { IfOk result (λ j. IsThesisOf k.new j) }
{
    let (x, y) = match forms_named(k, d, e) {
        Ok(forms) => forms,
        Err(refusal) => return Err(Fault::Refused(refusal)),
    };
    let form = match converted_equation(k.terms(), &x, &y) {
        Ok(form) => form,
        Err(refusal) => return Err(Fault::Refused(refusal)),
    };
    let set = k.asm_of(d).union(k.asm_of(e))?;
    conclude(k, plain(alloc, form), set, Step::Conveq(d, e))
}

// The equation of terms at the right side of an equation of types.
fn converted_equation(t: &Terms, x: &Form, y: &Form) -> Result<Form, Refusal>
    requires terms { FormBelow (length t.now) x.now }
    requires types { FormBelow (length t.now) y.now }
    ensures forms { ConvertsEquation t.now x.now y.now result }
    ensures below { IfOk result (λ f. FormBelow (length t.now) f) }
{
    match (x, y) {
        (Form::EqTm(l, r, a), Form::EqTy(b, c)) => {
            same_type(t, *a, *b)?;
            Ok(Form::EqTm(*l, *r, *c))
        }
        _ => Err(Refusal::WrongForm),
    }
}

/// The thesis with the sets of both.
pub fn widen(k: &mut Kernel, j: J, other: J) -> Result<J, Fault>
    requires first { IsThesisOf k.old j }
    requires second { IsThesisOf k.old other }
    ensures answers { Answers k.old (by_widen j other) result k.new }
    ensures thesis { IfOk result (λ j. IsThesisOf k.new j) }
{
    let thesis = k.thesis_of(j).copy()?;
    let set = k.asm_of(j).union(k.asm_of(other))?;
    conclude(k, thesis, set, Step::Widen(j, other))
}
