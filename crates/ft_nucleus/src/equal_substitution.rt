//! Equal terms for the variable of a first domain.

ghost use Rattle.std.specs.Prelude.{◌≡◌, ◌<◌, ℕ, true, length, IfOk, IfErr};
ghost use Rattle.ft_theory.specs.Small.{IsSmall};
ghost use Rattle.ft_items.specs.Item.{by_substeq};
ghost use Rattle.ft_syntax.specs.Table.{tree};
ghost use Rattle.ft_syntax.specs.declared.syntax.SynFault.TheVariants.{TooBig};
ghost use Rattle.ft_judge.specs.Meaning.{thesis_in, FormBelow, ThesisBelow};
ghost use Rattle.ft_judge.specs.declared.fault.Refusal.TheVariants.{WrongForm};
ghost use Rattle.ft_kernel.specs.State.{IsThesisOf};
ghost use Rattle.ft_calls.specs.Answers.{Answers, Stays};
ghost use Rattle.ft_nucleus.specs.Forms.{HasHead};
ghost use Rattle.ft_nucleus.specs.Equating.{StatesEquation, StatesNoEquation, FindsEquation, IsEqualTo, IsEquatedSmall, equated_in, opened_head as head_with};

use ft_calls::{conclude, same_type};
use ft_judge::{Fault, Form, Refusal, Thesis, head_of_form};
use ft_kernel::{J, Kernel, Step};
use ft_syntax::{E, SynFault, Terms};

/// The type or term with the left side for the variable of its first domain equals it with the right side.
pub fn substitute_equal(k: &mut Kernel, j: J, e: J) -> Result<J, Fault>
    requires thesis { IsThesisOf k.old j }
    requires equation { IsThesisOf k.old e }
    ensures answers { Answers k.old (by_substeq j e) result k.new }
    ensures thesis { IfOk result (λ j. IsThesisOf k.new j) }
{
    let x = k.thesis_of(j);
    let (left, right) = match sides_for(k.terms(), x, k.thesis_of(e)) {
        Ok(sides) => sides,
        Err(refusal) => return Err(Fault::Refused(refusal)),
    };
    let x = x.copy()?;
    let set = k.asm_of(j).union(k.asm_of(e))?;
    let equation = match equated(k, &x, left, right) {
        Ok(equation) => equation,
        Err(fault) => return Err(Fault::from(fault)),
    };
    k.terms().are_small();
    conclude(k, equation, set, Step::Substeq(j, e))
}

// The equation of the type or term with the one side and with the other. `TooBig` comes only where it is not small.
fn equated(k: &mut Kernel, x: &Thesis, left: E, right: E) -> Result<Thesis, SynFault>
    requires thesis { ThesisBelow (length k.old.trees) x.now }
    requires sides { (left < length k.old.trees) × (right < length k.old.trees) }
    requires domain { 0 < length x.now.domains }
    requires head { HasHead x.now.form true }
    ensures within { IfOk result (λ r. ThesisBelow (length k.new.trees) r) }
    ensures equation { IfOk result (λ r.
        thesis_in k.new.trees r ≡ equated_in k.old.trees x.now left right) }
    ensures too_big { IfErr result (λ f. f ≡ TooBig →
        IsEquatedSmall k.old.trees x.now left right → ⊥) }
    ensures stays { Stays k.old k.new }
{
    let opened = match k.open_first(x, left) {
        Ok(opened) => opened,
        Err(fault) => return Err(fault),
    };
    let head = match opened_head(k, x, right) {
        Ok(head) => head,
        Err(fault) => return Err(fault),
    };
    let form = equal_to(&opened.form, head);
    let domains = opened.domains;
    Ok(Thesis { domains, form })
}

// The head of the type or term, with the term for the variable of the first domain.
fn opened_head(k: &mut Kernel, x: &Thesis, by: E) -> Result<E, SynFault>
    requires thesis { ThesisBelow (length k.old.trees) x.now }
    requires by { by < length k.old.trees }
    requires domain { 0 < length x.now.domains }
    requires head { HasHead x.now.form true }
    ensures within { IfOk result (λ r. r < length k.new.trees) }
    ensures tree { IfOk result (λ r. tree k.new.trees r ≡
        head_with (thesis_in k.old.trees x.now) (tree k.old.trees by)) }
    ensures too_big { IfErr result (λ f. f ≡ TooBig →
        IsSmall (head_with (thesis_in k.old.trees x.now) (tree k.old.trees by)) → ⊥) }
    ensures stays { Stays k.old k.new }
{
    let under = x.domains.items().len() as u64 - 1;
    match head_of_form(&x.form) {
        Some(head) => k.open_bound(head, under, by),
        None => unreachable!(),
    }
}

// The type or term equal to the other.
fn equal_to(form: &Form, other: E) -> Form
    requires { HasHead form.now true }
    ensures equation { IsEqualTo form.now other result }
    ensures below { (n : ℕ) → FormBelow n form.now → other < n → FormBelow n result }
{
    match *form {
        Form::Ty(a) => Form::EqTy(a, other),
        Form::Tm(t, a) => Form::EqTm(t, other, a),
        _ => unreachable!(),
    }
}

// The sides of a plain equation of terms at the type of the first domain, where the thesis has a head.
fn sides_for(t: &Terms, x: &Thesis, y: &Thesis) -> Result<(E, E), Refusal>
    requires thesis { ThesisBelow (length t.now) x.now }
    requires equation { ThesisBelow (length t.now) y.now }
    ensures finds { FindsEquation t.now x.now y.now result }
    ensures below { IfOk result (λ p. (p.0 < length t.now) × (p.1 < length t.now)) }
    ensures domain { IfOk result (λ _. 0 < length x.now.domains) }
    ensures head { IfOk result (λ _. HasHead x.now.form true) }
{
    let domains = x.domains.items();
    if domains.is_empty() {
        return Err(Refusal::NotAbstracted);
    }
    let (left, right, ty) = plain_equation(y)?;
    if !has_head(&x.form) {
        return Err(Refusal::WrongForm);
    }
    same_type(t, ty, domains[0])?;
    Ok((left, right))
}

// Whether the form is that of a type or a term.
fn has_head(form: &Form) -> bool
    ensures { HasHead form.now result }
{
    match *form {
        Form::Ty(_) | Form::Tm(..) => true,
        Form::EqTy(..) | Form::EqTm(..) => false,
    }
}

// Two equal terms, with their type. Theses under domains, and those of other forms, are refused.
#[tactic(auto, using(crate::proofs::Equating::states_equation, crate::proofs::Equating::no_equation_around))]
fn plain_equation(y: &Thesis) -> Result<(E, E, E), Refusal>
    ensures equation { IfOk result (λ p. StatesEquation y.now p.0 p.1 p.2) }
    ensures below { (n : ℕ) → ThesisBelow n y.now →
        IfOk result (λ p. (p.0 < n) × (p.1 < n) × (p.2 < n)) }
    ensures other { IfErr result (λ q. StatesNoEquation y.now) }
    ensures refused { IfErr result (λ q. q ≡ WrongForm) }
{
    if !y.domains.items().is_empty() {
        return Err(Refusal::WrongForm);
    }
    match y.form {
        Form::EqTm(left, right, ty) => Ok((left, right, ty)),
        _ => Err(Refusal::WrongForm),
    }
}
