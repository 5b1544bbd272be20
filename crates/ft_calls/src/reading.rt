//! What tokens name.

ghost use Rattle.std.specs.Prelude.{◌≡◌, Some, length, ◌⊎◌, IfOk, IfErr};
ghost use Rattle.ft_judge.specs.Meaning.{FormBelow};
ghost use Rattle.ft_judge.specs.declared.fault.Refusal.TheVariants.{WrongForm};
ghost use Rattle.ft_kernel.specs.State.{statement_at, IsThesisOf};
ghost use Rattle.ft_calls.specs.Forming.{plain_in, HasDomains};

use ft_judge::{Form, Refusal};
use ft_kernel::{J, Kernel};

/// The form of a thesis without domains. Others are of the wrong form. It takes no memory.
#[tactic(auto, using(crate::proofs::Entries::plain_is, crate::proofs::Entries::domains_are))]
pub fn form_named(k: &Kernel, j: J) -> Result<Form, Refusal>
    requires { IsThesisOf k.now j }
    ensures statement { IfOk result (λ f. statement_at k.now j ≡ Some (plain_in k.now.trees f)) }
    ensures below { IfOk result (λ f. FormBelow (length k.now.trees) f) }
    ensures other { IfErr result (λ q. HasDomains k.now j) }
    ensures refused { IfErr result (λ q. q ≡ WrongForm) }
{
    let thesis = k.thesis_of(j);
    if !thesis.domains.items().is_empty() {
        return Err(Refusal::WrongForm);
    }
    Ok(thesis.form)
}

/// The forms of two theses without domains. Others are of the wrong form. It takes no memory.
pub fn forms_named(k: &Kernel, i: J, j: J) -> Result<(Form, Form), Refusal>
    requires first { IsThesisOf k.now i }
    requires second { IsThesisOf k.now j }
    ensures first { IfOk result (λ f. statement_at k.now i ≡ Some (plain_in k.now.trees f.0)) }
    ensures second { IfOk result (λ f. statement_at k.now j ≡ Some (plain_in k.now.trees f.1)) }
    ensures first_below { IfOk result (λ f. FormBelow (length k.now.trees) f.0) }
    ensures second_below { IfOk result (λ f. FormBelow (length k.now.trees) f.1) }
    ensures other { IfErr result (λ q. HasDomains k.now i ⊎ HasDomains k.now j) }
    ensures refused { IfErr result (λ q. q ≡ WrongForm) }
{
    Ok((form_named(k, i)?, form_named(k, j)?))
}
