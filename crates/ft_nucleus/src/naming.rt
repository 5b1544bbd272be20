//! What variables and plain types are.

ghost use Rattle.std.specs.Prelude.{◌≡◌, ◌<◌, Some, length, IfOk, IfErr};
ghost use Rattle.ft_theory.specs.Statements.{plain, is_type};
ghost use Rattle.ft_syntax.specs.Table.{tree};
ghost use Rattle.ft_judge.specs.declared.fault.Refusal.TheVariants.{WrongForm};
ghost use Rattle.ft_kernel.specs.State.{statement_at, IsThesisOf, IsVariableOf};
ghost use Rattle.ft_calls.specs.Named.{IsVariableAt, IsPlainTypeAt, IsNoPlainTypeAt};

use ft_calls::form_named;
use ft_judge::{Form, Refusal};
use ft_kernel::{J, Kernel, V};
use ft_syntax::E;

/// The type that a plain thesis says to be one. Others are of the wrong form. It takes no memory.
pub fn plain_type(k: &Kernel, j: J) -> Result<E, Refusal>
    requires { IsThesisOf k.now j }
    ensures statement { IfOk result (λ a. statement_at k.now j ≡ Some (plain (is_type (tree k.now.trees a)))) }
    ensures below { IfOk result (λ a. a < length k.now.trees) }
    ensures other { IfErr result (λ q. IsNoPlainTypeAt k.now j) }
    ensures refused { IfErr result (λ q. q ≡ WrongForm) }
{
    let form = form_named(k, j)?;
    match form {
        Form::Ty(a) => Ok(a),
        _ => Err(Refusal::WrongForm),
    }
}

/// The entry of a variable's type. It takes no memory.
pub fn type_entry(k: &Kernel, v: V) -> J
    requires { IsVariableOf k.now v }
    ensures declared { IsVariableAt k.now v result }
    ensures thesis { IsThesisOf k.now result }
{
    k.var(v).ty
}

/// The type of an entry that is a plain type. It takes no memory.
pub fn type_at(k: &Kernel, j: J) -> E
    requires { IsPlainTypeAt k.now j }
    ensures statement { statement_at k.now j ≡ Some (plain (is_type (tree k.now.trees result))) }
    ensures below { result < length k.now.trees }
{
    match plain_type(k, j) {
        Ok(a) => a,
        Err(_) => unreachable!(),
    }
}
