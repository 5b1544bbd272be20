//! Values over the list.

ghost use Rattle.std.specs.Prelude.{◌≡◌, IfOk, IfSome, OnOk, OnErr, option_map};
ghost use Rattle.ft_apply.specs.Named.{AreThesesOf};
ghost use Rattle.ft_kernel.specs.State.{IsThesisOf, IsBoundaryOf};
ghost use Rattle.ft_meaning.specs.Values as meaning;
ghost use Rattle.ft_values.specs.Kept.{stated_at, judgement, boundary, pair, cons, some};
ghost use Rattle.ft_values.specs.Rows.{kept_in};
ghost use Rattle.ft_running.specs.Evaluation.{value_over, IsValueOf, with_kept, GoesFurther};
ghost use Rattle.ft_running.specs.Readers.{judgement_in, boundary_in, truth_in, is_unit};
ghost use Rattle.ft_running.specs.Readers.{is_nil, is_none, pair_in, list_in, option_in};
ghost use Rattle.ft_running.specs.Readers.{stated_in, value_in, both_in, HasJudgements};

use crate::state::State;
use ft_base::Memory;
use ft_kernel::{B, J};
use ft_values::Value;

impl State {
    /// The judgement as a value. After `Memory` all is as before.
    pub fn keep_judgement(&mut self, j: J) -> Result<Value, Memory>
        requires { IsThesisOf self.old.list j }
        ensures value { IfOk result (λ v. IsValueOf self.new v) }
        ensures means { IfOk result
            (λ v. value_over self.new v ≡ meaning.judgement (stated_at self.old.list j)) }
        ensures adds { OnOk result (self.new ≡ with_kept (judgement j) self.old) }
        ensures err { OnErr result (self.new ≡ self.old) }
        ensures further { GoesFurther self.old self.new }
    {
        self.values.of_judgement(j)
    }

    /// The boundary as a value. After `Memory` all is as before.
    pub fn keep_boundary(&mut self, b: B) -> Result<Value, Memory>
        requires { IsBoundaryOf self.old.list b }
        ensures value { IfOk result (λ v. IsValueOf self.new v) }
        ensures means { IfOk result
            (λ v. value_over self.new v ≡ meaning.boundary (stated_at self.old.list b)) }
        ensures adds { OnOk result (self.new ≡ with_kept (boundary b) self.old) }
        ensures err { OnErr result (self.new ≡ self.old) }
        ensures further { GoesFurther self.old self.new }
    {
        self.values.of_boundary(b)
    }

    /// A pair. After `Memory` all is as before.
    pub fn keep_pair(&mut self, a: Value, b: Value) -> Result<Value, Memory>
        requires { IsValueOf self.old a × IsValueOf self.old b }
        ensures value { IfOk result (λ v. IsValueOf self.new v) }
        ensures means { IfOk result
            (λ v. value_over self.new v
            ≡ meaning.pair (value_over self.old a) (value_over self.old b)) }
        ensures adds { OnOk result (self.new
            ≡ with_kept (pair (kept_in self.old.values a) (kept_in self.old.values b)) self.old) }
        ensures err { OnErr result (self.new ≡ self.old) }
        ensures further { GoesFurther self.old self.new }
    {
        self.values.pair(a, b)
    }

    /// A list with this first member and this rest. After `Memory` all is as before.
    pub fn keep_cons(&mut self, first: Value, rest: Value) -> Result<Value, Memory>
        requires { IsValueOf self.old first × IsValueOf self.old rest }
        ensures value { IfOk result (λ v. IsValueOf self.new v) }
        ensures means { IfOk result
            (λ v. value_over self.new v
            ≡ meaning.cons (value_over self.old first) (value_over self.old rest)) }
        ensures adds { OnOk result (self.new
            ≡ with_kept (cons (kept_in self.old.values first) (kept_in self.old.values rest))
            self.old) }
        ensures err { OnErr result (self.new ≡ self.old) }
        ensures further { GoesFurther self.old self.new }
    {
        self.values.cons(first, rest)
    }

    /// The option that holds this. After `Memory` all is as before.
    pub fn keep_some(&mut self, a: Value) -> Result<Value, Memory>
        requires { IsValueOf self.old a }
        ensures value { IfOk result (λ v. IsValueOf self.new v) }
        ensures means { IfOk result
            (λ v. value_over self.new v ≡ meaning.some (value_over self.old a)) }
        ensures adds { OnOk result
            (self.new ≡ with_kept (some (kept_in self.old.values a)) self.old) }
        ensures err { OnErr result (self.new ≡ self.old) }
        ensures further { GoesFurther self.old self.new }
    {
        self.values.some(a)
    }

    /// The judgement that the value is, where it is one. It takes no memory.
    pub fn judgement(&self, v: Value) -> Option<J>
        requires { IsValueOf self.now v }
        ensures thesis { IfSome result (λ j. IsThesisOf self.now.list j) }
        ensures means { stated_in self.now result ≡ judgement_in (value_over self.now v) }
    {
        self.values.judgement(v)
    }

    /// The boundary that the value is, where it is one. It takes no memory.
    pub fn boundary(&self, v: Value) -> Option<B>
        requires { IsValueOf self.now v }
        ensures boundary { IfSome result (λ b. IsBoundaryOf self.now.list b) }
        ensures means { stated_in self.now result ≡ boundary_in (value_over self.now v) }
    {
        self.values.boundary(v)
    }

    /// The judgements of the list that the value is, where it is a list of judgements.
    pub fn judgements(&self, v: Value) -> Result<Option<Vec<J>>, Memory>
        requires { IsValueOf self.now v }
        ensures theses { IfOk result
            (λ found. IfSome found (λ js. AreThesesOf self.now.list js.items)) }
        ensures means { IfOk result
            (λ found. HasJudgements self.now (value_over self.now v)
            (option_map (λ js. js.items) found)) }
    {
        let mut found = Vec::new(self.alloc);
        if self.values.judgements(v, &mut found)? {
            return Ok(Some(found));
        }
        Ok(None)
    }

    /// The truth value that the value is, where it is one. It takes no memory.
    pub fn truth(&self, v: Value) -> Option<bool>
        requires { IsValueOf self.now v }
        ensures { result ≡ truth_in (value_over self.now v) }
    {
        self.values.truth(v)
    }

    /// Whether the value is the unit. It takes no memory.
    pub fn is_unit(&self, v: Value) -> bool
        requires { IsValueOf self.now v }
        ensures { result ≡ is_unit (value_over self.now v) }
    {
        self.values.is_unit(v)
    }

    /// Whether the value is the list without members. It takes no memory.
    pub fn is_nil(&self, v: Value) -> bool
        requires { IsValueOf self.now v }
        ensures { result ≡ is_nil (value_over self.now v) }
    {
        self.values.is_nil(v)
    }

    /// Whether the value is the option that holds nothing. It takes no memory.
    pub fn is_none(&self, v: Value) -> bool
        requires { IsValueOf self.now v }
        ensures { result ≡ is_none (value_over self.now v) }
    {
        self.values.is_none(v)
    }

    /// The parts of a pair, where the value is one. It takes no memory.
    pub fn pair_parts(&self, v: Value) -> Option<(Value, Value)>
        requires { IsValueOf self.now v }
        ensures values { IfSome result (λ p. IsValueOf self.now p.0 × IsValueOf self.now p.1) }
        ensures means { both_in self.now result ≡ pair_in (value_over self.now v) }
    {
        self.values.pair_parts(v)
    }

    /// The first member of a list and the rest, where it has members. It takes no memory.
    pub fn list_parts(&self, v: Value) -> Option<(Value, Value)>
        requires { IsValueOf self.now v }
        ensures values { IfSome result (λ p. IsValueOf self.now p.0 × IsValueOf self.now p.1) }
        ensures means { both_in self.now result ≡ list_in (value_over self.now v) }
    {
        self.values.list_parts(v)
    }

    /// What an option holds, where it holds something. It takes no memory.
    pub fn option_part(&self, v: Value) -> Option<Value>
        requires { IsValueOf self.now v }
        ensures value { IfSome result (λ a. IsValueOf self.now a) }
        ensures means { value_in self.now result ≡ option_in (value_over self.now v) }
    {
        self.values.option_part(v)
    }
}
