//! The types of expressions. The place of a form does not matter to its own type, so clauses write
//! 0 for it.

ghost use Rattle.std.specs.Prelude.{◌≡◌, ◌∷◌, [], length, map, Some, Ok, OnOk};
ghost use Rattle.ft_meaning.specs.Trees.{form, place, pattern, forms, cases, handlers, value_type};
ghost use Rattle.ft_meaning.specs.Trees.{pair_of, call, congruence, perform, substitution};
ghost use Rattle.ft_meaning.specs.Trees.{abstraction, let_in, if_then, match_with, handle_with};
ghost use Rattle.ft_meaning.specs.Trees.{cons_of, argument, one, two, none_of, nil_of};
ghost use Rattle.ft_meaning.specs.Trees.{no_value_case, value_case_of};
ghost use Rattle.ft_meaning.specs.CommandTyping.{ensure_judgement};
ghost use Rattle.ft_meaning.specs.Typing.{with_value, type_of as type_of_form, ensure_judgements};
ghost use Rattle.ft_meaning.specs.Typing.{type_of_cases, ensure_cases, ensure_handlers};
ghost use Rattle.ft_meaning.specs.Typing.{word_type, first_wanted, word_type_of_two};
ghost use Rattle.ft_meaning.proofs.Written.{case, handler, value};
ghost use Rattle.ft_types.specs.Types.{type_in, Below};
ghost use Rattle.ft_types.specs.Checking.{scope_of, Keeps, Finds, FindsType, Passes};
ghost use Rattle.ft_types.specs.Checking.{type_of_case, handler_has, last_first, SeesNext};

use crate::checker::{Checker, fits_arity, new_name};
use crate::fault::TypeFault;
use crate::types::{KnownType, Row};
use ft_base::Name;
use ft_grammar::{AmlType, Ast, Case, Named, OneForm, OpCase, TwoForm, ValCase};

// Where an expression begins.
#[tactic(auto, using(crate::proofs::Rules::written_forms))]
pub fn place_of(e: &Ast) -> u64
    ensures { result ≡ place (form e.now) }
{
    match e {
        Ast::LetIn(at, ..) | Ast::If(at, ..) | Ast::Match(at, ..) | Ast::Handle(at, ..) => *at,
        Ast::Abstract(at, ..) | Ast::Cons(at, ..) | Ast::Refl(at, _) | Ast::Sym(at, _) => *at,
        Ast::Left(at, _) | Ast::Right(at, _) | Ast::Typeof(at, _) | Ast::Domain(at, _) => *at,
        Ast::Natural(at, _) | Ast::Normal(at, _) | Ast::Boundaryof(at, _) => *at,
        Ast::Trans(at, ..) | Ast::Convert(at, ..) | Ast::Equal(at, ..) => *at,
        Ast::Widen(at, ..) | Ast::Rewrite(at, ..) | Ast::Fill(at, ..) => *at,
        Ast::Argument(at, ..) | Ast::Congruence(at, ..) | Ast::Perform(at, ..) => *at,
        Ast::SomeWord(at, _) | Ast::Call(at, ..) | Ast::Subst(at, ..) => *at,
        Ast::TrueWord(at) | Ast::FalseWord(at) | Ast::Unit(at) => *at,
        Ast::Pair(at, ..) | Ast::NoneWord(at, _) | Ast::Nil(at, _) => *at,
    }
}

impl Checker {
    // The type of a word before an atom of this type, which begins at the place.
    #[tactic(auto, using(crate::proofs::Rules::keeping))]
    fn word(&mut self, at: u64, word: OneForm, t: KnownType) -> Result<KnownType, TypeFault>
        requires { Below (length self.old.types) t }
        ensures keeps { Keeps self.old self.new }
        ensures finds { Finds (word_type at word (type_in self.old.types t))
            result self.old self.new }
    {
        match word {
            OneForm::Left | OneForm::Right | OneForm::Typeof | OneForm::Domain => {
                self.ensure_statement(at, t)?;
                Ok(KnownType::Judgement)
            }
            OneForm::Boundaryof => {
                self.ensure_type(at, KnownType::Judgement, t)?;
                Ok(KnownType::Boundary)
            }
            OneForm::SomeWord => Ok(self.of_row(Row::Opt(t))?),
            OneForm::Refl | OneForm::Sym | OneForm::Natural | OneForm::Normal => {
                self.ensure_type(at, KnownType::Judgement, t)?;
                Ok(KnownType::Judgement)
            }
        }
    }

    // The type that a word before two atoms wants of the first one.
    fn first_wanted(&self, word: TwoForm) -> KnownType
        ensures below { Below (length self.now.types) result }
        ensures means { type_in self.now.types result ≡ first_wanted word }
    {
        match word {
            TwoForm::Fill => KnownType::Boundary,
            TwoForm::Trans
            | TwoForm::Convert
            | TwoForm::Equal
            | TwoForm::Widen
            | TwoForm::Rewrite => KnownType::Judgement,
        }
    }

    // The type of a word before two atoms.
    #[tactic(auto, using(crate::proofs::Rules::keeping))]
    fn word_of_two(&mut self, word: TwoForm) -> Result<KnownType, TypeFault>
        ensures keeps { Keeps self.old self.new }
        ensures finds { Finds (Ok (word_type_of_two word)) result self.old self.new }
    {
        match word {
            TwoForm::Equal => Ok(self.of_row(Row::Opt(KnownType::Judgement))?),
            TwoForm::Trans | TwoForm::Convert | TwoForm::Widen | TwoForm::Rewrite | TwoForm::Fill =>
                Ok(KnownType::Judgement),
        }
    }

    #[tactic(auto, using(crate::proofs::Rules::keeping))]
    fn none_of(&mut self, t: &AmlType) -> Result<KnownType, TypeFault>
        ensures keeps { Keeps self.old self.new }
        ensures finds { FindsType result self.old self.new (none_of 0 (value_type t.now)) }
    {
        let part = self.written(t)?;
        Ok(self.of_row(Row::Opt(part))?)
    }

    #[tactic(auto, using(crate::proofs::Rules::keeping))]
    fn nil_of(&mut self, t: &AmlType) -> Result<KnownType, TypeFault>
        ensures keeps { Keeps self.old self.new }
        ensures finds { FindsType result self.old self.new (nil_of 0 (value_type t.now)) }
    {
        let part = self.written(t)?;
        Ok(self.of_row(Row::List(part))?)
    }

    /// The type of an expression.
    #[cycle(typing)]
    #[tactic(auto, using(crate::proofs::Rules::keeping, crate::proofs::Rules::written_forms))]
    pub fn type_of(&mut self, e: &Ast) -> Result<KnownType, TypeFault>
        ensures keeps { Keeps self.old self.new }
        ensures finds { FindsType result self.old self.new (form e.now) }
    {
        match e {
            Ast::LetIn(_, x, e, f) => self.let_in(x, e.get(), f.get()),
            Ast::If(_, e, f, g) => self.if_then(e.get(), f.get(), g.get()),
            Ast::Match(_, e, cases) => self.match_with(e.get(), cases.as_slice()),
            Ast::Handle(_, e, None, hs) => self.handle(e.get(), hs.as_slice()),
            Ast::Handle(_, e, Some(v), hs) => self.handle_value(e.get(), v, hs.as_slice()),
            Ast::Abstract(_, x, e, f) => self.abstraction(x, e.get(), f.get()),
            Ast::Cons(_, e, f) => self.cons(e.get(), f.get()),
            Ast::Refl(_, e) => self.one(OneForm::Refl, e.get()),
            Ast::Sym(_, e) => self.one(OneForm::Sym, e.get()),
            Ast::Left(_, e) => self.one(OneForm::Left, e.get()),
            Ast::Right(_, e) => self.one(OneForm::Right, e.get()),
            Ast::Typeof(_, e) => self.one(OneForm::Typeof, e.get()),
            Ast::Domain(_, e) => self.one(OneForm::Domain, e.get()),
            Ast::Natural(_, e) => self.one(OneForm::Natural, e.get()),
            Ast::Normal(_, e) => self.one(OneForm::Normal, e.get()),
            Ast::Boundaryof(_, e) => self.one(OneForm::Boundaryof, e.get()),
            Ast::SomeWord(_, e) => self.one(OneForm::SomeWord, e.get()),
            Ast::Trans(_, e, f) => self.two(TwoForm::Trans, e.get(), f.get()),
            Ast::Convert(_, e, f) => self.two(TwoForm::Convert, e.get(), f.get()),
            Ast::Equal(_, e, f) => self.two(TwoForm::Equal, e.get(), f.get()),
            Ast::Widen(_, e, f) => self.two(TwoForm::Widen, e.get(), f.get()),
            Ast::Rewrite(_, e, f) => self.two(TwoForm::Rewrite, e.get(), f.get()),
            Ast::Fill(_, e, f) => self.two(TwoForm::Fill, e.get(), f.get()),
            Ast::Argument(_, e, _) => self.argument(e.get()),
            Ast::Congruence(_, r, e, f) => self.congruence(r, e.get(), f.get()),
            Ast::Perform(_, operation, e) => self.perform(operation, e.get()),
            Ast::Call(_, x, es) => self.call(x, es.as_slice()),
            Ast::Subst(_, e, es) => self.substitution(e.get(), es.as_slice()),
            Ast::TrueWord(_) | Ast::FalseWord(_) => Ok(KnownType::Bool),
            Ast::Unit(_) => Ok(KnownType::Unit),
            Ast::Pair(_, e, f) => self.pair(e.get(), f.get()),
            Ast::NoneWord(_, t) => self.none_of(t),
            Ast::Nil(_, t) => self.nil_of(t),
        }
    }

    // The type of an expression in which the name stands for a value of the type.
    #[cycle(typing)]
    #[tactic(auto, using(crate::proofs::Rules::keeping))]
    fn under(&mut self, x: &Named, t: KnownType, e: &Ast) -> Result<KnownType, TypeFault>
        requires { Below (length self.old.types) t }
        ensures keeps { Keeps self.old self.new }
        ensures finds { Finds
            (type_of_form (form e.now)
            (with_value x.now.name (type_in self.old.types t) (scope_of self.old)))
            result self.old self.new }
    {
        let count = self.local_count();
        self.push(&x.name, t)?;
        let found = self.type_of(e)?;
        self.leave(count);
        Ok(found)
    }

    /// The expression is a judgement.
    #[cycle(typing)]
    #[tactic(auto, using(crate::proofs::Rules::keeping))]
    pub fn judgement(&mut self, e: &Ast) -> Result<(), TypeFault>
        ensures keeps { Keeps self.old self.new }
        ensures finds { Passes (ensure_judgement (form e.now) (scope_of self.old))
            result self.old self.new }
    {
        let found = self.type_of(e)?;
        self.ensure_type(place_of(e), KnownType::Judgement, found)
    }

    // Each of the expressions is a judgement.
    #[cycle(typing)]
    #[tactic(auto, using(crate::proofs::Rules::keeping))]
    fn judgements(&mut self, es: &[Ast]) -> Result<(), TypeFault>
        ensures keeps { Keeps self.old self.new }
        ensures finds { Passes (ensure_judgements (forms (map form es.now)) (scope_of self.old))
            result self.old self.new }
    {
        for e in es {
            self.judgement(e)?;
        }
        Ok(())
    }

    #[cycle(typing)]
    #[tactic(auto, using(crate::proofs::Rules::keeping))]
    fn let_in(&mut self, x: &Named, e: &Ast, f: &Ast) -> Result<KnownType, TypeFault>
        ensures keeps { Keeps self.old self.new }
        ensures finds { FindsType result self.old self.new
            (let_in 0 x.now (form e.now) (form f.now)) }
    {
        let t = self.type_of(e)?;
        self.under(x, t, f)
    }

    #[cycle(typing)]
    #[tactic(auto, using(crate::proofs::Rules::keeping))]
    fn if_then(&mut self, e: &Ast, f: &Ast, g: &Ast) -> Result<KnownType, TypeFault>
        ensures keeps { Keeps self.old self.new }
        ensures finds { FindsType result self.old self.new
            (if_then 0 (form e.now) (form f.now) (form g.now)) }
    {
        let test = self.type_of(e)?;
        self.ensure_type(place_of(e), KnownType::Bool, test)?;
        let first = self.type_of(f)?;
        let second = self.type_of(g)?;
        self.ensure_type(place_of(g), first, second)?;
        Ok(first)
    }

    #[cycle(typing)]
    #[tactic(auto, using(crate::proofs::Rules::keeping))]
    fn match_with(&mut self, e: &Ast, cs: &[Case]) -> Result<KnownType, TypeFault>
        ensures keeps { Keeps self.old self.new }
        ensures finds { FindsType result self.old self.new
            (match_with 0 (form e.now) (cases (map case cs.now))) }
    {
        let t = self.type_of(e)?;
        self.cases(cs, t)
    }

    // The type of the first case, which the others have too.
    #[cycle(typing)]
    #[tactic(auto, using(crate::proofs::Rules::keeping))]
    fn cases(&mut self, cs: &[Case], t: KnownType) -> Result<KnownType, TypeFault>
        requires { Below (length self.old.types) t }
        ensures keeps { Keeps self.old self.new }
        ensures finds { Finds
            (type_of_cases (cases (map case cs.now)) (type_in self.old.types t) (scope_of self.old))
            result self.old self.new }
    {
        match cs {
            [] => Ok(KnownType::Judgement),
            [first, rest @ ..] => {
                let found = self.case(first, t)?;
                self.other_cases(rest, t, found)?;
                Ok(found)
            }
        }
    }

    // The type of a case for values of the type.
    #[cycle(typing)]
    #[tactic(auto, using(crate::proofs::Rules::keeping, crate::proofs::Cases::entered_count, crate::proofs::Cases::left_locals), unfolding(crate::specs::Checking::type_of_case))]
    fn case(&mut self, c: &Case, t: KnownType) -> Result<KnownType, TypeFault>
        requires { Below (length self.old.types) t }
        ensures keeps { Keeps self.old self.new }
        ensures finds { Finds
            (type_of_case (pattern c.now.pattern) (form c.now.body) (type_in self.old.types t)
            (scope_of self.old))
            result self.old self.new }
    {
        let mut found = Vec::new(self.allocator());
        self.bindings(&c.pattern, t, &mut found)?;
        let count = self.local_count();
        self.enter(found)?;
        let body = self.type_of(c.body.get())?;
        self.leave(count);
        Ok(body)
    }

    // Each case, for values of the one type, has the other.
    #[cycle(typing)]
    #[tactic(auto, using(crate::proofs::Rules::keeping))]
    fn other_cases(&mut self, cs: &[Case], t: KnownType, wanted: KnownType) -> Result<(), TypeFault>
        requires { Below (length self.old.types) t × Below (length self.old.types) wanted }
        ensures keeps { Keeps self.old self.new }
        ensures finds { Passes
            (ensure_cases (cases (map case cs.now)) (type_in self.old.types t)
            (type_in self.old.types wanted) (scope_of self.old))
            result self.old self.new }
    {
        for c in cs {
            let found = self.case(c, t)?;
            self.ensure_type(place_of(c.body.get()), wanted, found)?;
        }
        Ok(())
    }

    #[cycle(typing)]
    #[tactic(auto, using(crate::proofs::Rules::keeping))]
    fn handle(&mut self, e: &Ast, hs: &[OpCase]) -> Result<KnownType, TypeFault>
        ensures keeps { Keeps self.old self.new }
        ensures finds { FindsType result self.old self.new
            (handle_with 0 (form e.now) no_value_case (handlers (map handler hs.now))) }
    {
        let t = self.type_of(e)?;
        self.handlers(hs, t)?;
        Ok(t)
    }

    #[cycle(typing)]
    #[tactic(auto, using(crate::proofs::Rules::keeping, ft_meaning::proofs::Written::value_parts))]
    fn handle_value(&mut self, e: &Ast, v: &ValCase, hs: &[OpCase]) -> Result<KnownType, TypeFault>
        ensures keeps { Keeps self.old self.new }
        ensures finds { FindsType result self.old self.new
            (handle_with 0 (form e.now) (value_case_of (Some (value v.now)))
            (handlers (map handler hs.now))) }
    {
        let t = self.type_of(e)?;
        let found = self.under(&v.name, t, v.body.get())?;
        self.handlers(hs, found)?;
        Ok(found)
    }

    // Each case for an operation has the type, and no operation has two.
    #[cycle(typing)]
    #[tactic(auto, using(crate::proofs::Rules::keeping))]
    fn handlers(&mut self, hs: &[OpCase], t: KnownType) -> Result<(), TypeFault>
        requires { Below (length self.old.types) t }
        ensures keeps { Keeps self.old self.new }
        ensures finds { Passes
            (ensure_handlers (handlers (map handler hs.now)) [] (type_in self.old.types t)
            (scope_of self.old))
            result self.old self.new }
    {
        let mut seen = Vec::new(self.allocator());
        for h in hs {
            self.handler(h, t, &mut seen)?;
        }
        Ok(())
    }

    // A case for an operation that none of those before is for has the type.
    #[cycle(typing)]
    #[tactic(auto, using(crate::proofs::Rules::keeping), unfolding(crate::specs::Checking::handler_has))]
    fn handler(&mut self, h: &OpCase, t: KnownType, seen: &mut Vec<Name>) -> Result<(), TypeFault>
        requires { Below (length self.old.types) t }
        ensures keeps { Keeps self.old self.new }
        ensures finds { Passes
            (handler_has h.now.operation h.now.argument (form h.now.body)
            (last_first seen.old.items) (type_in self.old.types t) (scope_of self.old))
            result self.old self.new }
        ensures seen { OnOk result
            (SeesNext h.now.operation.name seen.old.items seen.new.items) }
    {
        let operation = self.operation(&h.operation)?;
        new_name(&h.operation, seen)?;
        let found = self.under(&h.argument, operation.argument, h.body.get())?;
        self.ensure_type(place_of(h.body.get()), t, found)
    }

    #[cycle(typing)]
    #[tactic(auto, using(crate::proofs::Rules::keeping))]
    fn abstraction(&mut self, x: &Named, e: &Ast, f: &Ast) -> Result<KnownType, TypeFault>
        ensures keeps { Keeps self.old self.new }
        ensures finds { FindsType result self.old self.new
            (abstraction 0 x.now (form e.now) (form f.now)) }
    {
        let domain = self.type_of(e)?;
        self.ensure_type(place_of(e), KnownType::Judgement, domain)?;
        let found = self.under(x, KnownType::Judgement, f)?;
        self.ensure_statement(place_of(f), found)?;
        Ok(found)
    }

    #[cycle(typing)]
    #[tactic(auto, using(crate::proofs::Rules::keeping))]
    fn cons(&mut self, e: &Ast, f: &Ast) -> Result<KnownType, TypeFault>
        ensures keeps { Keeps self.old self.new }
        ensures finds { FindsType result self.old self.new (cons_of 0 (form e.now) (form f.now)) }
    {
        let first = self.type_of(e)?;
        let rest = self.type_of(f)?;
        let list = self.of_row(Row::List(first))?;
        self.ensure_type(place_of(f), list, rest)?;
        Ok(list)
    }

    #[cycle(typing)]
    #[tactic(auto, using(crate::proofs::Rules::keeping))]
    fn one(&mut self, word: OneForm, e: &Ast) -> Result<KnownType, TypeFault>
        ensures keeps { Keeps self.old self.new }
        ensures finds { FindsType result self.old self.new (one 0 word (form e.now)) }
    {
        let t = self.type_of(e)?;
        self.word(place_of(e), word, t)
    }

    #[cycle(typing)]
    #[tactic(auto, using(crate::proofs::Rules::keeping))]
    fn two(&mut self, word: TwoForm, e: &Ast, f: &Ast) -> Result<KnownType, TypeFault>
        ensures keeps { Keeps self.old self.new }
        ensures finds { FindsType result self.old self.new (two 0 word (form e.now) (form f.now)) }
    {
        let first = self.type_of(e)?;
        self.ensure_type(place_of(e), self.first_wanted(word), first)?;
        let second = self.type_of(f)?;
        self.ensure_type(place_of(f), KnownType::Judgement, second)?;
        self.word_of_two(word)
    }

    #[cycle(typing)]
    #[tactic(auto, using(crate::proofs::Rules::keeping))]
    fn argument(&mut self, e: &Ast) -> Result<KnownType, TypeFault>
        ensures keeps { Keeps self.old self.new }
        ensures finds { FindsType result self.old self.new (argument 0 (form e.now) 0) }
    {
        self.judgement(e)?;
        Ok(KnownType::Judgement)
    }

    #[cycle(typing)]
    #[tactic(auto, using(crate::proofs::Rules::keeping))]
    fn congruence(&mut self, r: &Named, e: &Ast, f: &Ast) -> Result<KnownType, TypeFault>
        ensures keeps { Keeps self.old self.new }
        ensures finds { FindsType result self.old self.new
            (congruence 0 r.now (form e.now) (form f.now)) }
    {
        self.rule(r)?;
        let list = self.of_row(Row::List(KnownType::Judgement))?;
        let first = self.type_of(e)?;
        self.ensure_type(place_of(e), list, first)?;
        let second = self.type_of(f)?;
        self.ensure_type(place_of(f), list, second)?;
        Ok(KnownType::Judgement)
    }

    #[cycle(typing)]
    #[tactic(auto, using(crate::proofs::Rules::keeping))]
    fn perform(&mut self, n: &Named, e: &Ast) -> Result<KnownType, TypeFault>
        ensures keeps { Keeps self.old self.new }
        ensures finds { FindsType result self.old self.new (perform 0 n.now (form e.now)) }
    {
        let operation = self.operation(n)?;
        let found = self.type_of(e)?;
        self.ensure_type(place_of(e), operation.argument, found)?;
        Ok(operation.result)
    }

    #[cycle(typing)]
    #[tactic(auto, using(crate::proofs::Rules::keeping, crate::proofs::Counts::count_forms))]
    fn call(&mut self, x: &Named, es: &[Ast]) -> Result<KnownType, TypeFault>
        ensures keeps { Keeps self.old self.new }
        ensures finds { FindsType result self.old self.new
            (call 0 x.now (forms (map form es.now))) }
    {
        if let Some(t) = self.value(&x.name) {
            fits_arity(x, 0, es.len() as u64)?;
            return Ok(t);
        }
        let rule = self.rule(x)?;
        fits_arity(x, rule.premises, es.len() as u64)?;
        self.judgements(es)?;
        Ok(KnownType::Judgement)
    }

    #[cycle(typing)]
    #[tactic(auto, using(crate::proofs::Rules::keeping))]
    fn substitution(&mut self, e: &Ast, es: &[Ast]) -> Result<KnownType, TypeFault>
        ensures keeps { Keeps self.old self.new }
        ensures finds { FindsType result self.old self.new
            (substitution 0 (form e.now) (forms (map form es.now))) }
    {
        let t = self.type_of(e)?;
        self.ensure_statement(place_of(e), t)?;
        self.judgements(es)?;
        Ok(t)
    }

    #[cycle(typing)]
    #[tactic(auto, using(crate::proofs::Rules::keeping))]
    fn pair(&mut self, e: &Ast, f: &Ast) -> Result<KnownType, TypeFault>
        ensures keeps { Keeps self.old self.new }
        ensures finds { FindsType result self.old self.new (pair_of 0 (form e.now) (form f.now)) }
    {
        let first = self.type_of(e)?;
        let second = self.type_of(f)?;
        Ok(self.of_row(Row::Pair(first, second))?)
    }
}
