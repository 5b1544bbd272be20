//! The list of items over its table of expressions.

ghost use Rattle.std.specs.Prelude.{◌≡◌, ℕ, ◌+◌, ◌<◌, ◌^◌, [], length, IfOk, IfErr, OnOk, OnErr, Some, true, option_map, is_none};
ghost use Rattle.ft_items.specs.Item.{variable, metavariable, rule, entry, shown};
ghost use Rattle.ft_items.specs.Store.{nth, entries_in, variables_in, metavariables_in, rules_in};
ghost use Rattle.ft_items.specs.Good.{Allowed, Good, is_new};
ghost use Rattle.ft_theory.specs.Expressions.{bound, free, symbol, meta, open_at, close_at, substitute, in_place_of, instantiate};
ghost use Rattle.ft_theory.specs.Statements.{opened, abstracted, close_statement};
ghost use Rattle.ft_theory.specs.Small.{IsSmall};
ghost use Rattle.ft_syntax.specs.Table.{tree, Extends, ArgumentsBelow, AllBelow, arguments_in, terms_in};
ghost use Rattle.ft_syntax.specs.Instances.{instance_in, PairsBelow};
ghost use Rattle.ft_syntax.specs.declared.syntax.SynFault.TheVariants.{TooBig};
ghost use Rattle.ft_judge.specs.Meaning.{thesis_in, boundary_in, ThesisBelow, BoundaryBelow, IsClosedThesis, IsClosedBoundary};
ghost use Rattle.ft_judge.specs.Moving.{IsSmallStatement};
ghost use Rattle.ft_kernel.specs.State.{with_item, entry_at, statement_at, set_at, IsEntryOf, IsThesisOf, IsBoundaryOf, variable_numbered, IsVariableOf, next_number as next_number_after, place_of_name, rule_names, if_below};
ghost use Rattle.ft_kernel.specs.Shown.{IsShownAs, ShowsLine};
ghost use Rattle.ft_kernel.specs.Lines.{item_in, assertion_in, ContentBelow, is_entry};
ghost use Rattle.ft_kernel.specs.Steps.{step_of};

use crate::item::{Item, MetItem, RuleItem, VarItem};
use crate::line::{Content, Line};
use crate::step::Step;
use crate::token::{B, J, M, RuleId, V};
use ft_assume::Assume;
use ft_base::{Memory, Name};
use ft_judge::{Boundary, Thesis};
use ft_syntax::{Arg, E, Instance, SynFault, Terms};
use std::alloc::Global;
use std::collections::HashMap;
use std::marker::Model;

/// A table of expressions and a list of items over it. Items are added and never taken away, and each is allowed after those
/// before it.
#[derive(Drop)]
pub struct Kernel {
    terms: Terms,
    lines: Vec<Line>,
    entries: Vec<usize>,
    metavariables: Vec<usize>,
    rules: Vec<usize>,
    variables: HashMap<u64, usize>,
    names: HashMap<Name, u64>,
    next: u64,
}

impl Model for Kernel {
    ghost use Rattle.std.specs.Coded.{codes};
    ghost use Rattle.ft_syntax.specs.Code.{coded_expression};
    ghost use Rattle.ft_judge.specs.Code.{coded_statement};
    ghost use Rattle.ft_kernel.specs.State.{State};

    ghost Value = { State };

    ghost coded = { Prim.hlevel (codes, coded_expression, coded_statement) };

    ghost use Rattle.ft_kernel.specs.Lines.{items_in};
    ghost use Rattle.ft_kernel.specs.Invariant.{IsKernel};

    ghost view = { λ k. record { trees = k.terms; items = items_in k.terms k.lines.items } };

    ghost invariant = { λ k. IsKernel k.terms k.lines.items k.entries.items k.metavariables.items k.rules.items k.variables.entries k.names.entries k.next };
}

impl Kernel {
    /// The empty list over an empty table. It takes no memory.
    pub fn new(alloc: Global) -> Kernel
        ensures { result ≡ record { trees = []; items = [] } }
    {
        Kernel {
            terms: Terms::new(alloc),
            lines: Vec::new(alloc),
            entries: Vec::new(alloc),
            metavariables: Vec::new(alloc),
            rules: Vec::new(alloc),
            variables: HashMap::new(alloc),
            names: HashMap::new(alloc),
            next: 0,
        }
    }

    /// How many items there are. It takes no memory.
    pub fn len(&self) -> u64
        ensures len { result ≡ length self.now.items }
        ensures good { Good self.now.items }
    {
        self.lines.len() as u64
    }

    /// The table. It takes no memory.
    pub fn terms(&self) -> &Terms
        ensures terms { result.now ≡ self.now.trees }
        ensures good { Good self.now.items }
    {
        &self.terms
    }

    // Adds an entry, and gives its number.
    fn push_entry(&mut self, content: Content) -> Result<u64, Memory>
        requires entry { is_entry content ≡ true }
        requires below { ContentBelow (length self.old.trees) content }
        requires allowed { Allowed self.old.items (item_in self.old.trees content) }
        ensures number { IfOk result (λ n. n ≡ length (entries_in self.old.items)) }
        ensures list { OnOk result (self.new ≡ with_item self.old (item_in self.old.trees content)) }
        ensures err { OnErr result (self.new ≡ self.old) }
    {
        let number = self.entries.len() as u64;
        self.entries.push(self.lines.len())?;
        if let Err(e) = self.lines.push(Line { number, content }) {
            self.entries.pop();
            return Err(e.into());
        }
        Ok(number)
    }

    /// Adds a thesis with its set and its step. After `Memory` all is as before.
    pub fn push_judgement(&mut self, x: Thesis, set: Assume, step: Step) -> Result<J, Memory>
        requires below { ThesisBelow (length self.old.trees) x }
        requires allowed { Allowed self.old.items (entry (record { statement = thesis_in self.old.trees x; set = set; step = step_of step })) }
        ensures number { IfOk result (λ j. j ≡ length (entries_in self.old.items)) }
        ensures list { OnOk result (self.new ≡ with_item self.old (entry (record { statement = thesis_in self.old.trees x; set = set; step = step_of step }))) }
        ensures err { OnErr result (self.new ≡ self.old) }
    {
        let number = self.push_entry(Content::Thesis(x, set, step))?;
        Ok(J::at(number))
    }

    /// Adds a boundary with its set and its step. After `Memory` all is as before.
    pub fn push_boundary(&mut self, x: Boundary, set: Assume, step: Step) -> Result<B, Memory>
        requires below { BoundaryBelow (length self.old.trees) x }
        requires allowed { Allowed self.old.items (entry (record { statement = boundary_in self.old.trees x; set = set; step = step_of step })) }
        ensures number { IfOk result (λ b. b ≡ length (entries_in self.old.items)) }
        ensures list { OnOk result (self.new ≡ with_item self.old (entry (record { statement = boundary_in self.old.trees x; set = set; step = step_of step }))) }
        ensures err { OnErr result (self.new ≡ self.old) }
    {
        let number = self.push_entry(Content::Boundary(x, set, step))?;
        Ok(B::at(number))
    }

    /// Adds a variable. After `Memory` all is as before.
    pub fn push_var(&mut self, x: VarItem) -> Result<V, Memory>
        requires number { x.number + 1 < 2 ^ 64 }
        requires allowed { Allowed self.old.items (variable x.number x.name x.ty) }
        ensures number { IfOk result (λ v. v ≡ x.number) }
        ensures list { OnOk result (self.new ≡ with_item self.old (variable x.number x.name x.ty)) }
        ensures err { OnErr result (self.new ≡ self.old) }
    {
        let number = x.number;
        let place = self.lines.len();
        let line = Line {
            number,
            content: Content::Variable(x),
        };
        self.lines.push(line)?;
        if let Err(e) = self.variables.insert(number, place) {
            self.lines.pop();
            return Err(e.into());
        }
        self.next = self.next.max(number + 1);
        Ok(V::at(number))
    }

    /// Adds a metavariable. After `Memory` all is as before.
    pub fn push_met(&mut self, x: MetItem) -> Result<M, Memory>
        requires { Allowed self.old.items (metavariable x.name x.boundary) }
        ensures number { IfOk result (λ m. m ≡ length (metavariables_in self.old.items)) }
        ensures list { OnOk result (self.new ≡ with_item self.old (metavariable x.name x.boundary)) }
        ensures err { OnErr result (self.new ≡ self.old) }
    {
        let number = self.metavariables.len() as u64;
        self.metavariables.push(self.lines.len())?;
        let content = Content::Metavariable(x);
        if let Err(e) = self.lines.push(Line { number, content }) {
            self.metavariables.pop();
            return Err(e.into());
        }
        Ok(M::at(number))
    }

    /// Adds a rule. After `Memory` all is as before.
    pub fn push_rule(&mut self, x: RuleItem) -> Result<RuleId, Memory>
        requires { Allowed self.old.items (rule x.name x.premises x.conclusion) }
        ensures number { IfOk result (λ r. r ≡ length (rules_in self.old.items)) }
        ensures list { OnOk result (self.new ≡ with_item self.old (rule x.name x.premises x.conclusion)) }
        ensures err { OnErr result (self.new ≡ self.old) }
    {
        let name = x.name.copy()?;
        let number = self.rules.len() as u64;
        self.rules.push(self.lines.len())?;
        let content = Content::Rule(x);
        if let Err(e) = self.lines.push(Line { number, content }) {
            self.rules.pop();
            return Err(e.into());
        }
        if let Err(e) = self.names.insert(name, number) {
            self.lines.pop();
            self.rules.pop();
            return Err(e.into());
        }
        Ok(RuleId::at(number))
    }

    /// Marks a thesis as shown. After `Memory` all is as before.
    pub fn push_shown(&mut self, j: J) -> Result<(), Memory>
        requires { Allowed self.old.items (shown j) }
        ensures list { OnOk result (self.new ≡ with_item self.old (shown j)) }
        ensures err { OnErr result (self.new ≡ self.old) }
    {
        self.lines.push(Line {
            number: 0,
            content: Content::Shown(j),
        })?;
        Ok(())
    }

    // What is kept of the entry of a number.
    fn entry(&self, number: u64) -> &Content
        requires { IsEntryOf self.now number }
        ensures entry { assertion_in self.now.trees result.now ≡ entry_at self.now number }
        ensures below { ContentBelow (length self.now.trees) result.now }
        ensures good { Good self.now.items }
    {
        &self.lines[self.entries[number as usize]].content
    }

    /// The thesis that a token names. It takes no memory.
    pub fn thesis_of(&self, j: J) -> &Thesis
        requires { IsThesisOf self.now j }
        ensures thesis { statement_at self.now j ≡ Some (thesis_in self.now.trees result.now) }
        ensures below { ThesisBelow (length self.now.trees) result.now }
        ensures closed { IsClosedThesis self.now.trees result.now }
        ensures good { Good self.now.items }
    {
        match self.entry(j.number()) {
            Content::Thesis(x, _, _) => x,
            _ => unreachable!(),
        }
    }

    /// The boundary that a token names. It takes no memory.
    pub fn boundary_at(&self, b: B) -> &Boundary
        requires { IsBoundaryOf self.now b }
        ensures boundary { statement_at self.now b ≡ Some (boundary_in self.now.trees result.now) }
        ensures below { BoundaryBelow (length self.now.trees) result.now }
        ensures closed { IsClosedBoundary self.now.trees result.now }
        ensures good { Good self.now.items }
    {
        match self.entry(b.number()) {
            Content::Boundary(x, _, _) => x,
            _ => unreachable!(),
        }
    }

    /// The set of a thesis. It takes no memory.
    pub fn asm_of(&self, j: J) -> &Assume
        requires { IsThesisOf self.now j }
        ensures { set_at self.now j ≡ Some result.now }
    {
        match self.entry(j.number()) {
            Content::Thesis(_, set, _) => set,
            _ => unreachable!(),
        }
    }

    /// The set of a boundary. It takes no memory.
    pub fn set_of(&self, b: B) -> &Assume
        requires { IsBoundaryOf self.now b }
        ensures { set_at self.now b ≡ Some result.now }
    {
        match self.entry(b.number()) {
            Content::Boundary(_, set, _) => set,
            _ => unreachable!(),
        }
    }

    /// A variable. It takes no memory.
    pub fn var(&self, v: V) -> &VarItem
        requires { IsVariableOf self.now v }
        ensures number { result.now.number ≡ v }
        ensures variable { variable_numbered (variables_in self.now.items) v ≡ Some (result.now.name, result.now.ty) }
        ensures good { Good self.now.items }
    {
        let number = v.number();
        let place = self.variables.get(&number).copied().unwrap();
        match &self.lines[place].content {
            Content::Variable(x) => x,
            _ => unreachable!(),
        }
    }

    /// A metavariable. It takes no memory.
    pub fn met(&self, m: M) -> &MetItem
        requires { m < length (metavariables_in self.now.items) }
        ensures metavariable { nth (metavariables_in self.now.items) m ≡ Some (result.now.name, result.now.boundary) }
        ensures good { Good self.now.items }
    {
        match &self.lines[self.metavariables[m.number() as usize]].content {
            Content::Metavariable(x) => x,
            _ => unreachable!(),
        }
    }

    /// A rule. It takes no memory.
    pub fn rule(&self, r: RuleId) -> &RuleItem
        requires { r < length (rules_in self.now.items) }
        ensures rule { nth (rules_in self.now.items) r ≡ Some (result.now.name, result.now.premises, result.now.conclusion) }
        ensures good { Good self.now.items }
    {
        match &self.lines[self.rules[r.number() as usize]].content {
            Content::Rule(x) => x,
            _ => unreachable!(),
        }
    }

    /// The first rule of a name, or None where no rule has it. It takes no memory.
    pub fn rule_named(&self, name: &Name) -> Option<RuleId>
        ensures first { result ≡ place_of_name (rule_names self.now.items) name.now }
        ensures fresh { is_none result ≡ is_new (rule_names self.now.items) name.now }
    {
        self.names.get(name).copied().map(RuleId::at)
    }

    /// The rule of a number, or None where there is none. It takes no memory.
    pub fn rule_numbered(&self, n: u64) -> Option<RuleId>
        ensures { result ≡ if_below n (length (rules_in self.now.items)) }
    {
        if n < self.rules() {
            Some(RuleId::at(n))
        } else {
            None
        }
    }

    /// The metavariable of a number, or None where there is none. It takes no memory.
    pub fn met_numbered(&self, n: u64) -> Option<M>
        ensures { result ≡ if_below n (length (metavariables_in self.now.items)) }
    {
        if n < self.count_metavariables() {
            Some(M::at(n))
        } else {
            None
        }
    }

    /// The variable of a number, or None where there is none. It takes no memory.
    pub fn var_numbered(&self, n: u64) -> Option<V>
        ensures { result ≡ option_map (λ _. n) (variable_numbered (variables_in self.now.items) n) }
    {
        match self.variables.get(&n) {
            Some(_) => Some(V::at(n)),
            None => None,
        }
    }

    // How many metavariables there are.
    fn count_metavariables(&self) -> u64
        ensures { result ≡ length (metavariables_in self.now.items) }
    {
        self.metavariables.len() as u64
    }

    /// The item at a place, from 0. It takes no memory.
    pub fn item(&self, i: u64) -> Item<'_>
        requires { i < length self.now.items }
        ensures { IsShownAs self.now i result }
    {
        show(&self.lines[i as usize])
    }

    /// How many rules there are. It takes no memory.
    pub fn rules(&self) -> u64
        ensures { result ≡ length (rules_in self.now.items) }
    {
        self.rules.len() as u64
    }

    /// 1 more than the greatest number of a variable, 0 without one. It takes no memory.
    pub fn next_number(&self) -> u64
        ensures { result ≡ next_number_after (variables_in self.now.items) }
    {
        self.next
    }

    /// The bound variable of a number, in the table. The items stay as they are.
    #[tactic(auto, using(crate::proofs::Extended::kernel_extended, crate::proofs::Extended::items_extended, crate::proofs::Extended::trees_extended))]
    pub fn bound(&mut self, i: u64) -> Result<E, SynFault>
        ensures within { IfOk result (λ r. r < length self.new.trees) }
        ensures tree { IfOk result (λ r. tree self.new.trees r ≡ bound i) }
        ensures small { IfOk result (λ _. IsSmall (bound i)) }
        ensures goes_on { Extends self.old.trees self.new.trees }
        ensures too_big { IfErr result (λ f. f ≡ TooBig → IsSmall (bound i) → ⊥) }
        ensures items { self.new.items ≡ self.old.items }
    {
        self.terms.bound(i)
    }

    /// The free variable of a number, in the table. The items stay as they are.
    #[tactic(auto, using(crate::proofs::Extended::kernel_extended, crate::proofs::Extended::items_extended, crate::proofs::Extended::trees_extended))]
    pub fn free(&mut self, v: u64) -> Result<E, SynFault>
        ensures within { IfOk result (λ r. r < length self.new.trees) }
        ensures tree { IfOk result (λ r. tree self.new.trees r ≡ free v) }
        ensures small { IfOk result (λ _. IsSmall (free v)) }
        ensures goes_on { Extends self.old.trees self.new.trees }
        ensures too_big { IfErr result (λ f. f ≡ TooBig → IsSmall (free v) → ⊥) }
        ensures items { self.new.items ≡ self.old.items }
    {
        self.terms.free(v)
    }

    /// The application of a symbol to arguments, in the table. The items stay as they are.
    #[tactic(auto, using(crate::proofs::Extended::kernel_extended, crate::proofs::Extended::items_extended, crate::proofs::Extended::trees_extended))]
    pub fn symbol(&mut self, s: u64, args: &[Arg]) -> Result<E, SynFault>
        requires { ArgumentsBelow (length self.old.trees) args.now }
        ensures within { IfOk result (λ r. r < length self.new.trees) }
        ensures tree { IfOk result (λ r. tree self.new.trees r ≡ symbol s (arguments_in self.old.trees args.now)) }
        ensures small { IfOk result (λ _. IsSmall (symbol s (arguments_in self.old.trees args.now))) }
        ensures goes_on { Extends self.old.trees self.new.trees }
        ensures too_big { IfErr result (λ f. f ≡ TooBig → IsSmall (symbol s (arguments_in self.old.trees args.now)) → ⊥) }
        ensures items { self.new.items ≡ self.old.items }
    {
        self.terms.symbol(s, args)
    }

    /// The application of a metavariable to terms, in the table. The items stay as they are.
    #[tactic(auto, using(crate::proofs::Extended::kernel_extended, crate::proofs::Extended::items_extended, crate::proofs::Extended::trees_extended))]
    pub fn meta(&mut self, m: u64, args: &[E]) -> Result<E, SynFault>
        requires { AllBelow (length self.old.trees) args.now }
        ensures within { IfOk result (λ r. r < length self.new.trees) }
        ensures tree { IfOk result (λ r. tree self.new.trees r ≡ meta m (terms_in self.old.trees args.now)) }
        ensures small { IfOk result (λ _. IsSmall (meta m (terms_in self.old.trees args.now))) }
        ensures goes_on { Extends self.old.trees self.new.trees }
        ensures too_big { IfErr result (λ f. f ≡ TooBig → IsSmall (meta m (terms_in self.old.trees args.now)) → ⊥) }
        ensures items { self.new.items ≡ self.old.items }
    {
        self.terms.meta(m, args)
    }

    /// The expression with `t` for its loose bound variable `under`, which is read outside the expression's own binders. The
    /// items stay as they are.
    #[tactic(auto, using(crate::proofs::Extended::kernel_extended, crate::proofs::Extended::items_extended, crate::proofs::Extended::trees_extended))]
    pub fn open_bound(&mut self, e: E, under: u64, t: E) -> Result<E, SynFault>
        requires { (e < length self.old.trees) × (t < length self.old.trees) }
        ensures within { IfOk result (λ r. r < length self.new.trees) }
        ensures tree { IfOk result (λ r. tree self.new.trees r ≡ open_at under (tree self.old.trees t) (tree self.old.trees e)) }
        ensures goes_on { Extends self.old.trees self.new.trees }
        ensures too_big { IfErr result (λ f. f ≡ TooBig → IsSmall (open_at under (tree self.old.trees t) (tree self.old.trees e)) → ⊥) }
        ensures items { self.new.items ≡ self.old.items }
    {
        self.terms.open_bound(e, under, t)
    }

    /// The expression with the loose bound variable `under` for the free variable `v`. The items stay as they are.
    #[tactic(auto, using(crate::proofs::Extended::kernel_extended, crate::proofs::Extended::items_extended, crate::proofs::Extended::trees_extended))]
    pub fn close_free(&mut self, e: E, under: u64, v: u64) -> Result<E, SynFault>
        requires { e < length self.old.trees }
        ensures within { IfOk result (λ r. r < length self.new.trees) }
        ensures tree { IfOk result (λ r. tree self.new.trees r ≡ close_at under v (tree self.old.trees e)) }
        ensures goes_on { Extends self.old.trees self.new.trees }
        ensures too_big { IfErr result (λ f. f ≡ TooBig → IsSmall (close_at under v (tree self.old.trees e)) → ⊥) }
        ensures items { self.new.items ≡ self.old.items }
    {
        self.terms.close_free(e, under, v)
    }

    /// The expression with `t` for the free variable `v`. The items stay as they are.
    #[tactic(auto, using(crate::proofs::Extended::kernel_extended, crate::proofs::Extended::items_extended, crate::proofs::Extended::trees_extended))]
    pub fn replace(&mut self, e: E, v: u64, t: E) -> Result<E, SynFault>
        requires { (e < length self.old.trees) × (t < length self.old.trees) }
        ensures within { IfOk result (λ r. r < length self.new.trees) }
        ensures tree { IfOk result (λ r. tree self.new.trees r ≡ substitute (in_place_of v (tree self.old.trees t)) (tree self.old.trees e)) }
        ensures goes_on { Extends self.old.trees self.new.trees }
        ensures too_big { IfErr result (λ f. f ≡ TooBig → IsSmall (substitute (in_place_of v (tree self.old.trees t)) (tree self.old.trees e)) → ⊥) }
        ensures items { self.new.items ≡ self.old.items }
    {
        self.terms.replace(e, v, t)
    }

    /// The expression with the bodies of the instance for its metavariables, and their terms for the bodies' variables. The
    /// items stay as they are.
    #[tactic(auto, using(crate::proofs::Extended::kernel_extended, crate::proofs::Extended::items_extended, crate::proofs::Extended::trees_extended))]
    pub fn instantiate(&mut self, e: E, instance: &Instance) -> Result<E, SynFault>
        requires { (e < length self.old.trees) × PairsBelow (length self.old.trees) instance.now.pairs }
        ensures within { IfOk result (λ r. r < length self.new.trees) }
        ensures tree { IfOk result (λ r. tree self.new.trees r ≡ instantiate (instance_in self.old.trees instance.now.pairs) (tree self.old.trees e)) }
        ensures goes_on { Extends self.old.trees self.new.trees }
        ensures too_big { IfErr result (λ f. f ≡ TooBig → IsSmall (instantiate (instance_in self.old.trees instance.now.pairs) (tree self.old.trees e)) → ⊥) }
        ensures items { self.new.items ≡ self.old.items }
    {
        self.terms.instantiate(e, instance)
    }

    /// The thesis without its first domain, with `by` for that domain's variable. The items stay as they are.
    #[tactic(auto, using(crate::proofs::Extended::kernel_extended, crate::proofs::Extended::items_extended, crate::proofs::Extended::trees_extended))]
    pub fn open_first(&mut self, x: &Thesis, by: E) -> Result<Thesis, SynFault>
        requires thesis { ThesisBelow (length self.old.trees) x.now }
        requires by { by < length self.old.trees }
        requires domain { 0 < length x.now.domains }
        ensures within { IfOk result (λ r. ThesisBelow (length self.new.trees) r) }
        ensures thesis { IfOk result (λ r. thesis_in self.new.trees r ≡
            opened (tree self.old.trees by) (thesis_in self.old.trees x.now)) }
        ensures goes_on { Extends self.old.trees self.new.trees }
        ensures too_big { IfErr result (λ f. f ≡ TooBig →
            IsSmallStatement (opened (tree self.old.trees by) (thesis_in self.old.trees x.now)) → ⊥) }
        ensures items { self.new.items ≡ self.old.items }
    {
        let alloc = *self.lines.allocator();
        ft_judge::open_first(alloc, &mut self.terms, x, by)
    }

    /// The boundary without its first domain, with `by` for that domain's variable. The items stay as they are.
    #[tactic(auto, using(crate::proofs::Extended::kernel_extended, crate::proofs::Extended::items_extended, crate::proofs::Extended::trees_extended))]
    pub fn open_first_boundary(&mut self, x: &Boundary, by: E) -> Result<Boundary, SynFault>
        requires boundary { BoundaryBelow (length self.old.trees) x.now }
        requires by { by < length self.old.trees }
        requires domain { 0 < length x.now.domains }
        ensures within { IfOk result (λ r. BoundaryBelow (length self.new.trees) r) }
        ensures boundary { IfOk result (λ r. boundary_in self.new.trees r ≡
            opened (tree self.old.trees by) (boundary_in self.old.trees x.now)) }
        ensures goes_on { Extends self.old.trees self.new.trees }
        ensures too_big { IfErr result (λ f. f ≡ TooBig →
            IsSmallStatement (opened (tree self.old.trees by) (boundary_in self.old.trees x.now)) → ⊥) }
        ensures items { self.new.items ≡ self.old.items }
    {
        let alloc = *self.lines.allocator();
        ft_judge::open_first_boundary(alloc, &mut self.terms, x, by)
    }

    /// The thesis with the free variable `v`, of the type `ty`, bound as the variable of a new first domain. The items stay
    /// as they are.
    #[tactic(auto, using(crate::proofs::Extended::kernel_extended, crate::proofs::Extended::items_extended, crate::proofs::Extended::trees_extended))]
    pub fn close_over(&mut self, x: &Thesis, v: u64, ty: E) -> Result<Thesis, SynFault>
        requires thesis { ThesisBelow (length self.old.trees) x.now }
        requires ty { ty < length self.old.trees }
        ensures within { IfOk result (λ r. ThesisBelow (length self.new.trees) r) }
        ensures thesis { IfOk result (λ r. thesis_in self.new.trees r ≡
            abstracted (tree self.old.trees ty) (close_statement v (thesis_in self.old.trees x.now))) }
        ensures goes_on { Extends self.old.trees self.new.trees }
        ensures too_big { IfErr result (λ f. f ≡ TooBig →
            IsSmallStatement (close_statement v (thesis_in self.old.trees x.now)) → ⊥) }
        ensures items { self.new.items ≡ self.old.items }
    {
        let alloc = *self.lines.allocator();
        ft_judge::close_over(alloc, &mut self.terms, x, v, ty)
    }

    /// The boundary with the free variable `v`, of the type `ty`, bound as the variable of a new first domain. The items stay
    /// as they are.
    #[tactic(auto, using(crate::proofs::Extended::kernel_extended, crate::proofs::Extended::items_extended, crate::proofs::Extended::trees_extended))]
    pub fn close_over_boundary(&mut self, x: &Boundary, v: u64, ty: E) -> Result<Boundary, SynFault>
        requires boundary { BoundaryBelow (length self.old.trees) x.now }
        requires ty { ty < length self.old.trees }
        ensures within { IfOk result (λ r. BoundaryBelow (length self.new.trees) r) }
        ensures boundary { IfOk result (λ r. boundary_in self.new.trees r ≡
            abstracted (tree self.old.trees ty) (close_statement v (boundary_in self.old.trees x.now))) }
        ensures goes_on { Extends self.old.trees self.new.trees }
        ensures too_big { IfErr result (λ f. f ≡ TooBig →
            IsSmallStatement (close_statement v (boundary_in self.old.trees x.now)) → ⊥) }
        ensures items { self.new.items ≡ self.old.items }
    {
        let alloc = *self.lines.allocator();
        ft_judge::close_over_boundary(alloc, &mut self.terms, x, v, ty)
    }
}

// The item of a line.
fn show(line: &Line) -> Item<'_>
    ensures { ShowsLine line.now result }
{
    let number = line.number;
    match &line.content {
        Content::Variable(x) => Item::Var(V::at(x.number)),
        Content::Metavariable(_) => Item::Met(M::at(number)),
        Content::Rule(_) => Item::Rule(RuleId::at(number)),
        Content::Thesis(_, _, step) => Item::Thesis(J::at(number), step),
        Content::Boundary(_, _, step) => Item::Boundary(B::at(number), step),
        Content::Shown(j) => Item::Shown(*j),
    }
}
