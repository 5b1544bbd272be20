//! The table: rows, each of which names earlier rows.

ghost use Rattle.std.specs.Prelude.{◌≡◌, ℕ, ◌+◌, ◌-◌, ◌<◌, ◌≤◌, ◌++◌, [], ◌∷◌, List, Some, length, map, slice_get, IfOk, IfErr, IfSome, IfNone, OnOk, OnErr, IsTrue, IsFalse, ◌↔◌};
ghost use Rattle.ft_theory.specs.Expressions.{bound, free, symbol, meta, Without};
ghost use Rattle.ft_theory.specs.Small.{IsSmall, depth, size};
ghost use Rattle.ft_syntax.specs.Arguments.{node_of, arguments_of, applied, FitsNode, IsApplication};
ghost use Rattle.ft_syntax.specs.Table.{tree, Extends, AreDifferent, IsNew, argument_in, arguments_in, terms_in, BodyBelow, ArgumentsBelow, AllBelow, term_argument};
ghost use Rattle.ft_syntax.specs.Invariant.{HasArguments, IsApplied};
ghost use Rattle.ft_syntax.specs.Chains.{spelled, IsNoted, KeepsOthers};
ghost use Rattle.ft_syntax.specs.Measures.{greatest_depth, total_size, AreSmall};
ghost use Rattle.ft_syntax.specs.declared.syntax.SynFault.TheVariants.{TooBig, Memory};

use crate::crowded::Crowded;
use crate::index::Index;
use crate::marks::{mark_of, spelling_of};
use crate::syntax::{Arg, E, Node, SynFault};
use ft_base::limits::{MAX_BINDERS, MAX_DEPTH, MAX_SIZE};
use std::alloc::{AllocError, Global};
use std::marker::Model;

// A row: its node, and where its arguments stand among those of all rows.
#[derive(Clone, Copy)]
struct Row {
    node: Node,
    first: usize,
    end: usize,
    depth: u64,
    size: u64,
}

/// A table of expressions, to which expressions are added and from which none is taken. An expression has one number in it, which
/// is answered whenever it is formed. A call that forms an expression answers
/// `TooBig` exactly where this is not small (its depth at most 1,000, its size at most 65,536, its numbers below their types'
/// ends), and `Memory` where memory is refused. The earlier expressions are as before in either case.
#[derive(Drop)]
pub struct Terms {
    rows: Vec<Row>,
    parts: Vec<Arg>,
    index: Index,
    crowded: Crowded,
    alloc: Global,
}

impl Model for Terms {
    ghost use Rattle.std.specs.Prelude.{List, []};
    ghost use Rattle.ft_theory.specs.Expressions.{Expression};
    ghost use Rattle.ft_syntax.specs.Code.{coded_expressions};

    ghost Value = { List Expression };

    ghost coded = { coded_expressions };

    ghost use Rattle.ft_syntax.specs.Invariant.{trees_after, IsTable};

    ghost view = { λ t. trees_after t.parts.items [] t.rows.items };

    ghost invariant = { λ t. IsTable t.parts.items t.rows.items t.index t.crowded };
}

impl Terms {
    /// An empty table. It takes no memory.
    #[tactic(auto, using(crate::proofs::Adding::table_none))]
    pub fn new(alloc: Global) -> Terms
        ensures { result ≡ [] }
    {
        Terms {
            rows: Vec::new(alloc),
            parts: Vec::new(alloc),
            index: Index::new(alloc),
            crowded: Crowded::new(alloc),
            alloc,
        }
    }

    // Adds a row, whose depth and size are these.
    #[tactic(auto, using(crate::proofs::Tables::trees_pushed, crate::proofs::Tables::trees_kept, crate::proofs::Tables::length_trees, crate::proofs::Adding::table_pushed, crate::proofs::Adding::table_kept, crate::proofs::Adding::taken, crate::proofs::Crowding::keeps_same))]
    fn push(
        &mut self,
        mark: u64,
        node: Node,
        args: &[Arg],
        depth: u64,
        size: u64,
    ) -> Result<E, SynFault>
        requires mark { mark ≡ Rattle.ft_syntax.specs.Chains.mark node args.now }
        requires new { IsNew self.old (applied node (map (argument_in self.old) args.now)) }
        requires below { ArgumentsBelow (length self.old) args.now }
        requires fits { FitsNode node (map (argument_in self.old) args.now) }
        requires depth_is { depth ≡ Rattle.ft_theory.specs.Small.depth (applied node (map (argument_in self.old) args.now)) }
        requires size_is { size ≡ Rattle.ft_theory.specs.Small.size (applied node (map (argument_in self.old) args.now)) }
        requires small { IsSmall (applied node (map (argument_in self.old) args.now)) }
        ensures number { IfOk result (λ e. e ≡ length self.old) }
        ensures table { IfOk result (λ _. self.new ≡ self.old ++ applied node (map (argument_in self.old) args.now) ∷ []) }
        ensures kept { IfErr result (λ f. (f ≡ Memory) × (self.new ≡ self.old)) }
    {
        let first = self.parts.len();
        if self.parts.extend_from_slice(args).is_err() {
            return Err(SynFault::Memory);
        }
        let row = Row {
            node,
            first,
            end: self.parts.len(),
            depth,
            size,
        };
        let number = self.rows.len();
        if self.rows.push(row).is_err() {
            return Err(SynFault::Memory);
        }
        if note(
            self.alloc,
            &mut self.index,
            &mut self.crowded,
            number,
            mark,
            node,
            args,
        )
        .is_err()
        {
            self.rows.pop();
            return Err(SynFault::Memory);
        }
        Ok(E::at(number))
    }

    // The arguments of an expression.
    #[tactic(auto, using(crate::proofs::Tables::row_first, crate::proofs::Tables::row_end, crate::proofs::Tables::length_trees, crate::proofs::Tables::row_arguments))]
    fn listed(&self, e: E) -> &[Arg]
        requires { e < length self.now }
        ensures { HasArguments self.now e result.now }
    {
        let row = &self.rows[e.place()];
        &self.parts[row.first..row.end]
    }

    // Whether the expression is that of a node with its arguments.
    #[tactic(auto, using(crate::proofs::Different::is_row, crate::proofs::Different::no_row))]
    fn is_row(&self, e: E, node: Node, args: &[Arg]) -> bool
        requires within { e < length self.now }
        requires below { ArgumentsBelow (length self.now) args.now }
        requires fits { FitsNode node (map (argument_in self.now) args.now) }
        ensures { IsTrue result ↔ (tree self.now e ≡ applied node (map (argument_in self.now) args.now)) }
    {
        let _ = &self.rows;
        if self.node(e) != node {
            return false;
        }
        are_same(self.listed(e), args)
    }

    // The row of a node with its arguments, where it is there.
    #[tactic(auto, using(crate::proofs::Finding::look_start, crate::proofs::Finding::look_within, crate::proofs::Finding::look_marked, crate::proofs::Finding::look_more, crate::proofs::Finding::look_falls, crate::proofs::Finding::misses_all, crate::proofs::Finding::misses_none, crate::proofs::Finding::misses_past, crate::proofs::Finding::misses_other, crate::proofs::Finding::none_found))]
    fn found(&self, mark: u64, node: Node, args: &[Arg]) -> Result<Option<E>, AllocError>
        requires mark { mark ≡ Rattle.ft_syntax.specs.Chains.mark node args.now }
        requires below { ArgumentsBelow (length self.now) args.now }
        requires fits { FitsNode node (map (argument_in self.now) args.now) }
        ensures some { IfOk result (λ r. IfSome r (λ e. (e < length self.now) × (tree self.now e ≡ applied node (map (argument_in self.now) args.now)))) }
        ensures none { IfOk result (λ r. IfNone r (IsNew self.now (applied node (map (argument_in self.now) args.now)))) }
    {
        let mut at = self.index.last(mark);
        'looking: while let Some(place) = at {
            if self.is_row(E::at(place), node, args) {
                return Ok(Some(E::at(place)));
            }
            at = self.index.before(place, mark);
        }
        if self.crowded.is_empty() {
            return Ok(None);
        }
        let spelling = spelling_of(self.alloc, node, args)?;
        match self.crowded.place(&spelling) {
            Some(place) if place < self.rows.len() => {
                if self.is_row(E::at(place), node, args) {
                    return Ok(Some(E::at(place)));
                }
                Ok(None)
            }
            _ => Ok(None),
        }
    }

    // A variable: its row, or a new one.
    #[tactic(auto, using(crate::specs::Laws::extends_same, crate::proofs::Tables::extends_last, crate::proofs::Tables::tree_last, crate::proofs::Tables::length_last))]
    fn variable(&mut self, node: Node) -> Result<E, SynFault>
        requires fits { FitsNode node [] }
        requires depth_is { 1 ≡ Rattle.ft_theory.specs.Small.depth (applied node []) }
        requires size_is { 1 ≡ Rattle.ft_theory.specs.Small.size (applied node []) }
        requires small { IsSmall (applied node []) }
        ensures within { IfOk result (λ e. e < length self.new) }
        ensures tree { IfOk result (λ e. tree self.new e ≡ applied node []) }
        ensures goes_on { Extends self.old self.new }
        ensures memory { IfErr result (λ f. f ≡ Memory) }
    {
        let mark = mark_of(node, &[]);
        match self.found(mark, node, &[])? {
            Some(e) => Ok(e),
            None => self.push(mark, node, &[], 1, 1),
        }
    }

    // The depth and the size of the arguments, where they are small enough for an application.
    #[tactic(auto, using(crate::proofs::Measures::measured_start, crate::proofs::Measures::measured_none, crate::proofs::Measures::measured_some, crate::proofs::Measures::measured_body, crate::proofs::Measures::refuse_binders, crate::proofs::Measures::refuse_size, crate::proofs::Measures::measured_end))]
    fn measure(&self, args: &[Arg]) -> Option<(u64, u64)>
        requires { ArgumentsBelow (length self.now) args.now }
        ensures some { IfSome result (λ m. (m.0 ≡ greatest_depth (map (argument_in self.now) args.now)) × (m.1 ≡ total_size (map (argument_in self.now) args.now)) × AreSmall (map (argument_in self.now) args.now)) }
        ensures none { IfNone result (AreSmall (map (argument_in self.now) args.now) → ⊥) }
    {
        let mut depth: u64 = 0;
        let mut size: u64 = 0;
        for a in args {
            if a.binders > MAX_BINDERS {
                return None;
            }
            if let Some(e) = a.body {
                depth = depth.max(self.depth(e));
                size += self.size(e);
                if size >= MAX_SIZE {
                    return None;
                }
            }
        }
        if depth >= MAX_DEPTH {
            return None;
        }
        Some((depth, size))
    }

    // The application of a symbol or a metavariable to arguments that fit it.
    #[tactic(auto, using(crate::proofs::Parts::small_applied, crate::proofs::Parts::small_arguments, crate::proofs::Parts::depth_applied, crate::proofs::Parts::size_applied, crate::proofs::Tables::extends_last, crate::specs::Laws::extends_same, crate::proofs::Tables::tree_last, crate::proofs::Tables::length_last))]
    pub(crate) fn apply(&mut self, node: Node, args: &[Arg]) -> Result<E, SynFault>
        requires application { IsApplication node }
        requires below { ArgumentsBelow (length self.old) args.now }
        requires fits { FitsNode node (map (argument_in self.old) args.now) }
        ensures within { IfOk result (λ e. e < length self.new) }
        ensures tree { IfOk result (λ e. tree self.new e ≡ applied node (map (argument_in self.old) args.now)) }
        ensures small { IfOk result (λ _. IsSmall (applied node (map (argument_in self.old) args.now))) }
        ensures goes_on { Extends self.old self.new }
        ensures too_big { IfErr result (λ f. f ≡ TooBig → IsSmall (applied node (map (argument_in self.old) args.now)) → ⊥) }
    {
        let mark = mark_of(node, args);
        if let Some(e) = self.found(mark, node, args)? {
            // a tree of the table is small
            let _ = self.depth(e);
            return Ok(e);
        }
        match self.measure(args) {
            None => Err(SynFault::TooBig),
            Some((depth, size)) => self.push(mark, node, args, depth + 1, size + 1),
        }
    }

    /// The bound variable of a number.
    #[tactic(auto, using(crate::proofs::Tables::extends_last, crate::specs::Laws::extends_same, crate::proofs::Tables::tree_last, crate::proofs::Tables::length_last))]
    pub fn bound(&mut self, i: u64) -> Result<E, SynFault>
        ensures within { IfOk result (λ e. e < length self.new) }
        ensures tree { IfOk result (λ e. tree self.new e ≡ bound i) }
        ensures small { IfOk result (λ _. IsSmall (bound i)) }
        ensures goes_on { Extends self.old self.new }
        ensures too_big { IfErr result (λ f. f ≡ TooBig → IsSmall (bound i) → ⊥) }
    {
        if i == u64::MAX {
            return Err(SynFault::TooBig);
        }
        self.variable(Node::Bound(i))
    }

    /// The free variable of a number.
    #[tactic(auto, using(crate::proofs::Tables::extends_last, crate::specs::Laws::extends_same, crate::proofs::Tables::tree_last, crate::proofs::Tables::length_last))]
    pub fn free(&mut self, v: u64) -> Result<E, SynFault>
        ensures within { IfOk result (λ e. e < length self.new) }
        ensures tree { IfOk result (λ e. tree self.new e ≡ free v) }
        ensures small { IfOk result (λ _. IsSmall (free v)) }
        ensures goes_on { Extends self.old self.new }
        ensures too_big { IfErr result (λ f. f ≡ TooBig → IsSmall (free v) → ⊥) }
    {
        self.variable(Node::Free(v))
    }

    /// The depth of an expression: 1 for a variable, and 1 more than the greatest of its arguments' for another. It takes no memory.
    #[tactic(auto, using(crate::proofs::Tables::row_of, crate::proofs::Tables::length_trees))]
    pub fn depth(&self, e: E) -> u64
        requires { e < length self.now }
        ensures depth { result ≡ Rattle.ft_theory.specs.Small.depth (tree self.now e) }
        ensures small { IsSmall (tree self.now e) }
    {
        self.rows[e.place()].depth
    }

    /// The size of an expression: 1 more than the sum of its arguments' sizes. It takes no memory.
    #[tactic(auto, using(crate::proofs::Tables::row_of, crate::proofs::Tables::length_trees))]
    pub fn size(&self, e: E) -> u64
        requires { e < length self.now }
        ensures size { result ≡ Rattle.ft_theory.specs.Small.size (tree self.now e) }
        ensures small { IsSmall (tree self.now e) }
    {
        self.rows[e.place()].size
    }

    /// Each expression of a table is small. It takes no memory.
    pub fn are_small(&self)
        ensures { (e : ℕ) → e < length self.now → IsSmall (tree self.now e) }
    {
        let _rows = self.rows.len();
    }

    /// The expression without its arguments. It takes no memory.
    #[tactic(auto, using(crate::proofs::Tables::row_of, crate::proofs::Tables::length_trees))]
    pub fn node(&self, e: E) -> Node
        requires { e < length self.now }
        ensures node { result ≡ node_of (tree self.now e) }
        ensures small { IsSmall (tree self.now e) }
    {
        self.rows[e.place()].node
    }

    /// How many arguments the expression has. It takes no memory.
    #[tactic(auto, using(crate::proofs::Tables::count_is))]
    pub fn count(&self, e: E) -> u64
        requires { e < length self.now }
        ensures { result ≡ length (arguments_of (tree self.now e)) }
    {
        self.listed(e).len() as u64
    }

    /// The argument at place `i`, counted from 1. A term at a metavariable is an argument without binders. It takes no memory.
    #[tactic(auto, using(crate::proofs::Tables::count_is, crate::proofs::Tables::argument_is, crate::proofs::Tables::body_is))]
    pub fn arg(&self, e: E, i: u64) -> Arg
        requires within { e < length self.now }
        requires first { 1 ≤ i }
        requires last { i ≤ length (arguments_of (tree self.now e)) }
        ensures argument { slice_get (arguments_of (tree self.now e)) (i - 1) ≡ Some (argument_in self.now result) }
        ensures below { BodyBelow e result.body }
    {
        self.listed(e)[(i - 1) as usize]
    }

    /// The application of a symbol to arguments.
    #[tactic(auto, using(crate::specs::Laws::extends_same))]
    pub fn symbol(&mut self, s: u64, args: &[Arg]) -> Result<E, SynFault>
        requires { ArgumentsBelow (length self.old) args.now }
        ensures within { IfOk result (λ e. e < length self.new) }
        ensures tree { IfOk result (λ e. tree self.new e ≡ symbol s (arguments_in self.old args.now)) }
        ensures small { IfOk result (λ _. IsSmall (symbol s (arguments_in self.old args.now))) }
        ensures goes_on { Extends self.old self.new }
        ensures too_big { IfErr result (λ f. f ≡ TooBig → IsSmall (symbol s (arguments_in self.old args.now)) → ⊥) }
    {
        self.apply(Node::Sym(s), args)
    }

    /// The application of a metavariable to terms.
    #[tactic(auto, using(crate::specs::Laws::extends_same, crate::proofs::Lists::terms_below, crate::proofs::Lists::terms_fit, crate::proofs::Lists::terms_are))]
    pub fn meta(&mut self, m: u64, args: &[E]) -> Result<E, SynFault>
        requires { AllBelow (length self.old) args.now }
        ensures within { IfOk result (λ e. e < length self.new) }
        ensures tree { IfOk result (λ e. tree self.new e ≡ meta m (terms_in self.old args.now)) }
        ensures small { IfOk result (λ _. IsSmall (meta m (terms_in self.old args.now))) }
        ensures goes_on { Extends self.old self.new }
        ensures too_big { IfErr result (λ f. f ≡ TooBig → IsSmall (meta m (terms_in self.old args.now)) → ⊥) }
    {
        let list = terms_of(self.alloc, args)?;
        self.apply(Node::Meta(m), &list)
    }

    // The allocator of the table.
    pub(crate) fn allocator(&self) -> Global {
        self.alloc
    }

    // The arguments of an application.
    #[tactic(auto, using(crate::proofs::Changing::arguments_applied))]
    pub(crate) fn arguments(&self, e: E) -> Result<Vec<Arg>, AllocError>
        requires within { e < length self.now }
        requires application { IsApplication (node_of (tree self.now e)) }
        ensures { IfOk result (λ r. IsApplied self.now e r.items) }
    {
        Vec::from_slice(self.alloc, self.listed(e))
    }

    // The application e, which has the arguments args, with the arguments list: e itself where these are the same.
    #[tactic(auto, using(crate::proofs::Sameness::same_tree, crate::specs::Laws::extends_same))]
    pub(crate) fn rebuilt(&mut self, e: E, args: &[Arg], list: Vec<Arg>) -> Result<E, SynFault>
        requires applied { IsApplied self.old e args.now }
        requires below { ArgumentsBelow (length self.old) list.items }
        requires fits { FitsNode (node_of (tree self.old e)) (map (argument_in self.old) list.items) }
        ensures within { IfOk result (λ r. r < length self.new) }
        ensures tree { IfOk result (λ r. tree self.new r ≡ applied (node_of (tree self.old e)) (map (argument_in self.old) list.items)) }
        ensures goes_on { Extends self.old self.new }
        ensures too_big { IfErr result (λ f. f ≡ TooBig → IsSmall (applied (node_of (tree self.old e)) (map (argument_in self.old) list.items)) → ⊥) }
    {
        if are_same(args, &list) {
            return Ok(e);
        }
        let node = self.node(e);
        self.apply(node, &list)
    }

    /// Whether two expressions are the same, which is told by their numbers. It takes no memory.
    #[tactic(auto, using(crate::proofs::Different::one_number))]
    pub fn equal_expr(&self, a: E, b: E) -> bool
        requires { (a < length self.now) × (b < length self.now) }
        ensures { IsTrue result ↔ (tree self.now a ≡ tree self.now b) }
    {
        let _ = &self.rows;
        a == b
    }

    /// Each expression of the table has one number. It does nothing.
    pub fn has_one_number_each(&self)
        ensures { AreDifferent self.now }
    {
        let _ = &self.rows;
    }

    /// Whether the free variable `v` is mentioned. It takes no memory.
    #[tactic(auto, using(crate::proofs::Mentions::none_mention_start, crate::proofs::Mentions::none_mention_none, crate::proofs::Mentions::none_mention_some, crate::proofs::Mentions::without_all, crate::proofs::Mentions::mentioned_here, crate::proofs::Mentions::mentioned_argument, crate::proofs::Lists::body_in))]
    pub fn mentions(&self, e: E, v: u64) -> bool
        requires { e < length self.now }
        ensures { IsFalse result ↔ Without v (tree self.now e) }
    {
        if self.node(e) == Node::Free(v) {
            return true;
        }
        for a in self.listed(e) {
            match a.body {
                Some(j) => {
                    if self.mentions(j, v) {
                        return true;
                    }
                }
                None => {}
            }
        }
        false
    }
}

// Notes a row: by its mark, or by its spelling where the bucket of its mark is full.
#[tactic(auto, using(crate::proofs::Adding::noted_marked, crate::proofs::Adding::noted_spelled, crate::proofs::Crowding::keeps_same, crate::proofs::Crowding::keeps_as))]
fn note(
    alloc: Global,
    index: &mut Index,
    crowded: &mut Crowded,
    place: usize,
    mark: u64,
    node: Node,
    args: &[Arg],
) -> Result<(), AllocError>
    requires place { place ≡ length index.old }
    requires mark { mark ≡ Rattle.ft_syntax.specs.Chains.mark node args.now }
    ensures ok { OnOk result (IsNoted index.old index.new crowded.new place node args.now) }
    ensures err { OnErr result (index.new ≡ index.old) }
    ensures others { KeepsOthers crowded.old crowded.new (spelled node args.now) }
{
    if !index.is_crowded(mark) {
        index.note(Some(mark))?;
        return Ok(());
    }
    let spelling = spelling_of(alloc, node, args)?;
    crowded.put(spelling, place)?;
    index.note(None)?;
    Ok(())
}

// Whether the arguments are the same.
fn are_same(x: &[Arg], y: &[Arg]) -> bool
    ensures { IsTrue result ↔ (x.now ≡ y.now) }
{
    x == y
}

// The terms as arguments without binders.
#[tactic(auto, using(crate::proofs::Lists::terms_more))]
fn terms_of(alloc: Global, args: &[E]) -> Result<Vec<Arg>, AllocError>
    ensures { IfOk result (λ r. r.items ≡ map term_argument args.now) }
{
    let mut list = Vec::new(alloc);
    for e in args {
        list.push(Arg {
            binders: 0,
            body: Some(*e),
        })?;
    }
    Ok(list)
}
