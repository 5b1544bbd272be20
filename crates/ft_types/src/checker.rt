//! What is kept while a command is checked.

ghost use Rattle.std.specs.Prelude.{◌≡◌, ◌≤◌, ◌-◌, ◌++◌, [], drop, length, option_map, is_some};
ghost use Rattle.std.specs.Prelude.{IfOk, IfSome, OnOk, OnErr};
ghost use Rattle.ft_meaning.specs.Names.{named};
ghost use Rattle.ft_meaning.specs.Trees.{value_type};
ghost use Rattle.ft_meaning.specs.Typing.{Exactly, Unbound, Twice, Mismatch, fault_at, meant_by};
ghost use Rattle.ft_meaning.specs.Typing.{ensure_arity, ensure_new, same_type, with_value};
ghost use Rattle.ft_meaning.specs.Typing.{ensure_type as type_wanted};
ghost use Rattle.ft_meaning.specs.Typing.{ensure_statement as type_either};
ghost use Rattle.ft_types.specs.Types.{type_in, type_at, Below, FitsBelow};
ghost use Rattle.ft_types.specs.Names.{listed};
ghost use Rattle.ft_types.specs.Checking.{scope_of, with_local, with_top, with_rule};
ghost use Rattle.ft_types.specs.Checking.{with_operation, rule_in, operation_in, renamed};
ghost use Rattle.ft_types.specs.Checking.{ValuesBelow, wanted_of, list_wanted, option_wanted};
ghost use Rattle.ft_types.specs.Checking.{pair_wanted, Keeps, Says, Gives, Tests, last_first};
ghost use Rattle.ft_types.specs.Checking.{SeesNext};

use crate::fault::{TypeFault, TypeWhy, Wanted};
use crate::names::{Entry, Names};
use crate::types::{KnownType, Row, Types};
use ft_base::{Memory, Name};
use ft_grammar::{AmlType, Named};
use std::alloc::Global;
use std::marker::Model;

/// What typing knows of a rule: how many premises it has, and whether it is a symbol's.
#[derive(Clone, Copy, Debug, Drop)]
pub struct RuleShape {
    pub premises: u64,
    pub is_symbol: bool,
}

/// The types of the argument and the result of an operation.
#[derive(Clone, Copy, Debug, Drop)]
pub struct OperationShape {
    pub argument: KnownType,
    pub result: KnownType,
}

/// What names stand for, and the table of types. The names that stand for values within a command
/// are a stack: one is pushed for its scope and popped after it, and the stack is searched from its
/// end, so that no scope is copied, and a name costs a step for each such name that is declared
/// after it.
#[derive(Drop)]
pub struct Checker {
    types: Types,
    values: Names<KnownType>,
    rules: Names<RuleShape>,
    operations: Names<OperationShape>,
    locals: Vec<Entry<KnownType>>,
    alloc: Global,
}

impl Model for Checker {
    ghost use Rattle.std.specs.Prelude.{length};
    ghost use Rattle.std.specs.Coded.{codes};
    ghost use Rattle.ft_types.specs.Code.{coded_type};
    ghost use Rattle.ft_types.specs.Types.{type_in};
    ghost use Rattle.ft_types.specs.Names.{listed};
    ghost use Rattle.ft_types.specs.Checking.{Checking, renamed, rule_in, operation_in, IsChecker};

    ghost Value = { Checking };

    ghost coded = { Prim.hlevel (codes, coded_type) };

    ghost view = { λ c. record {
      top = record {
        values = renamed (type_in c.types) c.values;
        rules = renamed rule_in c.rules;
        operations = renamed (operation_in c.types) c.operations;
      };
      locals = renamed (type_in c.types) (listed c.locals.items);
      types = c.types;
    } };

    ghost invariant = { λ c.
        IsChecker (length c.types) c.values c.operations (listed c.locals.items) };
}

impl Checker {
    /// No names and no types. It takes no memory.
    pub fn new(alloc: Global) -> Checker
        ensures { result
            ≡ record {
              top = record { values = []; rules = []; operations = [] };
              locals = [];
              types = [];
            } }
    {
        Checker {
            types: Types::new(alloc),
            values: Names::new(alloc),
            rules: Names::new(alloc),
            operations: Names::new(alloc),
            locals: Vec::new(alloc),
            alloc,
        }
    }

    /// The allocator.
    pub fn allocator(&self) -> Global {
        self.alloc
    }

    /// The type of the value of a name.
    #[tactic(auto, using(crate::proofs::Scopes::renamed_some, crate::proofs::Scopes::renamed_none, crate::proofs::Scopes::named_first, crate::proofs::Scopes::named_second, crate::proofs::Scopes::value_below))]
    pub fn value(&self, name: &Name) -> Option<KnownType>
        ensures below { IfSome result (λ t. Below (length self.now.types) t) }
        ensures means { option_map (type_in self.now.types) result
            ≡ named (scope_of self.now).values name.now }
    {
        match last_named(&self.locals, name) {
            Some(t) => Some(t),
            None => self.values.get(name),
        }
    }

    /// The rule of a name.
    #[tactic(auto, using(crate::proofs::Scopes::renamed_some, crate::proofs::Scopes::renamed_none))]
    pub fn rule(&self, n: &Named) -> Result<RuleShape, TypeFault>
        ensures { Gives (meant_by self.now.top.rules n.now) result rule_in }
    {
        match self.rules.get(&n.name) {
            Some(rule) => Ok(rule),
            None => Err(unbound(n)),
        }
    }

    /// The operation of a name.
    #[tactic(auto, using(crate::proofs::Scopes::renamed_some, crate::proofs::Scopes::renamed_none, crate::proofs::Scopes::operation_below))]
    pub fn operation(&self, n: &Named) -> Result<OperationShape, TypeFault>
        ensures argument { IfOk result (λ o. Below (length self.now.types) o.argument) }
        ensures result_below { IfOk result (λ o. Below (length self.now.types) o.result) }
        ensures means { Gives (meant_by self.now.top.operations n.now) result
            (operation_in self.now.types) }
    {
        match self.operations.get(&n.name) {
            Some(operation) => Ok(operation),
            None => Err(unbound(n)),
        }
    }

    /// The type of a row, which is added where it is not there.
    pub fn of_row(&mut self, row: Row) -> Result<KnownType, Memory>
        requires { FitsBelow (length self.old.types) row }
        ensures below { IfOk result (λ t. Below (length self.new.types) t) }
        ensures means { IfOk result (λ t. type_in self.new.types t ≡ type_at self.old.types row) }
        ensures locals { self.new.locals ≡ self.old.locals }
        ensures keeps { Keeps self.old self.new }
    {
        self.types.of_row(row)
    }

    /// A type as it is written.
    pub fn written(&mut self, a: &AmlType) -> Result<KnownType, Memory>
        ensures below { IfOk result (λ t. Below (length self.new.types) t) }
        ensures means { IfOk result (λ t. type_in self.new.types t ≡ value_type a.now) }
        ensures locals { self.new.locals ≡ self.old.locals }
        ensures keeps { Keeps self.old self.new }
    {
        self.types.written(a)
    }

    /// The type found is the one wanted.
    pub fn ensure_type(&self, at: u64, wanted: KnownType, found: KnownType) -> Result<(), TypeFault>
        requires { Below (length self.now.types) wanted × Below (length self.now.types) found }
        ensures { Tests
            (type_wanted at (type_in self.now.types wanted) (type_in self.now.types found))
            result }
    {
        if self.types.are_same(found, wanted) {
            Ok(())
        } else {
            Err(self.mismatch(at, found, wanted))
        }
    }

    /// The type found is `judgement` or `boundary`.
    pub fn ensure_statement(&self, at: u64, found: KnownType) -> Result<(), TypeFault>
        requires { Below (length self.now.types) found }
        ensures { Tests (type_either at (type_in self.now.types found)) result }
    {
        if self.types.are_same(found, KnownType::Judgement)
            || self.types.are_same(found, KnownType::Boundary)
        {
            Ok(())
        } else {
            Err(self.mismatch(at, found, KnownType::Judgement))
        }
    }

    /// The type found is another one than is wanted.
    pub fn mismatch(&self, at: u64, found: KnownType, wanted: KnownType) -> TypeFault
        requires { Below (length self.now.types) found × Below (length self.now.types) wanted }
        ensures { Says result
            (fault_at at
            (Mismatch (type_in self.now.types found) (Exactly (type_in self.now.types wanted)))) }
    {
        match self.types.shared(wanted) {
            Ok(wanted) => self.misfit(at, found, Wanted::Exactly(wanted)),
            Err(e) => e.into(),
        }
    }

    // The type found does not fit.
    fn misfit(&self, at: u64, found: KnownType, wanted: Wanted) -> TypeFault
        requires { Below (length self.now.types) found }
        ensures { Says result
            (fault_at at (Mismatch (type_in self.now.types found) (wanted_of wanted))) }
    {
        match self.types.shared(found) {
            Ok(found) => TypeFault {
                at,
                why: TypeWhy::Mismatch(found, wanted),
            },
            Err(e) => e.into(),
        }
    }

    /// The type of the members of lists of the type found.
    pub fn list_part(&self, at: u64, found: KnownType) -> Result<KnownType, TypeFault>
        requires { Below (length self.now.types) found }
        ensures below { IfOk result (λ t. Below (length self.now.types) t) }
        ensures means { Gives (list_wanted at (type_in self.now.types found)) result
            (type_in self.now.types) }
    {
        match self.types.list_part(found) {
            Some(part) => Ok(part),
            None => Err(self.misfit(at, found, Wanted::ListOf)),
        }
    }

    /// The type of what options of the type found may hold.
    pub fn option_part(&self, at: u64, found: KnownType) -> Result<KnownType, TypeFault>
        requires { Below (length self.now.types) found }
        ensures below { IfOk result (λ t. Below (length self.now.types) t) }
        ensures means { Gives (option_wanted at (type_in self.now.types found)) result
            (type_in self.now.types) }
    {
        match self.types.option_part(found) {
            Some(part) => Ok(part),
            None => Err(self.misfit(at, found, Wanted::OptionOf)),
        }
    }

    /// The types of the parts of pairs of the type found.
    pub fn pair_parts(&self, at: u64, found: KnownType) -> Result<(KnownType, KnownType), TypeFault>
        requires { Below (length self.now.types) found }
        ensures below { IfOk result
            (λ p. Below (length self.now.types) p.0 × Below (length self.now.types) p.1) }
        ensures means { Gives (pair_wanted at (type_in self.now.types found)) result
            (λ p. (type_in self.now.types p.0, type_in self.now.types p.1)) }
    {
        match self.types.pair_parts(found) {
            Some(parts) => Ok(parts),
            None => Err(self.misfit(at, found, Wanted::PairOf)),
        }
    }

    /// Whether two types are the same.
    pub fn are_same(&self, a: KnownType, b: KnownType) -> bool
        requires { Below (length self.now.types) a × Below (length self.now.types) b }
        ensures { result ≡ same_type (type_in self.now.types a) (type_in self.now.types b) }
    {
        self.types.are_same(a, b)
    }

    /// Whether the name is an operation's.
    #[tactic(auto, using(crate::proofs::Scopes::renamed_some, crate::proofs::Scopes::renamed_none))]
    pub fn has_operation(&self, name: &Name) -> bool
        ensures { result ≡ is_some (named self.now.top.operations name.now) }
    {
        self.operations.get(name).is_some()
    }

    /// Gives a name a value of the type from now on. After `Memory` all is as before.
    pub fn add_value(&mut self, name: &Name, t: KnownType) -> Result<(), Memory>
        requires { Below (length self.old.types) t }
        ensures ok { OnOk result
            (self.new
            ≡ with_top self.old
            (with_value name.now (type_in self.old.types t) self.old.top)) }
        ensures err { OnErr result (self.new ≡ self.old) }
    {
        self.values.add(name, t)
    }

    /// Gives a name a rule from now on. After `Memory` all is as before.
    pub fn add_rule(&mut self, name: &Name, rule: RuleShape) -> Result<(), Memory>
        ensures ok { OnOk result
            (self.new ≡ with_top self.old (with_rule name.now (rule_in rule) self.old.top)) }
        ensures err { OnErr result (self.new ≡ self.old) }
    {
        self.rules.add(name, rule)
    }

    /// Gives a name an operation from now on. After `Memory` all is as before.
    pub fn add_operation(&mut self, name: &Name, o: OperationShape) -> Result<(), Memory>
        requires { Below (length self.old.types) o.argument
            × Below (length self.old.types) o.result }
        ensures ok { OnOk result
            (self.new
            ≡ with_top self.old
            (with_operation name.now (operation_in self.old.types o) self.old.top)) }
        ensures err { OnErr result (self.new ≡ self.old) }
    {
        self.operations.add(name, o)
    }

    /// Gives a name within the command a value of the type. After `Memory` all is as before.
    pub fn push(&mut self, name: &Name, t: KnownType) -> Result<(), Memory>
        requires { Below (length self.old.types) t }
        ensures ok { OnOk result
            (self.new ≡ with_local name.now (type_in self.old.types t) self.old) }
        ensures err { OnErr result (self.new ≡ self.old) }
    {
        let name = name.copy()?;
        self.locals.push(Entry { name, meaning: t })?;
        Ok(())
    }

    /// Gives these names values within the command. After `Memory` all is as before.
    pub fn enter(&mut self, found: Vec<Entry<KnownType>>) -> Result<(), Memory>
        requires { ValuesBelow (length self.old.types) (listed found.items) }
        ensures ok { OnOk result
            (self.new
            ≡ record self.old {
              locals = renamed (type_in self.old.types) (listed found.items) ++ self.old.locals;
            }) }
        ensures err { OnErr result (self.new ≡ self.old) }
    {
        let mut found = found;
        self.locals.append(&mut found)?;
        Ok(())
    }

    /// How many names have values within the command.
    pub fn local_count(&self) -> usize
        ensures { result ≡ length self.now.locals }
    {
        self.locals.len()
    }

    /// Takes the last names within the command away, so that so many are left.
    pub fn leave(&mut self, count: usize)
        requires { count ≤ length self.old.locals }
        ensures { self.new
            ≡ record self.old {
              locals = drop (length self.old.locals - count) self.old.locals;
            } }
    {
        self.locals.truncate(count);
    }
}

// The meaning of the last entry of the name. It takes no memory.
#[tactic(auto, using(crate::proofs::Scopes::last_found, crate::proofs::Scopes::last_other))]
pub fn last_named(entries: &[Entry<KnownType>], name: &Name) -> Option<KnownType>
    ensures { result ≡ named (listed entries.now) name.now }
{
    let mut count = entries.len();
    'searching: while count > 0 {
        let last = &entries[count - 1];
        if last.name == *name {
            return Some(last.meaning);
        }
        count -= 1;
    }
    None
}

/// The name has no meaning.
pub fn unbound(n: &Named) -> TypeFault
    ensures { Says result (fault_at n.now.at (Unbound n.now.name)) }
{
    match n.name.copy() {
        Ok(name) => TypeFault {
            at: n.at,
            why: TypeWhy::Unbound(name),
        },
        Err(e) => e.into(),
    }
}

/// The name is declared twice.
pub fn twice(at: u64, name: &Name) -> TypeFault
    ensures { Says result (fault_at at (Twice name.now)) }
{
    match name.copy() {
        Ok(name) => TypeFault {
            at,
            why: TypeWhy::Twice(name),
        },
        Err(e) => e.into(),
    }
}

/// So many are given as the name takes.
pub fn fits_arity(n: &Named, takes: u64, given: u64) -> Result<(), TypeFault>
    ensures { Tests (ensure_arity n.now takes given) result }
{
    if given == takes {
        return Ok(());
    }
    let name = n.name.copy()?;
    Err(TypeFault {
        at: n.at,
        why: TypeWhy::Arity(name, takes, given),
    })
}

/// The name is not among those that were seen, and is then one of them.
#[tactic(auto, using(crate::proofs::Seen::last_seen, crate::proofs::Seen::seen_or_not))]
pub fn new_name(n: &Named, seen: &mut Vec<Name>) -> Result<(), TypeFault>
    ensures new { Tests (ensure_new n.now (last_first seen.old.items)) result }
    ensures seen { OnOk result (SeesNext n.now.name seen.old.items seen.new.items) }
{
    if is_among(seen, &n.name) {
        return Err(twice(n.at, &n.name));
    }
    seen.push(n.name.copy()?)?;
    Ok(())
}

// Whether the name is among these.
#[tactic(auto, using(crate::proofs::Rules::same_names))]
fn is_among(names: &[Name], name: &Name) -> bool
    ensures { result ≡ Rattle.ft_meaning.specs.Names.is_among names.now name.now }
{
    for other in names {
        if *name == *other {
            return true;
        }
    }
    false
}
