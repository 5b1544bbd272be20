//! The state of an evaluation.

ghost use Rattle.std.specs.Prelude.{◌≡◌, []};
ghost use Rattle.ft_running.specs.Evaluation.{IsEvaluation};

use ft_base::Units;
use ft_kernel::Kernel;
use ft_values::{Names, Scopes, Values};
use std::alloc::Global;
use std::marker::Model;

/// A kernel, the values over its list, the scopes within the command at hand, the names of the
/// commands before, and the units.
#[derive(Drop)]
pub struct State {
    pub kernel: Kernel,
    pub values: Values,
    pub scopes: Scopes,
    pub top: Names,
    pub units: Units,
    pub alloc: Global,
}

impl Model for State {
    ghost use Rattle.std.specs.Coded.{codes};
    ghost use Rattle.ft_syntax.specs.Code.{coded_expression};
    ghost use Rattle.ft_judge.specs.Code.{coded_statement};
    ghost use Rattle.ft_values.specs.Code.{coded_value};
    ghost use Rattle.ft_running.specs.Evaluation.{Evaluation, IsEvaluation};

    ghost Value = { Evaluation };

    ghost coded = { Prim.hlevel (codes, coded_expression, coded_statement, coded_value) };

    ghost view = { λ s. record {
      list = s.kernel;
      values = s.values;
      scopes = s.scopes;
      top = s.top;
      units = s.units;
    } };

    ghost invariant = { λ s. IsEvaluation (record {
      list = s.kernel;
      values = s.values;
      scopes = s.scopes;
      top = s.top;
      units = s.units;
    }) };
}

impl State {
    /// The state before a run with these units. It takes no memory.
    pub fn new(alloc: Global, units: Units) -> State
        ensures { result
            ≡ record {
              list = record { trees = []; items = [] };
              values = [];
              scopes = [];
              top = [];
              units = units;
            } }
    {
        let _used = units.used();
        State {
            kernel: Kernel::new(alloc),
            values: Values::new(alloc),
            scopes: Scopes::new(alloc),
            top: Names::new(alloc),
            units,
            alloc,
        }
    }

    /// Where memory is taken from.
    pub fn allocator(&self) -> Global {
        self.alloc
    }

    /// What holds of each state. It takes no memory.
    pub fn holds(&self)
        ensures { IsEvaluation self.now }
    {
        let _kernel = &self.kernel;
    }
}
