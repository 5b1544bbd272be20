//! A source without parts of the equality checker asks nothing of it. The law is a function that does nothing, whose contract it
//! is.
#![tactic(auto)]

ghost use Rattle.std.specs.Prelude.{◌≡◌, None, List, All};
ghost use Rattle.ft_items.specs.Item.{Name};
ghost use Rattle.ft_meaning.specs.Trees.{Form, Command};
ghost use Rattle.ft_meaning.specs.Stages.{no_equality, parts, command_parts};
ghost use Rattle.ft_meaning.specs.Stages.{first_not_built, first_unbuilt};
ghost use Rattle.ft_eval.specs.Asking.{AsksNothing};
ghost use Rattle.ft_eval.specs.CommandsAsking.{CommandAsksNothing};

/// Where no part is one of the equality checker, a form asks nothing of it, whatever the names of the premises before it; so does
/// a command, and so does each command of a source.
pub fn built_asks_nothing()
    ensures form { (premises : List Name) (e : Form)
        → first_not_built no_equality (parts premises e) ≡ None → AsksNothing e }
    ensures command { (c : Command)
        → first_not_built no_equality (command_parts c) ≡ None → CommandAsksNothing c }
    ensures source { (cs : List Command)
        → first_unbuilt no_equality cs ≡ None → All CommandAsksNothing cs }
{}
