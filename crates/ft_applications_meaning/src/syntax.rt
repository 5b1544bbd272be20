//! The trees of a source.

use ft_base::Name;
use sqlite_items::Items;

/// A rule's name with its arguments.
#[derive(Debug, Drop)]
pub enum Application {
    Apply(Name, Items<Application>),
}

/// A premise: a type, or a term of a type.
#[derive(Debug, Drop)]
pub enum Premise {
    Type(Name),
    Term(Name, Application),
}

/// What a rule concludes: a type, or a term of a type.
#[derive(Debug, Drop)]
pub enum Conclusion {
    Type,
    Term(Application),
}

/// A rule is declared, or a judgement shown.
#[derive(Debug, Drop)]
pub enum Command {
    Rule(Name, Items<Premise>, Conclusion),
    Show(Application),
}
