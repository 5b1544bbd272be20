//! Laws of transcripts, derivations and verdicts.

ghost use Rattle.ft_top.specs.Laws.{Headline, OneVerdict};

use ft_applications::at_most_one_tree;
use ft_lines::laws::names_are_visible;
use ft_sound::{entries_derivable, verdict_is_exact};
use ft_texts::{at_most_one_fault, at_most_one_list, text_has_no_fault};

/// A source whose commands are built has the transcript of its events; and each text that is exported of it is that of a
/// derivation of these events, in which each entry is derivable, and `check` accepts it.
pub fn headline()
    ensures law { Headline }
{
    at_most_one_tree();
    verdict_is_exact();
    entries_derivable();
}

/// A file has at most one verdict.
pub fn one_verdict()
    ensures law { OneVerdict }
{
    names_are_visible();
    at_most_one_list();
    text_has_no_fault();
    at_most_one_fault();
}
