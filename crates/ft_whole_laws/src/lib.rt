//! Laws of the calls of the program. Each function states one fact, over the definitions alone.
#![tactic(auto)]

ghost use Rattle.ft_whole_laws.specs.Laws.{AnswersFollow, CausesFollow, ExportsFollow, ChecksFollow};

use ft_sound::{accepted_derivable, verdict_is_exact};

/// Each call that goes in one of the ways answers as is claimed, where 4 is answered only after a write that failed.
pub fn answers_follow()
    ensures law { AnswersFollow }
{}

/// Each status of such a call has its cause.
pub fn causes_follow()
    ensures law { CausesFollow }
{}

/// What is exported by a call that goes in one of the ways is accepted.
pub fn exports_follow()
    ensures law { ExportsFollow }
{
    verdict_is_exact();
}

/// The status of a call for a verdict tells of the file what is claimed.
pub fn checks_follow()
    ensures law { ChecksFollow }
{
    accepted_derivable();
}
