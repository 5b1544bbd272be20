//! The lines of verdicts and of the faults of files.

ghost use Rattle.std.specs.Prelude.{◌≡◌, ◌++◌, codes, decimal, OnOk, IfOk};
ghost use Rattle.ft_items.specs.Good.{Accepted, Rejected};
ghost use Rattle.ft_check.specs.Rejects.{reason_of};
ghost use Rattle.ft_check.specs.Verdicts.{verdict_of};
ghost use Rattle.ft_answers.specs.declared.words.Job.TheVariants as asked;
ghost use Rattle.ft_answers.specs.Statuses.{IsOfInput, number_of};
ghost use Rattle.ft_verdicts.specs.Verdicts.{reason_word, verdict_line, verdict_status};

use ft_answers::Status;
use ft_base::{Memory, Text};
use ft_check::{Reject, Verdict};
use std::alloc::Global;

// The word of a reason.
fn word(why: Reject) -> &'static str
    ensures { result.now ≡ reason_word (reason_of why) }
{
    match why {
        Reject::Reference => "reference",
        Reject::Kind => "kind",
        Reject::Premise => "premise",
        Reject::Conclusion => "conclusion",
        Reject::Set => "set",
        Reject::Name => "name",
        Reject::Number => "number",
        Reject::Many => "many",
        Reject::Loose => "loose",
    }
}

// Appends a number and a text.
fn push_counted(number: u64, what: &str, out: &mut Text) -> Result<(), Memory>
    ensures { OnOk result (out.new ≡ out.old ++ decimal number ++ what.now) }
{
    out.push_number(number)?;
    out.push_str(what)
}

/// The line of a fault at a line of a file.
pub(crate) fn fault_text(alloc: Global, line: u64, what: &str) -> Result<Text, Memory>
    ensures { IfOk result (λ t. t ≡ codes "error line " ++ decimal line ++ what.now) }
{
    let mut out = Text::new(alloc);
    out.push_str("error line ")?;
    push_counted(line, what, &mut out)?;
    Ok(out)
}

// The line of a list that is accepted.
fn accepted_text(
    alloc: Global,
    rules: u64,
    entries: u64,
    shown: u64,
    level: u64,
) -> Result<Text, Memory>
    ensures { IfOk result (λ t. t ≡ verdict_line
        (Accepted (record { rules = rules; entries = entries; shown = shown; level = level }))) }
{
    let mut out = Text::new(alloc);
    out.push_str("accepted ")?;
    push_counted(rules, " rules, ", &mut out)?;
    push_counted(entries, " entries, ", &mut out)?;
    push_counted(shown, " shown, level ", &mut out)?;
    push_counted(level, "\n", &mut out)?;
    Ok(out)
}

// The line of a list that is rejected.
fn rejected_text(alloc: Global, item: u64, why: Reject) -> Result<Text, Memory>
    ensures { IfOk result (λ t. t ≡ verdict_line (Rejected item (reason_of why))) }
{
    let mut out = Text::new(alloc);
    out.push_str("rejected ")?;
    push_counted(item, " ", &mut out)?;
    out.push_str(word(why))?;
    out.push_str("\n")?;
    Ok(out)
}

/// The line of a verdict.
pub(crate) fn verdict_text(alloc: Global, verdict: &Verdict) -> Result<Text, Memory>
    ensures { IfOk result (λ t. t ≡ verdict_line (verdict_of verdict.now)) }
{
    match verdict {
        Verdict::Accepted {
            rules,
            entries,
            shown,
            level,
        } => accepted_text(alloc, *rules, *entries, *shown, *level),
        Verdict::Rejected { item, why } => rejected_text(alloc, *item, *why),
    }
}

/// The status of a verdict.
pub(crate) fn status_for(verdict: &Verdict) -> Status
    ensures number { number_of result ≡ verdict_status (verdict_of verdict.now) }
    ensures input { IsOfInput asked.Check result }
{
    match verdict {
        Verdict::Accepted { .. } => Status::Done,
        Verdict::Rejected { .. } => Status::Rejected,
    }
}
