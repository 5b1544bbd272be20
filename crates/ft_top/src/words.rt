//! What the words of a call ask for.

ghost use Rattle.std.specs.Prelude.{◌≡◌, map, string_bytes, IfSome, IfNone};
ghost use Rattle.ft_answers.specs.declared.words.Job.{Job as Asked};
ghost use Rattle.ft_answers.specs.Words.{IsAsked, IsNoJob, limit, word_of};

use ft_answers::Job;
use ft_base::limits::{MAX_DERIVATION_BYTES, MAX_SOURCE_BYTES};

/// The most bytes that the job reads.
pub(crate) fn most_bytes(job: Job) -> usize
    ensures { result ≡ limit job }
{
    match job {
        Job::Run | Job::Export => MAX_SOURCE_BYTES as usize,
        Job::Check => MAX_DERIVATION_BYTES as usize,
    }
}

// The job of the word.
fn job_named(word: &str) -> Option<Job>
    ensures named { IfSome result (λ job. word.now ≡ word_of job) }
    ensures none { IfNone result ((job : Asked) → word.now ≡ word_of job → ⊥) }
{
    if word == "run" {
        return Some(Job::Run);
    }
    if word == "export" {
        return Some(Job::Export);
    }
    if word == "check" {
        return Some(Job::Check);
    }
    None
}

/// The job that the words ask for.
pub(crate) fn job_of(words: &[String]) -> Option<Job>
    ensures asked { IfSome result (λ job. IsAsked (map string_bytes words.now) job) }
    ensures none { IfNone result (IsNoJob (map string_bytes words.now)) }
{
    match words {
        [only] => job_named(only.as_str()),
        _ => None,
    }
}
