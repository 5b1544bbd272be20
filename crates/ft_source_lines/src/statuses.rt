//! The status of a source that has no commands.

ghost use Rattle.std.specs.Prelude.{◌≡◌, ℕ, List, IfSome};
ghost use Rattle.ft_meaning.specs.Stages.{Stage};
ghost use Rattle.ft_meaning.specs.Transcript.{transcript_of};
ghost use Rattle.ft_source.specs.Contents.{content_of};
ghost use Rattle.ft_source.specs.declared.fault.SourceFault.TheVariants as cause;
ghost use Rattle.ft_whole_answers.specs.Statuses.{number_of};
ghost use Rattle.ft_whole_answers.specs.declared.status.Status.TheVariants as ended;

use ft_source::SourceFault;
use ft_whole_answers::Status;

/// The status that the transcript has for the fault.
pub fn fault_status(fault: SourceFault) -> Status
    ensures told { IfSome (content_of fault) (λ c. (B : Stage) (source : List ℕ) (budget : ℕ)
        → number_of result ≡ (transcript_of B source budget c).status) }
    ensures memory { fault ≡ cause.Memory → result ≡ ended.Memory }
{
    match fault {
        SourceFault::TooLong => Status::TooLong,
        SourceFault::NoText(_) => Status::NotUtf8,
        SourceFault::Unexpected(_) | SourceFault::TooNested(_) => Status::Syntax,
        SourceFault::Memory => Status::Memory,
    }
}
