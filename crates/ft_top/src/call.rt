//! The call.

ghost use Rattle.std.specs.Prelude.{◌≡◌, ◌≤◌, ◌+◌, ◌⊎◌, [], List, ℕ, Some, length, map, string_bytes};
ghost use Rattle.ft_base.specs.Names.{is_name_token};
ghost use Rattle.ft_items.specs.Item.{Item};
ghost use Rattle.ft_items.specs.Store.{Derivable};
ghost use Rattle.ft_items.specs.Good.{Reject, Counts, Accepted, Rejected, verdict};
ghost use Rattle.ft_items.specs.Texts.{IsTextOf};
ghost use Rattle.ft_items.specs.Faults.{Fault, HasFault};
ghost use Rattle.ft_sound.specs.Soundness.{EachEntry};
ghost use Rattle.ft_streams.specs.Streams.{Rose, Appends, IsAtEnd, NoFaultUnless};
ghost use Rattle.ft_applications_meaning.specs.Events.{Event, events};
ghost use Rattle.ft_applications_meaning.specs.Transcript.{IsPlainSource, AllDerivable, shown_in};
ghost use Rattle.ft_applications_meaning.specs.declared.syntax.Command.{Command as Tree};
ghost use Rattle.ft_answers.specs.declared.words.Job.{Job as Asked};
ghost use Rattle.ft_answers.specs.declared.words.Job.TheVariants as asked;
ghost use Rattle.ft_answers.specs.Words.{IsAsked, IsNoJob, ReadsSource, limit};
ghost use Rattle.ft_verdicts.specs.Verdicts.{IsVerdict, verdict_line};
ghost use Rattle.ft_answers.specs.Exports.{IsExport, BreaksOff};
ghost use Rattle.ft_answers.specs.Statuses.{number_of, IsFaulty, IsStatus, IsReadWhole, IsOverLimit, Ends, HasNoFault, usage_line, read_line};
ghost use Rattle.ft_answers.specs.Answer.{IsText, IsAnswer, IsBroken};
ghost use Rattle.ft_top.specs.Calls.{IsCall};

use crate::checking::check;
use crate::exporting::export;
use crate::running::run;
use crate::statuses::number;
use crate::words::job_of;
use crate::writing::stop;
use ft_answers::{Job, Status};
use ft_outside::{Sink, Source};
use ft_sound::accepted_derivable;
use std::alloc::Global;

// Does the job.
fn done<I: Source, O: Sink>(alloc: Global, job: Job, input: &mut I, output: &mut O) -> Status
    ensures called { IsCall job (I.left input.old) (I.left input.new) (I.taken input.old)
        (I.taken input.new) (I.faults input.old) (I.faults input.new) (O.written output.old)
        (O.written output.new) (number_of result) }
    ensures rose { number_of result ≡ 4 → Rose (O.faults output.old) (O.faults output.new) }
    ensures input { NoFaultUnless (IsFaulty (number_of result)) (I.faults input.old)
        (I.faults input.new) (I.failed input.new) }
    ensures output { NoFaultUnless (number_of result ≡ 4) (O.faults output.old)
        (O.faults output.new) (O.failed output.new) }
    ensures most { I.taken input.new ≤ I.taken input.old + limit job + 1 }
{
    match job {
        Job::Run => run(alloc, input, output),
        Job::Export => export(alloc, input, output),
        Job::Check => check(alloc, input, output),
    }
}

// Does the job, and answers the number of its status.
fn answer<I: Source, O: Sink>(alloc: Global, job: Job, input: &mut I, output: &mut O) -> u8
    ensures called { IsCall job (I.left input.old) (I.left input.new) (I.taken input.old)
        (I.taken input.new) (I.faults input.old) (I.faults input.new) (O.written output.old)
        (O.written output.new) result }
    ensures rose { result ≡ 4 → Rose (O.faults output.old) (O.faults output.new) }
    ensures input { NoFaultUnless (IsFaulty result) (I.faults input.old) (I.faults input.new)
        (I.failed input.new) }
    ensures output { NoFaultUnless (result ≡ 4) (O.faults output.old) (O.faults output.new)
        (O.failed output.new) }
    ensures most { I.taken input.new ≤ I.taken input.old + limit job + 1 }
{
    number(done(alloc, job, input, output))
}

// Ends a call for other words.
fn refuse<O: Sink>(output: &mut O) -> u8
    ensures ended { Ends usage_line 2 result (O.written output.old) (O.written output.new) }
    ensures rose { result ≡ 4 → Rose (O.faults output.old) (O.faults output.new) }
    ensures faults { NoFaultUnless (result ≡ 4) (O.faults output.old) (O.faults output.new)
        (O.failed output.new) }
{
    number(stop(output, Status::Usage))
}

/// Does what the words ask for. `run` reads a source from the input and writes its transcript to the output; `export` reads a
/// source and writes the derivation of what its run did; `check` reads a derivation file and writes the verdict on it. Other
/// words read nothing. The answer is the number of a status.
pub fn top<I: Source, O: Sink>(alloc: Global, words: &[String], input: &mut I, output: &mut O) -> u8
    ensures status { IsStatus result }

    ensures usage { result ≡ 2 → IsNoJob (map string_bytes words.now) }
    ensures refused { IsNoJob (map string_bytes words.now)
        → Ends usage_line 2 result (O.written output.old) (O.written output.new) }
    ensures unread { IsNoJob (map string_bytes words.now) → input.new ≡ input.old }

    ensures read { result ≡ 3 → Rose (I.faults input.old) (I.faults input.new) }
    ensures read_line { result ≡ 3 → (IsAsked (map string_bytes words.now) asked.Export → ⊥)
        → Appends (O.written output.old) read_line (O.written output.new) }
    ensures write { result ≡ 4 → Rose (O.faults output.old) (O.faults output.new) }
    // After a call of a stream that failed no other is tried, and only 3 and 4 can be answered.
    ensures input { NoFaultUnless (IsFaulty result) (I.faults input.old) (I.faults input.new)
        (I.failed input.new) }
    ensures output { NoFaultUnless (result ≡ 4) (O.faults output.old) (O.faults output.new)
        (O.failed output.new) }
    ensures long { result ≡ 5 → (job : Asked) × (IsAsked (map string_bytes words.now) job
        × IsOverLimit job (I.taken input.old) (I.taken input.new)) }
    ensures most { (job : Asked) → IsAsked (map string_bytes words.now) job
        → I.taken input.new ≤ I.taken input.old + limit job + 1 }
    // Without memory nothing is written; but `export` may have written a beginning.
    ensures memory { result ≡ 17 → (IsAsked (map string_bytes words.now) asked.Export → ⊥)
        → O.written output.new ≡ O.written output.old }
    ensures broken { result ≡ 17 → IsAsked (map string_bytes words.now) asked.Export
        → (bytes : List ℕ) → I.left input.old ≡ Some bytes
        → (O.written output.new ≡ O.written output.old)
        ⊎ BreaksOff bytes (O.written output.old) (O.written output.new) }

    ensures end { IsReadWhole result → IsAtEnd (I.left input.new) }

    // Where the source tells its bytes: what is written and answered in each case, and where no fault comes.
    ensures told { (bytes : List ℕ) → I.left input.old ≡ Some bytes → (result ≡ 17)
        ⊎ (((text : List ℕ)
        × ((status : ℕ) × (IsAnswer (map string_bytes words.now) bytes (I.faults input.old)
        (I.faults input.new) text status × (result ≡ status)
        × Appends (O.written output.old) text (O.written output.new))))
        ⊎ ((result ≡ 4) × IsBroken (map string_bytes words.now) bytes (I.faults input.old)
        (I.faults input.new) (O.written output.old) (O.written output.new))) }
    ensures answer { (job : Asked) (bytes : List ℕ) → I.left input.old ≡ Some bytes
        → IsAsked (map string_bytes words.now) job → length bytes ≤ limit job
        → HasNoFault (I.faults input.old) (I.faults input.new)
        → HasNoFault (O.faults output.old) (O.faults output.new) → (result ≡ 17)
        ⊎ ((text : List ℕ) × ((status : ℕ) × (IsText job bytes text status × (result ≡ status)
        × Appends (O.written output.old) text (O.written output.new)))) }

    // What a source shows, where all was written, and where a write failed after a beginning of it.
    ensures derivable { (result ≡ 0) ⊎ (result ≡ 9) → (job : Asked) → ReadsSource job
        → IsAsked (map string_bytes words.now) job → (bytes : List ℕ)
        → I.left input.old ≡ Some bytes → (cs : List Tree) (es : List Event)
        → IsPlainSource bytes cs → events [] cs ≡ Some es → AllDerivable (shown_in es) }
    ensures begun { result ≡ 4 → (job : Asked) → ReadsSource job
        → IsAsked (map string_bytes words.now) job → (bytes : List ℕ)
        → I.left input.old ≡ Some bytes → length bytes ≤ limit job
        → HasNoFault (I.faults input.old) (I.faults input.new) → (cs : List Tree) (es : List Event)
        → IsPlainSource bytes cs → events [] cs ≡ Some es → AllDerivable (shown_in es) }

    // What was exported is a derivation that `check` accepts.
    ensures exported { (result ≡ 0) ⊎ (result ≡ 9)
        → IsAsked (map string_bytes words.now) asked.Export → (bytes : List ℕ)
        → I.left input.old ≡ Some bytes → (text : List ℕ)
        × (IsExport bytes text result × Appends (O.written output.old) text (O.written output.new)
        × ((c : Counts) × IsVerdict is_name_token text (verdict_line (Accepted c)) 0)) }

    // What a verdict tells of the file.
    ensures accepted { result ≡ 0 → IsAsked (map string_bytes words.now) asked.Check
        → (bytes : List ℕ) → I.left input.old ≡ Some bytes → (items : List Item)
        × ((c : Counts) × (IsTextOf is_name_token bytes items × (verdict items ≡ Accepted c)
        × EachEntry (λ W e. Derivable W e.statement e.set) items)) }
    ensures rejected { result ≡ 15 → (bytes : List ℕ) → I.left input.old ≡ Some bytes
        → (items : List Item) × ((k : ℕ) × ((why : Reject)
        × (IsTextOf is_name_token bytes items × (verdict items ≡ Rejected k why)))) }
    ensures filed { result ≡ 16 → (bytes : List ℕ) → I.left input.old ≡ Some bytes → (fault : Fault)
        × HasFault is_name_token bytes fault }
{
    accepted_derivable();
    match job_of(words) {
        Some(job) => answer(alloc, job, input, output),
        None => refuse(output),
    }
}
