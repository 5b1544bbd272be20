//! Laws of types, and of transcripts.

ghost use Rattle.ft_meaning_laws.specs.Fits.{TypedCommandsFit, FirstStateFits};
ghost use Rattle.ft_meaning_laws.specs.Runs.{OneContent, OneTranscript, NeverStuck, LinesGoOn, RunsEnd, StagesAgree};

/// A command that has a type is never stuck, and leaves a state that fits the scope after it; where it halts the run, the
/// state fits the scope before. The first state fits the first scope.
pub fn typed_commands_fit()
    ensures law { TypedCommandsFit }
    ensures first { FirstStateFits }
{}

/// No run is stuck.
pub fn never_stuck()
    ensures law { NeverStuck }
{}

/// What commands write and do is a beginning of what they do with further commands after them. Where they end with another
/// status than 0, further commands change nothing.
pub fn lines_go_on()
    ensures beginning { LinesGoOn }
    ensures end { RunsEnd }
{}

/// Where each part of the commands is built at a stage, their transcript is that of the whole language.
pub fn stages_agree()
    ensures law { StagesAgree }
{}

/// The bytes of a source are one of these, and no other: too many, no text, a text outside the grammar, the text of commands.
pub fn one_content()
    ensures law { OneContent }
{}

/// A source has exactly one transcript within a budget, at each stage.
pub fn one_transcript()
    ensures law { OneTranscript }
{}
