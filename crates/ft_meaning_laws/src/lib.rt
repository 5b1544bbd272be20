//! Laws of the meaning of sources. Each function states one fact, over the definitions alone.
#![tactic(auto)]

mod derivable;
mod safe;
mod texts;

pub use derivable::{accepted_is_finitary, derivation_exists, shown_derivable};
pub use safe::{
    lines_go_on, never_stuck, one_content, one_transcript, stages_agree, typed_commands_fit,
};
pub use texts::{texts_stay, variables_mentioned};
