//! Texts that are written, and the ends of a call.

ghost use Rattle.std.specs.Prelude.{◌≡◌};
ghost use Rattle.ft_streams.specs.Streams.{Rose, NoFaultUnless};
ghost use Rattle.ft_answers.specs.Statuses.{Ends, line_of, number_of};

use crate::statuses::line;
use ft_answers::Status;
use ft_base::Text;
use ft_outside::{Failed, Sink, write_all};

/// A text that is to be written, with the status for it.
#[derive(Debug, Drop)]
pub(crate) struct Written {
    pub text: Text,
    pub status: Status,
}

/// Writes the text, and answers the status; or that the write failed.
pub(crate) fn finish<O: Sink>(output: &mut O, text: &[u8], status: Status) -> Status
    requires { number_of status ≡ 4 → ⊥ }
    ensures ended { Ends text.now (number_of status) (number_of result) (O.written output.old)
        (O.written output.new) }
    ensures rose { number_of result ≡ 4 → Rose (O.faults output.old) (O.faults output.new) }
    ensures faults { NoFaultUnless (number_of result ≡ 4) (O.faults output.old)
        (O.faults output.new) (O.failed output.new) }
{
    match write_all(output, text) {
        Ok(()) => status,
        Err(Failed) => Status::WriteFault,
    }
}

/// Ends a call that has no text of its own, with the line of its status; without memory nothing is written.
pub(crate) fn stop<O: Sink>(output: &mut O, status: Status) -> Status
    requires { number_of status ≡ 4 → ⊥ }
    ensures ended { Ends (line_of status) (number_of status) (number_of result)
        (O.written output.old) (O.written output.new) }
    ensures rose { number_of result ≡ 4 → Rose (O.faults output.old) (O.faults output.new) }
    ensures faults { NoFaultUnless (number_of result ≡ 4) (O.faults output.old)
        (O.faults output.new) (O.failed output.new) }
    ensures memory { number_of status ≡ 17 → number_of result ≡ 17 }
    ensures same { number_of result ≡ 17 → O.written output.new ≡ O.written output.old }
{
    match status {
        Status::Memory => status,
        _ => finish(output, line(status), status),
    }
}
