//! The numbers and lines of statuses, and the statuses for errors.

ghost use Rattle.std.specs.Prelude.{◌≡◌};
ghost use Rattle.ft_answers.specs.declared.status.Status.TheVariants as ended;
ghost use Rattle.ft_answers.specs.Statuses.{number_of, line_of};
ghost use Rattle.ft_top.specs.Causes.{status_of_reading, status_of_running};

use ft_answers::Status;
use ft_applications::Fault;
use ft_base::Memory;
use ft_outside::ReadErr;

/// The number that the program ends with.
pub(crate) fn number(status: Status) -> u8
    ensures { result ≡ number_of status }
{
    match status {
        Status::Done => 0,
        Status::Usage => 2,
        Status::ReadFault => 3,
        Status::WriteFault => 4,
        Status::TooLong => 5,
        Status::Syntax => 7,
        Status::Rule => 9,
        Status::Rejected => 15,
        Status::File => 16,
        Status::Memory => 17,
    }
}

/// The one line that is written, where the status has one.
pub(crate) fn line(status: Status) -> &'static [u8]
    ensures { result.now ≡ line_of status }
{
    match status {
        Status::Usage => b"error usage\n",
        Status::ReadFault => b"error read\n",
        Status::TooLong => b"error too long\n",
        Status::Syntax => b"error not yet\n",
        Status::Done
        | Status::WriteFault
        | Status::Rule
        | Status::Rejected
        | Status::File
        | Status::Memory => b"",
    }
}

/// The status where an input is not read.
pub(crate) fn of_reading(error: ReadErr) -> Status
    ensures { result ≡ status_of_reading error }
{
    match error {
        ReadErr::Fault => Status::ReadFault,
        ReadErr::TooLong => Status::TooLong,
        ReadErr::Memory => Status::Memory,
    }
}

/// The status where a source is not run.
pub(crate) fn of_running(fault: Fault) -> Status
    ensures { result ≡ status_of_running fault }
{
    match fault {
        Fault::NotYet => Status::Syntax,
        Fault::Memory => Status::Memory,
    }
}

/// The status where memory was refused.
pub(crate) fn of_memory(_: Memory) -> Status
    ensures { result ≡ ended.Memory }
{
    Status::Memory
}
