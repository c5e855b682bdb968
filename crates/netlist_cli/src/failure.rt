ghost use Rattle.std.specs.Prelude.{◌≡◌, ◌≢◌};
ghost use Rattle.netlist_cli.specs.Statuses.{after_writing, failure_of, status_of};
ghost use Rattle.nl_base.specs.declared.fault.ReadError.TheVariants as errors;

use crate::status::Status;
use crate::tools::ToolRefusal;
use nl_base::{ReadError, Refusal, TextFault};
use nl_io::Failed;

/// Why a run does not end with its work done.
#[derive(Drop)]
pub enum Failure {
    /// The input has this first fault.
    Text(TextFault),
    /// The file breaks a rule.
    Refused(Refusal),
    /// The design breaks a rule of the tool that is asked for.
    RefusedByTool(ToolRefusal),
    /// The input failed.
    ReadFault,
    /// The output failed.
    WriteFault,
    /// The words are no command.
    Usage,
    /// Memory ran out.
    NoMemory,
    /// The input is longer than is read.
    InputLimit,
    /// The design has this many units, which are more than a design may have.
    DesignLimit(u64),
    /// The design has this flat count, which is more than the tools on the flat design take.
    FlatLimit(u64),
}

impl Failure {
    /// The failure that an error of a reader of whole texts is.
    pub fn of_read_error(error: ReadError) -> Failure
        requires { error ≢ errors.Spent }
        ensures { result ≡ failure_of error }
    {
        match error {
            ReadError::Text(fault) => Failure::Text(fault),
            ReadError::ReadFault => Failure::ReadFault,
            ReadError::TooLong => Failure::InputLimit,
            ReadError::NoMemory => Failure::NoMemory,
            ReadError::Spent => unreachable!(),
        }
    }

    /// The status with which a run that fails so ends.
    pub fn status(&self) -> Status
        ensures { result ≡ status_of self.now }
    {
        match self {
            Failure::Text(_) => Status::TextFault,
            Failure::Refused(_) => Status::Refused,
            Failure::RefusedByTool(_) => Status::Refused,
            Failure::ReadFault => Status::ReadFault,
            Failure::WriteFault => Status::WriteFault,
            Failure::Usage => Status::Usage,
            Failure::NoMemory => Status::NoMemory,
            Failure::InputLimit => Status::Limit,
            Failure::DesignLimit(_) => Status::Limit,
            Failure::FlatLimit(_) => Status::Limit,
        }
    }
}

/// What is answered once a text was written, or a put failed.
pub fn after_writing(written: Result<(), Failed>) -> Result<(), Failure>
    ensures { result ≡ after_writing written }
{
    match written {
        Ok(()) => Ok(()),
        Err(Failed) => Err(Failure::WriteFault),
    }
}
