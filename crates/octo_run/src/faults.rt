ghost use Rattle.std.specs.Prelude.{◌≡◌};
ghost use Rattle.octo_run.specs.Faults.{fault_of, status_of_bad};

use capture_load::{LoadStop, Refusal};
use flow_base::Status;
use pcap_read::Bad;
use pcapng_read::NgBad;
use rounds_audit::Word;

/// Why a run ends without its report.
#[derive(Drop)]
pub enum Fault {
    Usage,
    ReadFault,
    WriteFault,
    Bad(Refusal),
    /// The line with this number, from 1, isn't one of a journal.
    BadLine { line: u32 },
    NoMemory,
    /// The journal isn't lawful, first in this line, which keeps the one word where the other would
    /// be lawful.
    Differs { line: u32, kept: Word, lawful: Word },
}

impl Fault {
    ghost use Rattle.octo_run.specs.Faults.{status_of};

    /// The status with which the run ends.
    pub fn status(&self) -> Status
        ensures { result ≡ status_of self.now }
    {
        match self {
            Fault::Usage => Status::Usage,
            Fault::ReadFault => Status::ReadFault,
            Fault::WriteFault => Status::WriteFault,
            Fault::Bad(refusal) => refused(*refusal),
            Fault::BadLine { line: _ } => Status::BadCapture,
            Fault::NoMemory => Status::NoMemory,
            Fault::Differs {
                line: _,
                kept: _,
                lawful: _,
            } => Status::Differs,
        }
    }
}

// The status of a refused capture.
fn refused(refusal: Refusal) -> Status
    ensures { result ≡ status_of_bad refusal }
{
    match refusal {
        Refusal::Pcap(Bad::TooMany) => Status::TooMany,
        Refusal::Ng(NgBad::TooMany) => Status::TooMany,
        _ => Status::BadCapture,
    }
}

/// The fault with which a run ends where its capture wasn't loaded.
pub(crate) fn fault_of(stop: LoadStop) -> Fault
    ensures { result ≡ fault_of stop }
{
    match stop {
        LoadStop::ReadFault => Fault::ReadFault,
        LoadStop::Bad(bad) => Fault::Bad(Refusal::Pcap(bad)),
        LoadStop::Ng(bad) => Fault::Bad(Refusal::Ng(bad)),
        LoadStop::NoMemory => Fault::NoMemory,
    }
}
