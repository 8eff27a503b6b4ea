//! How the program ends after a fault.
ghost use Rattle.std.specs.Prelude.{◌≡◌};
ghost use Rattle.scm_monitor.specs.Faults.{status_of_fault, text_of_fault};

use scm_sessions::RunFault;

/// The exit status after a fault: 1 where reading or writing failed, 3 where there was no memory to begin with.
pub fn fault_status(fault: &RunFault) -> u8
    ensures { result ≡ status_of_fault fault.now }
{
    match fault {
        RunFault::ReadFailed | RunFault::WriteFailed => 1,
        RunFault::NoMemory => 3,
    }
}

/// What the program writes to standard error after a fault.
pub fn fault_text(fault: &RunFault) -> &'static str
    ensures { result.now ≡ text_of_fault fault.now }
{
    match fault {
        RunFault::ReadFailed => "scm_monitor: read failed",
        RunFault::WriteFailed => "scm_monitor: write failed",
        RunFault::NoMemory => "scm_monitor: no memory",
    }
}
