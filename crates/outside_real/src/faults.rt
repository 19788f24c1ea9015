ghost use Rattle.std.specs.Prelude.{◌≡◌, ◌≤◌};
ghost use Rattle.outside.specs.Cause.{Rose};

use outside::OutsideEnd;
use std::io;

/// Counts an error of the system. Want of memory isn't a failure.
pub fn counted(faults: &mut u64, error: io::Error) -> OutsideEnd
    ensures never_falls { faults.old ≤ faults.new }
    ensures failed { result ≡ OutsideEnd.Failed → Rose faults.old faults.new }
{
    if error.kind() == io::ErrorKind::OutOfMemory {
        return OutsideEnd::NoMemory;
    }
    *faults = faults.saturating_add(1);
    OutsideEnd::Failed
}
