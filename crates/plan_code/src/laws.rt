//! Laws of the machine, for any implementation that executes instructions.

ghost use Rattle.plan_code.specs.Flags.{CountersChangeAlone, ContactsChangeAlone};
ghost use Rattle.plan_code.specs.Opcodes.{OpcodesAgree};
ghost use Rattle.plan_code.specs.Faults.{HasOneFault, HasFaultWithoutCode, BytesLackNoMemory};
ghost use Rattle.plan_code.specs.FileFaults.{CutsAreTruncated, FileFaultsStay, FileFaultsAreFirst};
ghost use Rattle.plan_code.specs.FileFaults.{TruncatedBeforePlaces};
ghost use Rattle.plan_code.specs.Machine.{SwapsInTime, SwapsAtCount, WindowsAreHalfOpen};
ghost use Rattle.plan_code.specs.Machine.{AlwaysSettles, LoopsRun};

/// The law of commits: the number of frames from a commit to its swap is the least number, from the
/// delay or the notice on, after which the CIF count is a multiple of the mode's step or the
/// requested count. The function does nothing; its contract is the law.
pub fn commits()
    ensures in_time { SwapsInTime }
    ensures at_count { SwapsAtCount }
{}

/// The law of windows of the day: a window contains the frames of the day from its first one on and
/// before its last one; where the last one is before the first, those from the first one on and
/// those before the last one. The function does nothing; its contract is the law.
pub fn windows()
    ensures half_open { WindowsAreHalfOpen }
{}

/// The law of `settle`: where no swap is pending the next instruction runs at once and nothing else
/// changes; where one is, it is joined. The function does nothing; its contract is the law.
pub fn settling()
    ensures settles { AlwaysSettles }
{}

/// The law of loops: where a counter was set to n, its loop jumps n - 1 times; the next time it
/// leaves the counter unset. The function does nothing; its contract is the law.
pub fn loops()
    ensures as_set { LoopsRun }
{}

/// The law of opcodes: opcodes and their bytes determine each other. The function does nothing; its
/// contract is the law.
pub fn opcodes()
    ensures agree { OpcodesAgree }
{}

/// The law of faults: bytes have at most one fault, and have one exactly where they are not a code
/// file; out of memory is never a fault of the bytes. The function does nothing; its contract is
/// the law.
pub fn faults()
    ensures one { HasOneFault }
    ensures without_code { HasFaultWithoutCode }
    ensures named { BytesLackNoMemory }
{}

/// The law of code files: a file that is cut off is truncated; any other fault lies in the bytes
/// that were read, so that it persists whatever follows them and nothing that begins with them is a
/// code file; and except for `Trailing` it is the first one. The offset of a field at fault is
/// within the file, and the bytes before it are truncated. The function does nothing; its contract
/// is the law.
pub fn file_faults()
    ensures cuts { CutsAreTruncated }
    ensures stays { FileFaultsStay }
    ensures first { FileFaultsAreFirst }
    ensures places { TruncatedBeforePlaces }
{}

/// The law of sets: setting, clearing, closing or opening a member has that effect, and leaves the
/// others unchanged. The function does nothing; its contract is the law.
pub fn sets()
    ensures counters { CountersChangeAlone }
    ensures contacts { ContactsChangeAlone }
{}
