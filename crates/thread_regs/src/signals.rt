// Signals by number.
ghost use Rattle.std.specs.Prelude.{◌≡◌};
ghost use Rattle.std.specs.Option.{option_copied};
ghost use Rattle.thread_regs.specs.SignalNames as spec;

use crate::registers::name_at;

/// The names of signals 1 to 31, without SIG.
const SIGNAL_NAMES: [&str; 31] = [
    "HUP", "INT", "QUIT", "ILL", "TRAP", "ABRT", "BUS", "FPE", "KILL", "USR1", "SEGV", "USR2",
    "PIPE", "ALRM", "TERM", "STKFLT", "CHLD", "CONT", "STOP", "TSTP", "TTIN", "TTOU", "URG",
    "XCPU", "XFSZ", "VTALRM", "PROF", "WINCH", "IO", "PWR", "SYS",
];

/// The name of a signal above 0.
fn numbered_name(number: usize) -> Option<&'static str>
    ensures { option_copied result ≡ spec.numbered_name number }
{
    if number == 0 || number > SIGNAL_NAMES.len() {
        return None;
    }
    Some(name_at(&SIGNAL_NAMES, number - 1))
}

/// The name of a signal, without SIG; `None` if it is not from 1 to 31.
pub fn signal_name(signal: i32) -> Option<&'static str>
    ensures { option_copied result ≡ spec.name_of_signal signal }
{
    if signal < 1 {
        return None;
    }
    numbered_name(signal as usize)
}
