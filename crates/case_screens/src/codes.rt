// The codes of signals.
ghost use Rattle.std.specs.Prelude.{◌≡◌, option_map};
ghost use Rattle.case_screens.specs.CodeWords.{code_words};
ghost use Rattle.case_screens.specs.Codes.{bus_code, code_view, code_of_signal, fpe_code, ill_code, segv_code, sent_code, trap_code};

// The signals that have codes of their own (signal(7)).
const SIGILL: i32 = 4;

const SIGTRAP: i32 = 5;

const SIGBUS: i32 = 7;

const SIGFPE: i32 = 8;

const SIGSEGV: i32 = 11;

/// A code of a signal: its name, and its meaning, before the address and after it.
#[derive(Clone, Copy)]
pub struct SignalCode {
    pub name: &'static [u8],
    pub before: &'static [u8],
    pub after: &'static [u8],
}

fn named_code(
    name: &'static [u8],
    before: &'static [u8],
    after: &'static [u8],
) -> Option<SignalCode>
    ensures { option_map code_words result ≡ code_view name.entry.now before.entry.now after.entry.now }
{
    Some(SignalCode {
        name,
        before,
        after,
    })
}

fn segv_code(code: i32) -> Option<SignalCode>
    ensures { option_map code_words result ≡ segv_code code }
{
    if code == 1 {
        named_code(b"SEGV_MAPERR", b"address ", b" is not mapped")
    } else if code == 2 {
        named_code(b"SEGV_ACCERR", b"no permission for address ", b"")
    } else {
        None
    }
}

fn bus_code(code: i32) -> Option<SignalCode>
    ensures { option_map code_words result ≡ bus_code code }
{
    if code == 1 {
        named_code(b"BUS_ADRALN", b"address ", b" is misaligned")
    } else if code == 2 {
        named_code(b"BUS_ADRERR", b"nothing is at address ", b"")
    } else if code == 3 {
        named_code(b"BUS_OBJERR", b"a hardware error at address ", b"")
    } else {
        None
    }
}

fn ill_code(code: i32) -> Option<SignalCode>
    ensures { option_map code_words result ≡ ill_code code }
{
    if code == 1 {
        named_code(b"ILL_ILLOPC", b"an illegal opcode at ", b"")
    } else if code == 2 {
        named_code(b"ILL_ILLOPN", b"an illegal operand at ", b"")
    } else if code == 4 {
        named_code(b"ILL_ILLTRP", b"an illegal trap at ", b"")
    } else if code == 5 {
        named_code(b"ILL_PRVOPC", b"a privileged opcode at ", b"")
    } else {
        None
    }
}

fn fpe_code(code: i32) -> Option<SignalCode>
    ensures { option_map code_words result ≡ fpe_code code }
{
    if code == 1 {
        named_code(b"FPE_INTDIV", b"an integer divided by zero at ", b"")
    } else if code == 2 {
        named_code(b"FPE_INTOVF", b"an integer overflow at ", b"")
    } else if code == 3 {
        named_code(b"FPE_FLTDIV", b"a number divided by zero at ", b"")
    } else if code == 7 {
        named_code(b"FPE_FLTINV", b"an invalid operation at ", b"")
    } else {
        None
    }
}

fn trap_code(code: i32) -> Option<SignalCode>
    ensures { option_map code_words result ≡ trap_code code }
{
    if code == 1 {
        named_code(b"TRAP_BRKPT", b"a breakpoint at ", b"")
    } else if code == 2 {
        named_code(b"TRAP_TRACE", b"a trace step at ", b"")
    } else {
        None
    }
}

/// The code of a signal, if it is one of those that the signal alone has.
pub fn code_of_signal(signo: i32, code: i32) -> Option<SignalCode>
    ensures { option_map code_words result ≡ code_of_signal signo code }
{
    if signo == SIGSEGV {
        segv_code(code)
    } else if signo == SIGBUS {
        bus_code(code)
    } else if signo == SIGILL {
        ill_code(code)
    } else if signo == SIGFPE {
        fpe_code(code)
    } else if signo == SIGTRAP {
        trap_code(code)
    } else {
        None
    }
}

// The name of a code that any signal may have.
pub(crate) fn sent_code(code: i32) -> Option<&'static [u8]>
    ensures { option_map (λ n. n.now) result ≡ sent_code code }
{
    if code == 0 {
        Some(b"SI_USER")
    } else if code == -1 {
        Some(b"SI_QUEUE")
    } else if code == -6 {
        Some(b"SI_TKILL")
    } else if code == 128 {
        Some(b"SI_KERNEL")
    } else {
        None
    }
}
