//! Names of functions: the texts that compilers add to them, those by which a process ends itself, and those that stand at
//! the outer end of a stack. Each table here is the one of `specs/Tables.antt`.
ghost use Rattle.std.specs.Prelude.{◌≡◌, ◌||◌};
ghost use Rattle.std.specs.List.{list_any};
ghost use Rattle.std.specs.Str.{bytes_eq};
ghost use Rattle.crash_signatures.specs.Tables as spec;

// Compilers' endings of a function's name.
static ENDINGS: [&[u8]; 8] = [
    b"part",
    b"isra",
    b"constprop",
    b"cold",
    b"lto_priv",
    b"llvm",
    b"localalias",
    b"clone",
];

// The GNU C library: signals sent to oneself, failed assertions and checks.
static C_DEATHS: [&[u8]; 32] = [
    b"raise",
    b"gsignal",
    b"__GI_raise",
    b"__raise",
    b"__libc_raise",
    b"pthread_kill",
    b"__pthread_kill",
    b"__GI___pthread_kill",
    b"__pthread_kill_internal",
    b"__pthread_kill_implementation",
    b"tgkill",
    b"tkill",
    b"kill",
    b"__kill",
    b"__GI_kill",
    b"abort",
    b"__GI_abort",
    b"__libc_message",
    b"__libc_message_impl",
    b"__libc_fatal",
    b"__assert",
    b"__assert_fail",
    b"__GI___assert_fail",
    b"__assert_fail_base",
    b"__assert_perror_fail",
    b"__libc_assert_fail",
    b"__fortify_fail",
    b"__fortify_fail_abort",
    b"__chk_fail",
    b"__stack_chk_fail",
    b"__stack_chk_fail_local",
    b"malloc_printerr",
];

// The C++ library and the unwinder of exceptions.
static CXX_DEATHS: [&[u8]; 18] = [
    b"_ZSt9terminatev",
    b"_ZN10__cxxabiv111__terminateEPFvvE",
    b"_ZN9__gnu_cxx27__verbose_terminate_handlerEv",
    b"__cxa_throw",
    b"__cxa_rethrow",
    b"__cxa_call_terminate",
    b"__cxa_call_unexpected",
    b"__cxa_pure_virtual",
    b"__cxa_throw_bad_array_new_length",
    b"__clang_call_terminate",
    b"_ZSt20__throw_length_errorPKc",
    b"_ZSt20__throw_out_of_rangePKc",
    b"_ZSt24__throw_out_of_range_fmtPKcz",
    b"_ZSt17__throw_bad_allocv",
    b"_ZSt19__throw_logic_errorPKc",
    b"_Unwind_RaiseException",
    b"_Unwind_Resume",
    b"_Unwind_Resume_or_Rethrow",
];

// Rust's panics.
static RUST_DEATHS: [&[u8]; 4] = [
    b"rust_begin_unwind",
    b"rust_panic",
    b"__rust_start_panic",
    b"panic_abort",
];

// GLib's fatal messages and assertions.
static GLIB_DEATHS: [&[u8]; 9] = [
    b"g_log",
    b"g_logv",
    b"g_log_default_handler",
    b"g_log_writer_default",
    b"g_log_structured",
    b"g_log_structured_array",
    b"g_assertion_message",
    b"g_assertion_message_expr",
    b"_g_log_abort",
];

// The callers of `main`, and those of a thread's first function.
static OUTER: [&[u8]; 15] = [
    b"_start",
    b"start",
    b"_start_c",
    b"__libc_start_main",
    b"__libc_start_main_impl",
    b"__libc_start_call_main",
    b"generic_start_main",
    b"start_thread",
    b"__start_thread",
    b"thread_start",
    b"__thread_start",
    b"clone",
    b"__clone",
    b"clone3",
    b"__clone3",
];

// Whether a text is one of these.
fn is_among(names: &[&[u8]], text: &[u8]) -> bool
    ensures { result ≡ list_any (λ n. bytes_eq n.now text.now) names.now }
{
    names.iter().any(|name| *name == text)
}

// Whether this is a part that a compiler adds to a function's name.
pub(crate) fn is_ending(part: &[u8]) -> bool
    ensures { result ≡ spec.is_among spec.endings part.now }
{
    is_among(&ENDINGS, part)
}

// Whether a process ends itself by this function.
#[tactic(auto, unfolding(crate::specs::Tables::is_death))]
pub(crate) fn is_death(name: &[u8]) -> bool
    ensures { result ≡ spec.is_death name.now }
{
    is_among(&C_DEATHS, name)
        || is_among(&CXX_DEATHS, name)
        || is_among(&RUST_DEATHS, name)
        || is_among(&GLIB_DEATHS, name)
}

// Whether this function calls `main`, or a thread's first function.
#[tactic(auto, unfolding(crate::specs::Tables::is_outer))]
pub(crate) fn is_outer(name: &[u8]) -> bool
    ensures { result ≡ spec.is_outer name.now }
{
    is_among(&OUTER, name)
}
