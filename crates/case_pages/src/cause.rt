// Why a process ended.
use crate::page::Page;
use crate::tags::Tag;
use crate::texts::{open, put_decimal, put_hexadecimal, put_signal, put_signed};
use case_screens::{SignalCode, code_of_signal, core_reason, missing, print_refusal};
use core_notes::SigInfo;
use image_replies::{CoreFault, CoreImage};
use script_streams::Reply;
use thread_regs::signal_name;

// SIGSEGV of signal(7).
const SIGSEGV: i32 = 11;

// Addresses below the first page: those of a null pointer, and of fields that are reached through one.
const NULL_PAGE: u64 = 4096;

// Puts the signal that ended a process; if the core does not have it, the one that the case has, and why.
pub(crate) fn put_cause(page: &mut Page, signal: u32, core: &Result<CoreImage<'_>, CoreFault>) {
    open(page, Tag::P, "why");
    let met = match core {
        Ok(core) => core.notes().siginfo(),
        Err(_) => None,
    };
    match &met {
        Some(met) => put_met(page, met),
        None => put_kept(page, signal, core),
    }
    page.close();
}

fn put_kept(page: &mut Page, signal: u32, core: &Result<CoreImage<'_>, CoreFault>) {
    page.open(Tag::B, &[]);
    put_signal(page, signal);
    page.close();
    page.text(b"; the details are ");
    let reason = match core {
        Ok(_) => missing(),
        Err(fault) => core_reason(*fault),
    };
    let mut reply = Reply::new(page);
    print_refusal(&mut reply, &reason);
    let _ = reply.finish();
}

fn put_met(page: &mut Page, met: &SigInfo<'_>) {
    page.open(Tag::B, &[]);
    put_signo(page, met.si_signo());
    page.close();
    match code_of_signal(met.si_signo(), met.si_code()) {
        Some(code) => put_code(page, code, met),
        None => put_sender(page, met),
    }
}

fn put_signo(page: &mut Page, signo: i32) {
    match signal_name(signo) {
        Some(name) => {
            page.text(b"SIG");
            page.text(name.as_bytes());
        }
        None => put_signed(page, i64::from(signo)),
    }
}

fn put_code(page: &mut Page, code: SignalCode, met: &SigInfo<'_>) {
    page.text(b": ");
    page.text(code.before);
    let Some(address) = met.si_addr() else {
        return;
    };
    put_address(page, address);
    page.text(code.after);
    if met.si_signo() == SIGSEGV && address < NULL_PAGE {
        page.text(b", as through a null pointer");
    }
}

fn put_address(page: &mut Page, address: u64) {
    page.open(Tag::Code, &[]);
    put_hexadecimal(page, address);
    page.close();
}

fn put_sender(page: &mut Page, met: &SigInfo<'_>) {
    if let (Some(process), Some(user)) = (met.si_pid(), met.si_uid()) {
        page.text(b", sent by process ");
        put_signed(page, i64::from(process));
        page.text(b" of user ");
        put_decimal(page, u64::from(user));
    }
    if let Some(address) = met.si_addr() {
        page.text(b", address ");
        put_address(page, address);
    }
}
