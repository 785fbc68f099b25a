// The facts of an image as JSON.
use crate::codes::{code_of_signal, sent_code};
use crate::reason::{Reason, elf_reason};
use crate::rows::{put_text, refusal_value, string_value};
use crate::told_notes::{pc_of, process_of, signal_of};
use core_notes::{PsInfo, SigInfo};
use elf_view::{ElfFault, Header};
use image_replies::{CoreFault, CoreImage};
use script_words::{print_decimal, print_hexadecimal};
use serde_json::{Map, Value, put};
use std::alloc::{AllocError, Global};
use thread_regs::{Thread, signal_name};

// The process of a core, or why it is not shown.
pub(crate) fn process_value(
    alloc: Global,
    core: &Result<CoreImage<'_>, CoreFault>,
) -> Result<Value, AllocError> {
    let process = match process_of(core) {
        Ok(process) => process,
        Err(reason) => return reason_value(alloc, &reason),
    };
    let mut map = Map::new(alloc);
    put_process(alloc, &mut map, &process)?;
    Ok(Value::Object(map))
}

// Puts the numbers and the names of a process into an object.
fn put_process(
    alloc: Global,
    map: &mut Map<String, Value>,
    process: &PsInfo<'_>,
) -> Result<(), AllocError> {
    put(map, alloc, "pid", Value::from(process.pr_pid()))?;
    put(map, alloc, "ppid", Value::from(process.pr_ppid()))?;
    put(map, alloc, "pgrp", Value::from(process.pr_pgrp()))?;
    put(map, alloc, "sid", Value::from(process.pr_sid()))?;
    put(map, alloc, "uid", Value::from(process.pr_uid()))?;
    put(map, alloc, "gid", Value::from(process.pr_gid()))?;
    put(map, alloc, "state", Value::from(process.pr_state()))?;
    put_text(alloc, map, "sname", &[process.pr_sname()])?;
    put(map, alloc, "zomb", Value::from(process.pr_zomb()))?;
    put(map, alloc, "nice", Value::from(process.pr_nice()))?;
    put(map, alloc, "flag", hex_value(alloc, process.pr_flag())?)?;
    put_text(alloc, map, "name", process.pr_fname())?;
    put_text(alloc, map, "args", process.pr_psargs())
}

// The signal, with the name of its code, or why it is not shown.
pub(crate) fn cause_value(
    alloc: Global,
    core: &Result<CoreImage<'_>, CoreFault>,
) -> Result<Value, AllocError> {
    let met = match signal_of(core) {
        Ok(met) => met,
        Err(reason) => return reason_value(alloc, &reason),
    };
    let mut map = Map::new(alloc);
    put_cause(alloc, &mut map, &met)?;
    Ok(Value::Object(map))
}

// Puts the signal and its code into an object, and the address or the sender, if they are there.
fn put_cause(
    alloc: Global,
    map: &mut Map<String, Value>,
    met: &SigInfo<'_>,
) -> Result<(), AllocError> {
    put(map, alloc, "signo", Value::from(met.si_signo()))?;
    let name = signal_name(met.si_signo());
    put(map, alloc, "name", name_value(alloc, name)?)?;
    put(map, alloc, "errno", Value::from(met.si_errno()))?;
    put(map, alloc, "code", Value::from(met.si_code()))?;
    put(map, alloc, "code_name", code_value(alloc, met)?)?;
    if let Some(address) = met.si_addr() {
        put(map, alloc, "addr", hex_value(alloc, address)?)?;
    }
    if let Some(pid) = met.si_pid() {
        put(map, alloc, "pid", Value::from(pid))?;
    }
    if let Some(uid) = met.si_uid() {
        put(map, alloc, "uid", Value::from(uid))?;
    }
    Ok(())
}

fn name_value(alloc: Global, name: Option<&str>) -> Result<Value, AllocError> {
    match name {
        Some(name) => string_value(alloc, name.as_bytes()),
        None => Ok(Value::Null),
    }
}

fn code_value(alloc: Global, met: &SigInfo<'_>) -> Result<Value, AllocError> {
    if let Some(code) = code_of_signal(met.si_signo(), met.si_code()) {
        return string_value(alloc, code.name);
    }
    match sent_code(met.si_code()) {
        Some(name) => string_value(alloc, name),
        None => Ok(Value::Null),
    }
}

// Puts a thread's number among the threads, and the facts of its state.
pub(crate) fn put_thread(
    alloc: Global,
    map: &mut Map<String, Value>,
    number: usize,
    thread: &Thread<'_>,
) -> Result<(), AllocError> {
    put(map, alloc, "thread", Value::from(number))?;
    put(map, alloc, "tid", Value::from(thread.tid()))?;
    put(map, alloc, "signal", Value::from(thread.signal()))?;
    put(map, alloc, "pc", hex_value(alloc, pc_of(thread))?)
}

// The file header of an executable, or why it is not shown.
pub(crate) fn header_value(
    alloc: Global,
    header: &Result<Header, ElfFault>,
) -> Result<Value, AllocError> {
    let header = match header {
        Ok(header) => header,
        Err(fault) => return reason_value(alloc, &elf_reason(*fault)),
    };
    let mut map = Map::new(alloc);
    put(&mut map, alloc, "type", Value::from(header.kind))?;
    put(&mut map, alloc, "entry", hex_value(alloc, header.entry)?)?;
    let flags = u64::from(header.flags);
    put(&mut map, alloc, "flags", hex_value(alloc, flags)?)?;
    put(&mut map, alloc, "segments", Value::from(header.segments))?;
    Ok(Value::Object(map))
}

// A number that is printed in hexadecimal.
pub(crate) fn hex_value(alloc: Global, number: u64) -> Result<Value, AllocError> {
    string_value(alloc, print_hexadecimal(u128::from(number)).as_slice())
}

// Why something is not shown.
pub(crate) fn reason_value(alloc: Global, reason: &Reason<'_>) -> Result<Value, AllocError> {
    let mut text = Vec::new(alloc);
    text.extend_from_slice(reason.name)?;
    if let Some(index) = reason.index {
        text.push(b' ')?;
        text.extend_from_slice(print_decimal(u128::from(index)).as_slice())?;
    }
    refusal_value(alloc, &text)
}
