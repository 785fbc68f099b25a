// The page of a case.
use crate::attributes::{Attribute, AttributeName, Value};
use crate::cause::put_cause;
use crate::files::put_files;
use crate::frames::put_first_frames;
use crate::map::put_map;
use crate::memory::memory_of;
use crate::missing::put_missing;
use crate::page::Page;
use crate::registers::put_registers;
use crate::stack::put_stack;
use crate::tags::Tag;
use crate::texts::{
    base_of, class, open, put, put_decimal, put_hexadecimal, put_more, put_signed, put_size,
    put_text, put_time,
};
use crate::threads::put_threads;
use case_screens::{CaseAnswers, CoreAnswers, elf_reason, print_refusal};
use core_notes::PsInfo;
use elf_view::{ElfFault, Header};
use group_tables::GroupRow;
use journal_layout::Entry;
use memory_replies::Window;
use script_streams::Reply;
use std::alloc::{AllocError, Global};

// How many cores like it are named at most.
const LIKES: usize = 24;

/// Puts the known facts about a case, about the cases of its archive, and about its group, if it has one. The window has those bytes of its image
/// that are at the addresses of `stack_of`.
///
/// # Errors
///
/// There is no memory.
pub fn put_case(
    alloc: Global,
    page: &mut Page,
    case: &Entry,
    cases: &[Entry],
    answers: &CaseAnswers<'_, '_>,
    window: Window<'_>,
    row: Option<&GroupRow<'_>>,
) -> Result<(), AllocError> {
    page.open(
        Tag::Section,
        &[
            class("case"),
            Attribute {
                name: AttributeName::Id,
                value: Value::Case(case.seq),
            },
        ],
    );
    match answers {
        CaseAnswers::Core(answers) => put_core(alloc, page, case, cases, answers, window, row)?,
        CaseAnswers::Exec(header) => put_exec(page, case, header),
    }
    page.close();
    Ok(())
}

fn put_core(
    alloc: Global,
    page: &mut Page,
    case: &Entry,
    cases: &[Entry],
    answers: &CoreAnswers<'_, '_>,
    window: Window<'_>,
    row: Option<&GroupRow<'_>>,
) -> Result<(), AllocError> {
    page.open(Tag::Header, &[]);
    put_name(page, case, program_of(case, answers, row));
    put_cause(page, case.signal, &answers.core);
    open(page, Tag::Dl, "facts");
    begin_fact(page, b"When");
    put_time(page, case.time);
    end_fact(page);
    put_process(page, case, answers);
    put_image(page, case);
    page.close();
    page.close();
    put_first_frames(page, answers);
    put_threads(alloc, page, answers)?;
    put_memory(alloc, page, answers, window)?;
    put_files(page, cases, answers);
    put_missing(page, case, answers);
    put_likes(page, case.seq, row);
    Ok(())
}

// Puts the memory of a core: its map, and the registers and the stack of the thread that dumped.
fn put_memory(
    alloc: Global,
    page: &mut Page,
    answers: &CoreAnswers<'_, '_>,
    window: Window<'_>,
) -> Result<(), AllocError> {
    let Ok(core) = &answers.core else {
        return Ok(());
    };
    let memory = memory_of(alloc, core)?;
    put_map(alloc, page, &memory)?;
    put_registers(page, answers, &memory);
    put_stack(alloc, page, answers, &memory, window)
}

// The name of the program of a core: that of its group, of its process, or of its case.
fn program_of<'n>(
    case: &'n Entry,
    answers: &CoreAnswers<'_, 'n>,
    row: Option<&'n GroupRow<'_>>,
) -> &'n [u8] {
    if let Some(row) = row {
        return base_of(&row.crash.program);
    }
    match process_of(answers) {
        Some(process) => process.pr_fname(),
        None => case.name.as_slice(),
    }
}

// The process of a core, as its notes have it.
fn process_of<'a>(answers: &CoreAnswers<'_, 'a>) -> Option<PsInfo<'a>> {
    match &answers.core {
        Ok(core) => core.notes().psinfo(),
        Err(_) => None,
    }
}

fn put_name(page: &mut Page, case: &Entry, name: &[u8]) {
    page.open(Tag::H2, &[]);
    page.open(Tag::Span, &[]);
    put_text(page, name);
    page.close();
    open(page, Tag::Span, "no");
    page.text(b"case ");
    put_decimal(page, u64::from(case.seq));
    page.close();
    page.close();
}

fn begin_fact(page: &mut Page, label: &[u8]) {
    page.open(Tag::Div, &[]);
    put(page, Tag::Dt, label);
    page.open(Tag::Dd, &[]);
}

fn end_fact(page: &mut Page) {
    page.close();
    page.close();
}

fn put_process(page: &mut Page, case: &Entry, answers: &CoreAnswers<'_, '_>) {
    let process = process_of(answers);
    begin_fact(page, b"Process");
    match &process {
        Some(process) => put_numbers(page, process),
        None => put_decimal(page, u64::from(case.pid)),
    }
    end_fact(page);
    if let Some(process) = &process {
        begin_fact(page, b"Called as");
        put_text(page, process.pr_psargs().trim_ascii_end());
        end_fact(page);
    }
}

fn put_numbers(page: &mut Page, process: &PsInfo<'_>) {
    put_signed(page, i64::from(process.pr_pid()));
    page.text(b", parent ");
    put_signed(page, i64::from(process.pr_ppid()));
    page.text(b", user ");
    put_decimal(page, u64::from(process.pr_uid()));
}

fn put_image(page: &mut Page, case: &Entry) {
    begin_fact(page, b"Host");
    put_text(page, case.label.as_slice());
    end_fact(page);
    begin_fact(page, b"Core");
    put_text(page, case.name.as_slice());
    page.text(b", ");
    put_size(page, case.length);
    if case.pinned {
        page.text(b", pinned");
    }
    end_fact(page);
}

// Puts the numbers of the other cores of a group.
fn put_likes(page: &mut Page, number: u32, row: Option<&GroupRow<'_>>) {
    let Some(row) = row else {
        return;
    };
    if row.members.len() < 2 {
        return;
    }
    open(page, Tag::P, "likes");
    page.text(b"Cores like this one:");
    let (first, others) = row.members.split_at(row.members.len().min(LIKES));
    for member in first {
        if member.case.seq != number {
            page.text(b" ");
            put_decimal(page, u64::from(member.case.seq));
        }
    }
    if !others.is_empty() {
        page.text(b" ");
        put_more(page, others.len());
    }
    page.close();
}

fn put_exec(page: &mut Page, case: &Entry, header: &Result<Header, ElfFault>) {
    page.open(Tag::Header, &[]);
    put_name(page, case, case.name.as_slice());
    open(page, Tag::Dl, "facts");
    begin_fact(page, b"Executable");
    put_size(page, case.length);
    end_fact(page);
    begin_fact(page, b"Header");
    match header {
        Ok(header) => put_header(page, header),
        Err(fault) => {
            let mut reply = Reply::new(page);
            print_refusal(&mut reply, &elf_reason(*fault));
            let _ = reply.finish();
        }
    }
    end_fact(page);
    page.close();
    page.close();
}

fn put_header(page: &mut Page, header: &Header) {
    page.text(b"type ");
    put_decimal(page, u64::from(header.kind));
    page.text(b", entry ");
    put_hexadecimal(page, header.entry);
    page.text(b", ");
    put_decimal(page, u64::from(header.segments));
    page.text(b" program headers");
}
