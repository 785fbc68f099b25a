// The registers of the thread that dumped.
use crate::memory::{Memory, Use};
use crate::page::Page;
use crate::tags::Tag;
use crate::texts::{open, put, put_hexadecimal, put_key, put_signed, put_text};
use case_screens::CoreAnswers;
use thread_regs::{Reg, Thread, threads};

// How many words a thread's state has: pc, and x1 to x31.
const WORDS: usize = 32;

// The words of pc and sp.
const PC: usize = 0;

const SP: usize = 2;

// Puts the registers, each with the colour and the name of the mapping that it points into.
pub(crate) fn put_registers(page: &mut Page, answers: &CoreAnswers<'_, '_>, memory: &Memory<'_>) {
    let Ok(core) = &answers.core else {
        return;
    };
    let Some(thread) = threads(core.notes()).next() else {
        return;
    };
    page.open(Tag::H3, &[]);
    page.text(b"Registers");
    page.open(Tag::Small, &[]);
    page.text(b" of thread ");
    put_signed(page, i64::from(thread.tid()));
    page.close();
    put_key(page);
    page.close();
    open(page, Tag::Dl, "regs");
    for word in 0..WORDS {
        let marked = word == PC || word == SP;
        put_register(page, &thread, Reg::of_word(word), marked, memory);
    }
    page.close();
}

fn put_register(
    page: &mut Page,
    thread: &Thread<'_>,
    register: Reg,
    marked: bool,
    memory: &Memory<'_>,
) {
    let value = thread.register(register);
    let target = memory.at(value);
    let purpose = target.map(|mapping| memory.use_of(mapping));
    open(page, Tag::Div, look_of(purpose, marked));
    put(page, Tag::Dt, register.name().as_bytes());
    page.open(Tag::Dd, &[]);
    put_hexadecimal(page, value);
    if let Some(mapping) = target {
        page.text(b" ");
        open(page, Tag::Span, "into");
        put_text(page, memory.name_of(mapping));
        page.close();
    }
    page.close();
    page.close();
}

// The style of a register that points there. Those of the place where the thread was are marked.
fn look_of(purpose: Option<Use>, marked: bool) -> &'static str {
    match (purpose, marked) {
        (None, false) => "reg",
        (None, true) => "reg now",
        (Some(Use::Stack), false) => "reg k-stack",
        (Some(Use::Stack), true) => "reg k-stack now",
        (Some(Use::Code), false) => "reg k-code",
        (Some(Use::Code), true) => "reg k-code now",
        (Some(_), false) => "reg k-data",
        (Some(_), true) => "reg k-data now",
    }
}
