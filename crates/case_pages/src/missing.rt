// The missing parts of a core.
use crate::frames::words_of;
use crate::page::Page;
use crate::tags::Tag;
use crate::texts::{open, put, put_size};
use case_screens::{CoreAnswers, core_reason, print_refusal};
use core_checks::UnreadNotes;
use image_replies::CoreFault;
use journal_layout::Entry;
use script_streams::Reply;
use unwind::Stop;

// Puts the missing parts; nothing, if all is there.
pub(crate) fn put_missing(page: &mut Page, case: &Entry, answers: &CoreAnswers<'_, '_>) {
    let stop = stop_of(answers);
    let is_cut = answers.whole.is_some_and(|whole| case.length < whole);
    if answers.core.is_ok() && stop.is_none() && !is_cut && answers.unread.is_none() {
        return;
    }
    put(page, Tag::H3, b"What is missing");
    open(page, Tag::Ul, "missing");
    if let Err(fault) = &answers.core {
        put_fault(page, *fault);
    }
    if let Some(whole) = answers.whole {
        put_cut(page, case.length, whole);
    }
    if let Some(unread) = answers.unread {
        put(page, Tag::Li, unread_words(unread).as_bytes());
    }
    if let Some(stop) = stop {
        page.open(Tag::Li, &[]);
        page.text(b"The frames end early: ");
        page.text(words_of(stop).as_bytes());
        page.text(b".");
        page.close();
    }
    page.close();
}

// Why the frames of the thread that dumped end, if not since the last of them is the outermost.
fn stop_of(answers: &CoreAnswers<'_, '_>) -> Option<Stop> {
    match answers.unwound.first() {
        Some(Some(frames)) => match frames.stop {
            Stop::Outermost => None,
            stop => Some(stop),
        },
        _ => None,
    }
}

fn put_fault(page: &mut Page, fault: CoreFault) {
    page.open(Tag::Li, &[]);
    page.text(b"The core's headers or notes can't be read: ");
    let mut reply = Reply::new(page);
    print_refusal(&mut reply, &core_reason(fault));
    let _ = reply.finish();
    page.close();
}

fn put_cut(page: &mut Page, has: u64, whole: u64) {
    if has >= whole {
        return;
    }
    page.open(Tag::Li, &[]);
    page.text(b"The core was cut before its end: ");
    put_size(page, has);
    page.text(b" of ");
    put_size(page, whole);
    page.text(b" are there.");
    page.close();
}

fn unread_words(unread: UnreadNotes) -> &'static str {
    match unread {
        UnreadNotes::Padded => "Notes are padded to 8 bytes: only those padded to 4 are read.",
        UnreadNotes::Linux => "Notes of threads are named LINUX: only those named CORE are read.",
    }
}
