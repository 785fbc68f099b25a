//! The words of a signature, as they print.
ghost use Rattle.std.specs.Prelude.{◌≡◌, map};
ghost use Rattle.script_streams.specs.Replies.{PrintsText, printing};
ghost use Rattle.crash_signatures.specs.SignatureViews.{signature_said};
ghost use Rattle.crash_signatures.specs.WordViews.{said};
ghost use Rattle.group_tables.specs.Words as spec;

use crash_signatures::{Signature, Word};
use script_streams::{Output, Reply};

// Prints the words of a signature, and two dots if frames are missing.
pub(crate) fn print_frames<O: Output>(reply: &mut Reply<'_, O>, signature: &Signature)
    ensures { PrintsText (printing O.Output reply.old reply.new) (spec.frames_text (signature_said signature.now)) }
{
    print_words(reply, signature.words.as_slice());
    if signature.is_missing {
        reply.print(b" ..");
    }
}

fn print_words<O: Output>(reply: &mut Reply<'_, O>, words: &[Word])
    ensures { PrintsText (printing O.Output reply.old reply.new) (spec.words_text (map said words.now)) }
{
    match words {
        [] => reply.print(b"-"),
        [first, others @ ..] => {
            print_word(reply, first);
            print_others(reply, others);
        }
    }
}

// Prints words, each behind a space.
fn print_others<O: Output>(reply: &mut Reply<'_, O>, words: &[Word])
    ensures { PrintsText (printing O.Output reply.old reply.new) (spec.others_text (map said words.now)) }
{
    for word in words {
        reply.print(b" ");
        print_word(reply, word);
    }
}

// Prints a word. If a name starts like a mark, its first byte is escaped.
pub(crate) fn print_word<O: Output>(reply: &mut Reply<'_, O>, word: &Word)
    ensures { PrintsText (printing O.Output reply.old reply.new) (spec.word_text (said word.now)) }
{
    let text = word.text.as_slice();
    if word.is_mark {
        reply.print_text(text);
        return;
    }
    match text {
        [b'<', others @ ..] => {
            reply.print(b"\\x3c");
            reply.print_bytes(others);
        }
        [b'?', others @ ..] => {
            reply.print(b"\\x3f");
            reply.print_bytes(others);
        }
        _ => reply.print_text(text),
    }
}
