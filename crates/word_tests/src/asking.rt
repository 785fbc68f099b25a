//! Which lines may be asked alone.
use script_lines::parse_question;

/// Lines, and whether each is a question that only looks, if it is a question.
static LINES: [(&[u8], Option<bool>); 6] = [
    (b"upgrade", Some(false)),
    (b"label 1", Some(false)),
    (b"label 1 x", Some(false)),
    (b"retire keep=1", Some(false)),
    (b"list", Some(true)),
    (b"part 0 1", None),
];

#[test]
fn lines_that_may_be_asked(rt: HostRuntime) {
    for (line, wanted) in &LINES {
        let found = parse_question(line).map(|question| question.only_looks());
        assert_eq!(rt; found, *wanted);
    }
}
