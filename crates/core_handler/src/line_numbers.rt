// The numbers that the line of a core states.
use script_words::{Words, parse_number};

// The number of the first word of a line that has one behind this key.
pub(crate) fn number_in_line(line: &[u8], key: &[u8]) -> Option<u64> {
    for word in Words::new(line) {
        if let Some(number) = number_behind(word, key) {
            return Some(number);
        }
    }
    None
}

fn number_behind(word: &[u8], key: &[u8]) -> Option<u64> {
    let value = word.strip_prefix(key)?;
    parse_number(value)
}
