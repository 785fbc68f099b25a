//! The words, numbers and texts of a script line, and how a reply prints numbers and texts.
#![tactic(auto)]

mod laws;
mod line;
mod numbers;
mod printing;
mod texts;

pub use laws::{
    printed_bytes_are_read_again, printed_numbers_are_read_again, printed_texts_are_read_again,
};
pub use line::{Words, first_visible, is_blank_or_comment, is_plain};
pub use numbers::{
    parse_case_number, parse_number, parse_number_within, parse_part_length, parse_slot, parse_u32,
};
pub use printing::{
    plain_front, print_byte, print_decimal, print_hex_row, print_hexadecimal, print_signed,
};
pub use texts::{decode_hex, decode_text, split_pair};
