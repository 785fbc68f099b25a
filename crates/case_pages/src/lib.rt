//! The pages of a report: of an archive, and of its cases. They are pages in HTML that are written token by
//! token, and are read back as these tokens.
#![tactic(auto)]

mod archive;
mod attributes;
mod bars;
mod case;
mod cause;
mod escape;
mod files;
mod frames;
mod groups;
mod head;
mod laws;
mod map;
mod memory;
mod missing;
mod page;
mod page_laws;
mod pieces;
mod plot;
mod programs;
mod registers;
mod scale;
mod span;
mod spark;
mod stack;
mod style;
mod svg;
mod tags;
mod texts;
mod threads;
mod times;

pub use archive::{PagedArchive, put_archive};
pub use attributes::{Attribute, AttributeName, Value};
pub use case::put_case;
pub use head::{put_foot, put_head};
pub use laws::each_time_is_in_one_bar;
pub use page::Page;
pub use page_laws::{escaped_is_tame, texts_change_no_tag, unescaped_is_shown};
pub use stack::{StackRange, stack_of};
pub use tags::Tag;
pub use times::latest_of;
