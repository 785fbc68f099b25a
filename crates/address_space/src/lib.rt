//! The memory of a process, as described by its core: the program headers, the mapped files and attached executables.
#![tactic(auto)]

mod attached;
mod by_path;
mod cursor;
mod dumped;
mod file_sheet;
mod file_table;
mod find;
mod laws;
mod layers;
mod locate;
mod mappings;
mod order;
mod pieces;
mod row;
mod runs;
mod scan;
mod sheet;
mod source;
mod space;
mod stretches;
mod strings;
mod table;
mod words;

pub use attached::Attached;
pub use by_path::ByPath;
pub use dumped::{dumped_range, has_no_value};
pub use find::Matches;
pub use laws::{cut_is_past_the_image, stretches_are_the_range, texts_are_maximal};
pub use mappings::{Mapping, Mappings};
pub use pieces::Pieces;
pub use source::{FileSpot, Piece, PieceKind, Source, Stretch, StretchKind};
pub use space::AddressSpace;
pub use stretches::{ImageRange, Stretches, image_range};
pub use strings::Strings;
