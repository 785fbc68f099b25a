//! Tests of the readers of images: results that no line shows, calls that take no memory, and memory without tables. The lines
//! that ask them are rows of `examples/rows`.
#![tactic(auto)]

#[cfg(test)]
mod builds;
#[cfg(test)]
mod directories;
#[cfg(test)]
mod elf;
#[cfg(test)]
mod lines;
#[cfg(test)]
mod lookups;
#[cfg(test)]
mod memory;
#[cfg(test)]
mod notes;
#[cfg(test)]
mod prunes;
#[cfg(test)]
mod registers;
#[cfg(test)]
mod sections;
#[cfg(test)]
mod shown;
#[cfg(test)]
mod signatures;
#[cfg(test)]
mod small;
#[cfg(test)]
mod streams;
