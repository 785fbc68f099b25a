//! Tests of the streams of a script, of the lines that may be asked, of policies, of progress lines, and of the tables of mounts and locks.
#![tactic(auto)]

#[cfg(test)]
mod asking;
#[cfg(test)]
mod locks;
#[cfg(test)]
mod mounts;
#[cfg(test)]
mod policies;
#[cfg(test)]
mod progress;
#[cfg(test)]
mod streams;
