//! Tests of the calls of an archive over disks in memory that stop, fail, lose a sync or crash, and of calls that are refused memory.
//! Rows of `examples/rows` show the answers if nothing fails.
#![tactic(auto)]

#[cfg(test)]
mod bench;
#[cfg(test)]
mod compactions;
#[cfg(test)]
mod courses;
#[cfg(test)]
mod disks;
#[cfg(test)]
mod forgetful;
#[cfg(test)]
mod refused;
#[cfg(test)]
mod reopened;
#[cfg(test)]
mod rows;
#[cfg(test)]
mod script;
#[cfg(test)]
mod stops;
