//! Worked examples of sessions over disks and streams that fail, or whose
//! calls are counted: only tests, of behaviour that crosses the crates.
#![tactic(auto)]

#[cfg(test)]
mod again;
#[cfg(test)]
mod archives;
#[cfg(test)]
mod images;
#[cfg(test)]
mod meanwhile;
#[cfg(test)]
mod reasons;
#[cfg(test)]
mod retiring;
#[cfg(test)]
mod stops;
