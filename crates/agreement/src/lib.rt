// Tests that every keeper and every index answers one table of calls alike, that a congruence is put together from any of them, and that closures can share
// their pictures.
#![tactic(auto)]

// the table of calls on keepers
#[cfg(test)]
mod keeping;
// the table of calls on indexes
#[cfg(test)]
mod indexing;
// chains of one more kind of record
#[cfg(test)]
mod chaining;
// a congruence just put together
#[cfg(test)]
mod beginning;
// two closures that share their pictures
#[cfg(test)]
mod sharing;
