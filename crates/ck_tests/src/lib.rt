//! Tests of what no contract says, and which no transcript can ask for: what is dropped and what is
//! moved, what threads do, keys and searches that were worked out by hand, scripts that can't be
//! read or written, and the texts of refusals.
#![tactic(auto)]

// What they share.
#[cfg(test)]
mod fixtures;
#[cfg(test)]
mod watched;

// Keys, queries and searches.
#[cfg(test)]
mod keys;
#[cfg(test)]
mod queries;
#[cfg(test)]
mod searches;

// What is dropped, what is moved and what is put back.
#[cfg(test)]
mod drops;
#[cfg(test)]
mod lists;
#[cfg(test)]
mod moves;
#[cfg(test)]
mod put_back;

// Threads.
#[cfg(test)]
mod locked_keys;
#[cfg(test)]
mod overtaken;
#[cfg(test)]
mod pools;

// Scripts: sources, sinks and gates.
#[cfg(test)]
mod scripts;

// Texts of refusals.
#[cfg(test)]
mod texts;
