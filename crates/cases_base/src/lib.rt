//! Tests of lists, texts, stores and sinks: what no program can show.
#![tactic(auto)]

#[cfg(test)]
mod lists;
#[cfg(test)]
mod outside;
#[cfg(test)]
mod sinks;
#[cfg(test)]
mod stores;
