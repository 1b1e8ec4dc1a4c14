//! Tests of words and small types, each called with ample memory. This crate has tests alone.
#![tactic(auto)]

#[cfg(test)]
mod lists;
#[cfg(test)]
mod names;
#[cfg(test)]
mod words;
