//! Policies, keys, stored names and records, against a Linux kernel and other implementations. This
//! crate has tests alone.
#![tactic(auto)]

#[cfg(test)]
mod keys;
#[cfg(test)]
mod linux;
#[cfg(test)]
mod linux_vectors;
#[cfg(test)]
mod linux_vectors_by_mode;
#[cfg(test)]
mod names;
#[cfg(test)]
mod options;
#[cfg(test)]
mod policies;
#[cfg(test)]
mod protectors;
#[cfg(test)]
mod spelled;
#[cfg(test)]
mod wraps;
