//! The parts of a mount and its calls, each once with ample memory. This crate has only tests.
#![tactic(auto)]

#[cfg(test)]
mod cached_names;
#[cfg(test)]
mod calls;
#[cfg(test)]
mod claims;
#[cfg(test)]
mod contents;
#[cfg(test)]
mod disk;
#[cfg(test)]
mod disk_steps;
#[cfg(test)]
mod encrypted_dir;
#[cfg(test)]
mod handles;
#[cfg(test)]
mod keys;
#[cfg(test)]
mod names;
#[cfg(test)]
mod node_keys;
#[cfg(test)]
mod on_a_mount;
#[cfg(test)]
mod paths;
#[cfg(test)]
mod records;
#[cfg(test)]
mod reply_values;
