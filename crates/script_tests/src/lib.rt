//! Scripts, sessions, and runs of the tool over fakes; this crate has only tests.
#![tactic(auto)]

#[cfg(test)]
mod counting;
#[cfg(test)]
mod draws;
#[cfg(test)]
mod endings;
#[cfg(test)]
mod in_threads;
#[cfg(test)]
mod kinds;
#[cfg(test)]
mod linked;
#[cfg(test)]
mod linked_commands;
#[cfg(test)]
mod linked_out_of_memory;
#[cfg(test)]
mod meeting;
#[cfg(test)]
mod outside;
#[cfg(test)]
mod replaced;
#[cfg(test)]
mod replies;
#[cfg(test)]
mod runs;
#[cfg(test)]
mod scripts;
#[cfg(test)]
mod texts;
#[cfg(test)]
mod words;
