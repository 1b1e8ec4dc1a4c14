//! Kernels of a mount's calls. Each prepares a mount, makes the calls of its run `count` times, and
//! returns how many of all calls were refused. No contract describes what is measured: the ones here are
//! what the calls of the libraries require.
mod asking;
mod calls;
mod kernel;
mod one_caller;
mod table;
mod turns;
mod work;

pub(crate) use kernel::MountKernel;
