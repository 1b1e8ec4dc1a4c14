//! A caller's port on two mounts: the record of a protector on the caller's own mount may be a link to
//! the far one.
#![tactic(auto)]

mod asked;
mod laws;
mod linked;
mod name_buffer;
mod on_both;
mod port;
mod step;

pub use asked::Asked;
pub use laws::{logged_histories_are_of_the_calls, steps_are_of_replies};
pub use on_both::{LoggedList, LoggedOnBoth, split};
pub use port::LinkPort;
pub use step::LinkStep;
