//! One entry of a history.

/// A call that was answered: the number of its caller, what was asked and what was answered. A history is a
/// list of these; the place of an entry is the number of entries before it.
#[derive(Drop)]
pub struct Entry<C, R> {
    pub who: u32,
    pub call: C,
    pub reply: R,
}
