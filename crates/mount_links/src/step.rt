//! The outcome of a caller's call on two mounts.

use mount_model::Reply;
use short_bytes::Label;

/// The outcome of a caller's call on two mounts, beyond the call and the reply that the caller has: all
/// that the histories of both mounts need of it. A protector is named by its label.
#[derive(Drop)]
pub enum LinkStep {
    /// The call was made on the caller's own mount as it is.
    Alone,
    /// The protector's record on the own mount was loaded, with this reply, and was a link. The call was
    /// made on the far mount, and has this place there.
    Followed {
        label: Label,
        first: Reply,
        there: u64,
    },
    /// The protector's record on the own mount was loaded, at this place and with this reply, and was no
    /// link. The call was made on the own mount after that.
    Looked {
        label: Label,
        place: u64,
        first: Reply,
    },
    /// Loading the protector's record on the own mount was out of memory, and nothing followed.
    NotMade {
        label: Label,
    },
}
