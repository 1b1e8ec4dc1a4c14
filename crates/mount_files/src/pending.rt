//! The result of a read before it is decrypted.

use file_disk::PendingRead;
use mount_model::Reply;

/// What a call leaves to be done once the turn is over.
#[derive(Drop)]
pub enum Pending {
    /// Nothing: this is the reply.
    Ready(Reply),
    /// The stored blocks of a part of a file, which are still encrypted.
    Read(PendingRead),
}
