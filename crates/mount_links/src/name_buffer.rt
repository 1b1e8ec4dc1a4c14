//! Buffers for the names of protectors' records, allocated before any call.

ghost use Rattle.std.specs.Prelude.{◌≡◌, ◌+◌, ◌≤◌, ◌++◌, [], length};
ghost use Rattle.std.specs.Vec.{vec_capacity, vec_len};
ghost use Rattle.mount_model.specs.Carried.{HasLength};
ghost use Rattle.mount_model.specs.declared.limits.TheConstants.{MAX_RECORD_NAME_BYTES};
ghost use Rattle.script_words.specs.Records.{record_name};
ghost use Rattle.script_words.specs.declared.record_words.Record.TheVariants.{Protector};

use item_list::Bytes;
use mount_model::limits::MAX_RECORD_NAME_BYTES;
use short_bytes::Label;
use std::alloc::{AllocError, Global};

// A buffer for the name of a record.
#[derive(Drop)]
pub(crate) struct NameBuffer {
    bytes: Vec<u8>,
    ghost none: { bytes.items ≡ [] },
    ghost empty: { vec_len bytes ≡ 0 },
    ghost room: { MAX_RECORD_NAME_BYTES ≤ vec_capacity bytes },
}

impl NameBuffer {
    // Allocates the buffer.
    pub(crate) fn new(alloc: Global) -> Result<NameBuffer, AllocError> {
        let bytes = Vec::with_capacity(alloc, MAX_RECORD_NAME_BYTES)?;
        Ok(NameBuffer { bytes })
    }

    // The name of the protector's record, in this buffer.
    pub(crate) fn name(self, label: &Label) -> Bytes
        ensures value { result ≡ record_name (Protector label.now) }
        ensures fits { HasLength result MAX_RECORD_NAME_BYTES }
    {
        let mut name = self.bytes;
        put(&mut name, b"protector/");
        put(&mut name, label.bytes());
        Bytes::from_vec(name)
    }
}

// Appends the bytes to the text, which has the capacity for them.
fn put(text: &mut Vec<u8>, bytes: &[u8])
    requires { vec_len text.old + length bytes.now ≤ vec_capacity text.old }
    ensures items { text.new.items ≡ text.old.items ++ bytes.now }
    ensures len { vec_len text.new ≡ vec_len text.old + length bytes.now }
    ensures room { vec_capacity text.old ≤ vec_capacity text.new }
{
    match text.extend_from_slice(bytes) {
        Ok(()) => {}
        Err(AllocError) => unreachable!(),
    }
}
