//! How a run writes its text.

ghost use Rattle.fsc_tool.specs.Written.{EndsLog};

use crate::status::Status;
use fsc_outside::{Sink, write_all};
use item_list::Bytes;

// Writes a text into the sink. Returns how the run ends.
pub(crate) fn write_text<K: Sink>(text: Bytes, sink: &mut K) -> Status
    ensures { EndsLog text (K.state sink.old) (K.state sink.new) result }
{
    match write_all(sink, text.as_slice()) {
        Ok(()) => Status::Done,
        Err(_) => Status::WriteFault,
    }
}
