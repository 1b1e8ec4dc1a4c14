//! Writing a whole text.

ghost use Rattle.fsc_outside.specs.Whole.{EndsWriting};

use crate::{Failed, Sink};

/// Writes the whole text, in as many pieces as the sink takes. An empty text makes no call, and the first
/// failure ends the writing.
pub fn write_all<K: Sink>(sink: &mut K, text: &[u8]) -> Result<(), Failed>
    ensures { EndsWriting (K.state sink.old) (K.state sink.new) text.now result }
{
    let mut written = 0;
    'writing: while written < text.len() {
        let count = match sink.write(&text[written..]) {
            Ok(count) => count,
            Err(fault) => return Err(fault),
        };
        written += count;
    }
    Ok(())
}
