//! A caller of `fsc_outside`.

ghost use Rattle.std.specs.Prelude.{◌≡◌, ℕ, List, Err, OnOk, IsErrOf};
ghost use Rattle.fsc_outside.specs.Input.{EndsReading};
ghost use Rattle.fsc_outside.specs.WholeTexts.{ReadToEnd, IsWithin};
ghost use Rattle.fsc_outside.specs.Whole.{GotWhole, GotPart};
ghost use Rattle.callers.specs.declared.copying.TheConstants.{PAGE};

use fsc_outside::{InputFault, InputLimits, Sink, Source, read_all, write_all};
use std::alloc::Global;

/// The limits of a page.
const PAGE: InputLimits = InputLimits {
    bytes: 4096,
    lines: 60,
};

/// Why no text, or not the whole text, was copied.
#[derive(Debug, Drop)]
pub enum CopyFault {
    /// The source failed, its text was too long, or there was no memory for it.
    Read(InputFault),
    /// The sink failed.
    Write,
}

/// Copies a text of at most a page from the source to the sink, once it was read to its end. If reading
/// fails, as in `read_all`, the sink is unchanged. If writing fails, the sink got less than the text.
pub fn copy<S: Source, K: Sink>(
    alloc: Global,
    source: &mut S,
    sink: &mut K,
) -> Result<(), CopyFault>
    ensures whole { OnOk result ((text : List ℕ) × IsWithin PAGE text
        × ReadToEnd (S.state source.old) (S.state source.new) text
        × GotWhole (K.state sink.old) (K.state sink.new) text) }
    ensures unread { (fault : InputFault) → IsErrOf result (CopyFault.Read fault) → sink.new ≡ sink.old }
    ensures read { (fault : InputFault) → IsErrOf result (CopyFault.Read fault)
        → EndsReading PAGE (λ calls. S.after_calls source.old calls source.new) (S.state source.old)
        (S.state source.new) (Err fault) }
    ensures written { IsErrOf result CopyFault.Write → (text : List ℕ) × IsWithin PAGE text
        × ReadToEnd (S.state source.old) (S.state source.new) text
        × GotPart (K.state sink.old) (K.state sink.new) text }
    ensures quiet { OnOk result ((K.state sink.new).faults ≡ (K.state sink.old).faults) }
{
    let text = match read_all(alloc, source, PAGE) {
        Ok(text) => text,
        Err(fault) => return Err(CopyFault::Read(fault)),
    };
    write_all(sink, text.as_slice()).map_err(|_| CopyFault::Write)
}
