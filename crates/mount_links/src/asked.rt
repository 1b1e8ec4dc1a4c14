//! The calls that may concern a link, and the replies that contain one.

ghost use Rattle.std.specs.Prelude.{◌≡◌, List, Some, ℕ};
ghost use Rattle.mount_model.specs.History as history;
ghost use Rattle.mount_model.specs.declared.call.Op.TheVariants.{MetaLoad};
ghost use Rattle.script_words.specs.Records.{record_name};
ghost use Rattle.script_words.specs.declared.record_words.Record.TheVariants.{Protector};
ghost use Rattle.mount_links.specs.LinkSteps as spec;
ghost use Rattle.mount_links.specs.declared.asked.Asked.TheVariants.{Load};

use mount_model::{Op, Refusal, Reply};
use script_words::{Record, read_record};
use short_bytes::Label;

/// The operation of a call, as far as links go: loading or storing the record of the protector with this
/// label, or another one.
#[derive(Drop)]
pub enum Asked {
    Load(Label),
    Store(Label),
    Other,
}

// Returns what the call asks for.
pub(crate) fn asked_of(op: &Op) -> Asked
    ensures value { result ≡ spec.asked_of op.now }
    ensures load { (label : List ℕ) → result ≡ Load label
        → op.now ≡ MetaLoad (record_name (Protector label)) }
{
    match op {
        Op::MetaLoad { name } => match read_record(name.as_slice()) {
            Some(record) => asked_of_load(&record),
            None => Asked::Other,
        },
        Op::MetaStore { name, .. } => match read_record(name.as_slice()) {
            Some(record) => asked_of_store(&record),
            None => Asked::Other,
        },
        _ => Asked::Other,
    }
}

// What a load of this record asks for.
fn asked_of_load(record: &Record) -> Asked
    ensures { result ≡ spec.asked_of_load (Some «record».now) }
{
    match record {
        Record::Protector(label) => Asked::Load(*label),
        Record::Policy(_) => Asked::Other,
    }
}

// What a store of this record asks for.
fn asked_of_store(record: &Record) -> Asked
    ensures { result ≡ spec.asked_of_store (Some «record».now) }
{
    match record {
        Record::Protector(label) => Asked::Store(*label),
        Record::Policy(_) => Asked::Other,
    }
}

// Whether the reply is exactly the link to the protector of this label, and no byte else.
pub(crate) fn is_link(label: &Label, reply: &Reply) -> bool
    ensures { result ≡ spec.is_link label.now reply.now }
{
    match reply {
        Reply::Held { bytes, .. } => protector_meta::is_link(label, bytes.as_slice()),
        _ => false,
    }
}

// Whether the call was out of memory.
pub(crate) fn is_out_of_memory(reply: &Reply) -> bool
    ensures { result ≡ history.is_out_of_memory reply.now }
{
    matches!(reply, Reply::Refused(Refusal::NoMemory))
}
