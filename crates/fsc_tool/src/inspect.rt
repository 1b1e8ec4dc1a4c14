//! The run that lists an image. It asks for no seed.

ghost use Rattle.std.specs.Prelude.{◌≡◌, List, IfOk, IfErr};
ghost use Rattle.fsc_outside.specs.Reads.{ReadCall};
ghost use Rattle.fsc_outside.specs.States.{SeedState, SinkState};
ghost use Rattle.tree_listing.specs.Listing.{IsListing};
ghost use Rattle.fsc_tool.specs.Inspection.{EndsInspection, IsInspection, wiped_key};
ghost use Rattle.fsc_tool.specs.ImageEnds.{HasListing};
ghost use Rattle.fsc_tool.specs.Faults.{image_status};
ghost use Rattle.fsc_tool.specs.Outside.{outside};

use crate::limits::IMAGE_LIMITS;
use crate::replay::input_status;
use crate::status::Status;
use crate::writing::write_text;
use fsc_keys::{PreparedKey, RawKey};
use fsc_outside::{Sink, Source, read_all};
use fsc_session::scrub_stack;
use image_lines::{Image, ImageFault, read_image};
use item_list::Bytes;
use std::alloc::{AllocError, Global};
use tree_listing::list_image;

// Lists the image that the source gives, with the raw key or without one. Writes the listing into the sink
// once it is complete. Wipes the key at every end, and what the listing left on the stack.
pub(crate) fn run_inspecting<S: Source, K: Sink>(
    alloc: Global,
    raw: &mut Option<RawKey>,
    source: &mut S,
    sink: &mut K,
) -> Status
    ensures inspected { (seeds : SeedState) → IsInspection raw.old
        (λ (calls : List ReadCall). S.after_calls source.old calls source.new)
        (outside (S.state source.old) (K.state sink.old) seeds)
        (outside (S.state source.new) (K.state sink.new) seeds) result }
    ensures wiped { raw.new ≡ wiped_key raw.old }
{
    let listed = listing(alloc, raw, source);
    wipe_key(raw);
    scrub_stack();
    match listed {
        Ok(text) => write_text(text, sink),
        Err(status) => status,
    }
}

// Returns the listing of the image that the source gives, or the status with which the run ends. Its frame
// is its own, so that what it leaves on the stack is below the frame that wipes it.
#[inline(never)]
fn listing<S: Source>(alloc: Global, raw: &Option<RawKey>, source: &mut S) -> Result<Bytes, Status>
    ensures listed { IfOk result (HasListing raw.now (λ calls. S.after_calls source.old calls source.new)
        (S.state source.old) (S.state source.new)) }
    ensures ended { IfErr result (λ status. (sink : SinkState) (seeds : SeedState)
        → EndsInspection raw.now (λ calls. S.after_calls source.old calls source.new)
        (outside (S.state source.old) sink seeds) (outside (S.state source.new) sink seeds) status) }
{
    let input = match read_all(alloc, source, IMAGE_LIMITS) {
        Ok(input) => input,
        Err(fault) => return Err(input_status(fault)),
    };
    let image = match read_image(alloc, input.as_slice()) {
        Ok(image) => image,
        Err(fault) => return Err(image_status(fault)),
    };
    match list_with(alloc, &image, raw) {
        Ok(text) => Ok(text),
        Err(_) => Err(Status::NoMemory),
    }
}

// Returns the listing of an image, with a raw key or without one. Wipes its copy of the key afterwards.
fn list_with(alloc: Global, image: &Image<'_>, raw: &Option<RawKey>) -> Result<Bytes, AllocError>
    ensures { IfOk result (IsListing image.now raw.now) }
{
    let Some(raw) = raw else {
        return list_image(alloc, image, None);
    };
    let mut key = PreparedKey::new(raw.copy());
    let listed = list_image(alloc, image, Some(&key));
    key.wipe();
    listed
}

// Wipes the raw key, if there is one.
fn wipe_key(raw: &mut Option<RawKey>)
    ensures { raw.new ≡ wiped_key raw.old }
{
    if let Some(raw) = raw {
        raw.wipe();
    }
}

// Returns the status of a run whose input could not be read as an image.
fn image_status(fault: ImageFault) -> Status
    ensures { result ≡ image_status fault }
{
    match fault {
        ImageFault::BadLine { line } => Status::BadLine { line },
        ImageFault::NoMemory => Status::NoMemory,
    }
}
