//! Names and targets, as the reader of a listing sees them.

ghost use Rattle.std.specs.Prelude.{◌≡◌, ◌≤◌, ◌++◌, ◌∷◌, ◌-◌, true, length, is_some, OnOk};
ghost use Rattle.name_crypt.specs.declared.limits.TheConstants.{MIN_STORED_BYTES};
ghost use Rattle.name_crypt.specs.NoKeyText.{nokey_text_of};
ghost use Rattle.tree_listing.specs.Sights.{sight_of, word_or_text, visible_word};
ghost use Rattle.tree_listing.specs.DrawnKeys.{name_under};

use crate::ciphers::decrypted_word;
use crate::reader::Reader;
use image_lines::StoredBytes;
use name_crypt::{StoredName, nokey_text};
use policy_ctx::CONTEXT_LEN;
use script_words::push_word;
use std::alloc::{AllocError, Global};

// Writes a space, and the word by which a stored name in the directory of this number and context is
// shown, or the stored target of the link.
pub(crate) fn push_visible_name(
    alloc: Global,
    text: &mut Vec<u8>,
    reader: &Option<Reader<'_>>,
    number: u32,
    context: &Option<[u8; CONTEXT_LEN]>,
    stored: &StoredBytes,
) -> Result<(), AllocError>
    requires { is_some context.now ≡ true → MIN_STORED_BYTES ≤ length stored.now }
    ensures { OnOk result (text.new.items
        ≡ text.old.items ++ 32 ∷ visible_word (sight_of reader.now context.now) number stored.now) }
{
    match context {
        None => push_word(alloc, text, stored.bytes()),
        Some(context) => {
            let Ok(stored) = StoredName::read(stored.bytes()) else {
                unreachable!();
            };
            match reader {
                Some(reader) if reader.opens(context) => {
                    push_opened(alloc, text, reader, number, context, &stored)
                }
                _ => push_locked(text, &stored),
            }
        }
    }
}

// Writes a space and the decrypted name, or if there is none the no-key text.
fn push_opened(
    alloc: Global,
    text: &mut Vec<u8>,
    reader: &Reader<'_>,
    number: u32,
    context: &[u8; CONTEXT_LEN],
    stored: &StoredName,
) -> Result<(), AllocError>
    ensures { OnOk result (text.new.items ≡ text.old.items
        ++ 32 ∷ word_or_text stored.now (name_under reader.now context.now number stored.now)) }
{
    match decrypted_word(reader, context, number, stored) {
        Ok(name) => push_word(alloc, text, name.bytes()),
        Err(_) => push_locked(text, stored),
    }
}

// Writes a space and the no-key text.
fn push_locked(text: &mut Vec<u8>, stored: &StoredName) -> Result<(), AllocError>
    ensures { OnOk result (text.new.items ≡ text.old.items ++ 32 ∷ nokey_text_of stored.now) }
{
    text.push(b' ')?;
    text.extend_from_slice(nokey_text(stored).bytes())
}
