//! The words after a command's name, each read as the value that it must be.
ghost use Rattle.text_words.specs.Digits.{hex_bytes_of_length};
ghost use Rattle.short_bytes.specs.Label.{label_of};
ghost use Rattle.script_lang.specs.Forms.{Takes, word, optional};
ghost use Rattle.script_words.specs.Keys as keys;
ghost use Rattle.script_words.specs.Numbers as numbers;
ghost use Rattle.script_words.specs.Records.{record_of};
ghost use Rattle.script_words.specs.NewSecrets as new_secrets;
ghost use Rattle.script_words.specs.Secrets as secrets;
ghost use Rattle.script_words.specs.Word.{target_bytes};
ghost use Rattle.script_words.specs.Path.{path_of};
ghost use Rattle.script_lang.specs.SettingForms as forms;
ghost use Rattle.script_lang.specs.declared.limits.TheConstants.{MAX_ADDED_BYTES, MAX_WRITTEN_BYTES};
ghost use Rattle.script_lang.specs.declared.limits.TheConstants.{MAX_FILLED_BYTES, MAX_PUT_BYTES};
ghost use Rattle.script_lang.specs.declared.limits.TheConstants.{POLICY_BYTES};

use crate::limits::{
    MAX_ADDED_BYTES, MAX_FILLED_BYTES, MAX_PUT_BYTES, MAX_WRITTEN_BYTES, POLICY_BYTES,
};
use crate::verb::{Options, Settings};
use crate::words::{Unread, Words};
use item_list::Bytes;
use policy_ctx::{Pad, Unit};
use script_words::{
    KeyRef, NewSecret, Record, ScriptPath, Secret, read_byte, read_hex, read_hex_or_none,
    read_key_ref, read_new_secret, read_number_up_to, read_pad, read_path, read_record,
    read_secret, read_target, read_unit,
};
use short_bytes::Label;
use std::alloc::Global;
use text_words::{decimal_value, hex_bytes};

impl Words<'_> {
    // A number below 2^32.
    pub(crate) fn number(&mut self) -> Result<u32, Unread>
        ensures { Takes result (word numbers.number_of self.old) self.new }
    {
        let word = self.next().ok_or(Unread::OutsideGrammar)?;
        decimal_value(word).ok_or(Unread::OutsideGrammar)
    }

    // The number of bytes to fill.
    pub(crate) fn filled_len(&mut self) -> Result<u32, Unread>
        ensures { Takes result (word (numbers.number_up_to MAX_FILLED_BYTES) self.old) self.new }
    {
        let word = self.next().ok_or(Unread::OutsideGrammar)?;
        read_number_up_to(word, MAX_FILLED_BYTES).ok_or(Unread::OutsideGrammar)
    }

    // A byte, by its number.
    pub(crate) fn byte(&mut self) -> Result<u8, Unread>
        ensures { Takes result (word (numbers.number_up_to 255) self.old) self.new }
    {
        let word = self.next().ok_or(Unread::OutsideGrammar)?;
        read_byte(word).ok_or(Unread::OutsideGrammar)
    }

    // A padding.
    pub(crate) fn pad(&mut self) -> Result<Pad, Unread>
        ensures { Takes result (word numbers.pad_of self.old) self.new }
    {
        let word = self.next().ok_or(Unread::OutsideGrammar)?;
        read_pad(word).ok_or(Unread::OutsideGrammar)
    }

    // A unit of contents.
    pub(crate) fn unit(&mut self) -> Result<Unit, Unread>
        ensures { Takes result (word numbers.unit_of self.old) self.new }
    {
        let word = self.next().ok_or(Unread::OutsideGrammar)?;
        read_unit(word).ok_or(Unread::OutsideGrammar)
    }

    // A key.
    pub(crate) fn key(&mut self) -> Result<KeyRef, Unread>
        ensures { Takes result (word keys.key_ref_of self.old) self.new }
    {
        let word = self.next().ok_or(Unread::OutsideGrammar)?;
        read_key_ref(word).ok_or(Unread::OutsideGrammar)
    }

    // The label of a protector or a policy.
    pub(crate) fn label(&mut self) -> Result<Label, Unread>
        ensures { Takes result (word label_of self.old) self.new }
    {
        let word = self.next().ok_or(Unread::OutsideGrammar)?;
        Label::read(word).ok_or(Unread::OutsideGrammar)
    }

    // A record.
    pub(crate) fn record(&mut self) -> Result<Record, Unread>
        ensures { Takes result (word record_of self.old) self.new }
    {
        let word = self.next().ok_or(Unread::OutsideGrammar)?;
        read_record(word).ok_or(Unread::OutsideGrammar)
    }

    // The bytes of a policy.
    pub(crate) fn policy_bytes(&mut self) -> Result<[u8; POLICY_BYTES], Unread>
        ensures { Takes result (word (hex_bytes_of_length POLICY_BYTES) self.old) self.new }
    {
        let word = self.next().ok_or(Unread::OutsideGrammar)?;
        hex_bytes(word).ok_or(Unread::OutsideGrammar)
    }

    // A path.
    pub(crate) fn path(&mut self, alloc: Global) -> Result<ScriptPath, Unread>
        ensures { Takes result (word path_of self.old) self.new }
    {
        let word = self.next().ok_or(Unread::OutsideGrammar)?;
        read_path(alloc, word)?.ok_or(Unread::OutsideGrammar)
    }

    // A symlink's target.
    pub(crate) fn target(&mut self, alloc: Global) -> Result<Bytes, Unread>
        ensures { Takes result (word target_bytes self.old) self.new }
    {
        let word = self.next().ok_or(Unread::OutsideGrammar)?;
        read_target(alloc, word)?.ok_or(Unread::OutsideGrammar)
    }

    // The bytes of a key to be added.
    pub(crate) fn added_bytes(&mut self, alloc: Global) -> Result<Bytes, Unread>
        ensures { Takes result (word (keys.hex_of_size 1 MAX_ADDED_BYTES) self.old) self.new }
    {
        let word = self.next().ok_or(Unread::OutsideGrammar)?;
        read_hex(alloc, word, 1, MAX_ADDED_BYTES)?.ok_or(Unread::OutsideGrammar)
    }

    // The bytes of a write.
    pub(crate) fn written_bytes(&mut self, alloc: Global) -> Result<Bytes, Unread>
        ensures { Takes result (word (keys.hex_or_none MAX_WRITTEN_BYTES) self.old) self.new }
    {
        let word = self.next().ok_or(Unread::OutsideGrammar)?;
        read_hex_or_none(alloc, word, MAX_WRITTEN_BYTES)?.ok_or(Unread::OutsideGrammar)
    }

    // The bytes of a record.
    pub(crate) fn put_bytes(&mut self, alloc: Global) -> Result<Bytes, Unread>
        ensures { Takes result (word (keys.hex_or_none MAX_PUT_BYTES) self.old) self.new }
    {
        let word = self.next().ok_or(Unread::OutsideGrammar)?;
        read_hex_or_none(alloc, word, MAX_PUT_BYTES)?.ok_or(Unread::OutsideGrammar)
    }

    // A secret.
    pub(crate) fn secret(&mut self, alloc: Global) -> Result<Secret, Unread>
        ensures { Takes result (word secrets.secret_of self.old) self.new }
    {
        let word = self.next().ok_or(Unread::OutsideGrammar)?;
        read_secret(alloc, word)?.ok_or(Unread::OutsideGrammar)
    }

    // A new secret.
    pub(crate) fn new_secret(&mut self, alloc: Global) -> Result<NewSecret, Unread>
        ensures { Takes result (word new_secrets.new_secret_of self.old) self.new }
    {
        let word = self.next().ok_or(Unread::OutsideGrammar)?;
        read_new_secret(alloc, word)?.ok_or(Unread::OutsideGrammar)
    }

    // A number, if a word is left.
    pub(crate) fn optional_number(&mut self) -> Result<Option<u32>, Unread>
        ensures { Takes result (optional (word numbers.number_of) self.old) self.new }
    {
        if self.is_empty() {
            return Ok(None);
        }
        Ok(Some(self.number()?))
    }

    // A unit, if a word is left.
    pub(crate) fn optional_unit(&mut self) -> Result<Option<Unit>, Unread>
        ensures { Takes result (optional (word numbers.unit_of) self.old) self.new }
    {
        if self.is_empty() {
            return Ok(None);
        }
        Ok(Some(self.unit()?))
    }

    // A padding, and a unit if a further word is left.
    pub(crate) fn settings(&mut self) -> Result<Settings, Unread>
        ensures { Takes result (forms.settings self.old) self.new }
    {
        Ok(Settings {
            pad: self.pad()?,
            unit: self.optional_unit()?,
        })
    }

    // Settings, if a word is left.
    pub(crate) fn optional_settings(&mut self) -> Result<Option<Settings>, Unread>
        ensures { Takes result (optional forms.settings self.old) self.new }
    {
        if self.is_empty() {
            return Ok(None);
        }
        Ok(Some(self.settings()?))
    }

    // A padding and a unit.
    fn options(&mut self) -> Result<Options, Unread>
        ensures { Takes result (forms.options self.old) self.new }
    {
        Ok(Options {
            pad: self.pad()?,
            unit: self.unit()?,
        })
    }

    // A padding and a unit, if a word is left.
    pub(crate) fn optional_options(&mut self) -> Result<Option<Options>, Unread>
        ensures { Takes result (optional forms.options self.old) self.new }
    {
        if self.is_empty() {
            return Ok(None);
        }
        Ok(Some(self.options()?))
    }
}
