//! The writer of optional words, and of the settings of a policy.

ghost use Rattle.std.specs.Prelude.{◌≡◌, OnOk};
ghost use Rattle.script_lang.specs.VerbText.{behind};
ghost use Rattle.script_lang.specs.SettingWords.{words_of_settings, words_of_optional_settings};
ghost use Rattle.script_lang.specs.SettingWords.{words_of_number, words_of_options, words_of_unit};

use crate::verb::{Options, Settings};
use policy_ctx::Unit;
use script_words::push_number;
use std::alloc::AllocError;

pub(crate) fn push_optional_number(
    text: &mut Vec<u8>,
    number: Option<u32>,
) -> Result<(), AllocError>
    ensures { OnOk result (text.new.items ≡ behind text.old.items (words_of_number number)) }
{
    match number {
        Some(number) => push_number(text, number),
        None => Ok(()),
    }
}

pub(crate) fn push_settings(text: &mut Vec<u8>, settings: &Settings) -> Result<(), AllocError>
    ensures { OnOk result (text.new.items ≡ behind text.old.items (words_of_settings settings.now)) }
{
    push_number(text, settings.pad.size() as u32)?;
    push_said_unit(text, settings.unit)
}

fn push_said_unit(text: &mut Vec<u8>, unit: Option<Unit>) -> Result<(), AllocError>
    ensures { OnOk result (text.new.items ≡ behind text.old.items (words_of_unit unit)) }
{
    match unit {
        Some(unit) => push_number(text, u32::from(unit.log2())),
        None => Ok(()),
    }
}

pub(crate) fn push_optional_settings(
    text: &mut Vec<u8>,
    settings: &Option<Settings>,
) -> Result<(), AllocError>
    ensures { OnOk result (text.new.items ≡ behind text.old.items (words_of_optional_settings settings.now)) }
{
    match settings {
        Some(settings) => push_settings(text, settings),
        None => Ok(()),
    }
}

pub(crate) fn push_optional_options(
    text: &mut Vec<u8>,
    options: &Option<Options>,
) -> Result<(), AllocError>
    ensures { OnOk result (text.new.items ≡ behind text.old.items (words_of_options options.now)) }
{
    match options {
        Some(options) => {
            push_number(text, options.pad.size() as u32)?;
            push_number(text, u32::from(options.unit.log2()))
        }
        None => Ok(()),
    }
}
