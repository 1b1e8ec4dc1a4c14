//! The words of scripts: what each spells, as bytes, paths, numbers, keys, records or secrets, and the
//! text in which it is written.
#![tactic(auto)]

mod key_words;
mod limits;
mod number_words;
mod path;
mod places;
mod record_words;
mod secret_words;
mod secrets;
mod word;
mod word_laws;
mod word_writer;

pub use key_words::{KeyRef, read_hex, read_hex_or_none, read_key_ref};
pub use number_words::{read_byte, read_number_up_to, read_pad, read_unit};
pub use path::{ScriptPart, ScriptPath, read_part, read_path, write_path};
pub use places::place_of;
pub use record_words::{Record, read_record};
pub use secret_words::{read_new_secret, read_secret};
pub use secrets::{AllowedCosts, NewSecret, Secret};
pub use word::{read_target, read_word, write_word};
pub use word_laws::{
    distinct_paths_have_distinct_texts, distinct_words_have_distinct_texts, paths_read_back,
    texts_spell_paths, texts_spell_words, words_read_back,
};
pub use word_writer::{
    push_hex, push_hex_or_none, push_key, push_label, push_new_secret, push_number, push_path,
    push_record, push_secret, push_word,
};
