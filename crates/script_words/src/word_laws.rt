//! Laws of all words and paths: what is written reads back, and what is read can be written.

ghost use Rattle.script_words.specs.WordLaws.{WordsReadBack, TargetsReadBack, PathsReadBack};
ghost use Rattle.script_words.specs.WordLaws.{TextsSpellWords, TextsSpellTargets};
ghost use Rattle.script_words.specs.WordLaws.{TextsSpellPaths, DistinctWordsHaveDistinctTexts};
ghost use Rattle.script_words.specs.WordLaws.{DistinctPathsHaveDistinctTexts};

/// The text that is written of 1 to 1,000 bytes reads back as them, as a word and, without NUL, as a
/// target.
pub fn words_read_back()
    ensures words { WordsReadBack }
    ensures targets { TargetsReadBack }
{}

/// Each word or target that a text spells can be written.
pub fn texts_spell_words()
    ensures words { TextsSpellWords }
    ensures targets { TextsSpellTargets }
{}

/// Two different words have different texts.
pub fn distinct_words_have_distinct_texts()
    ensures { DistinctWordsHaveDistinctTexts }
{}

/// The text of a path reads back as that path, with its stars and given parts.
pub fn paths_read_back()
    ensures { PathsReadBack }
{}

/// Each path that a text spells can be written.
pub fn texts_spell_paths()
    ensures { TextsSpellPaths }
{}

/// Two different paths have different texts.
pub fn distinct_paths_have_distinct_texts()
    ensures { DistinctPathsHaveDistinctTexts }
{}
