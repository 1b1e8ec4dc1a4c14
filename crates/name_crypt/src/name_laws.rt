//! Laws of all names, as functions that do nothing: their contracts are the laws.

ghost use Rattle.name_crypt.specs.Laws.{LongTextsAreOthers, NamesComeBack, NamesStayDistinct};
ghost use Rattle.name_crypt.specs.Laws.{ShortTextsStayDistinct, StoredNamesAreBytes, StoredNamesFit};

/// Does nothing. Its contract is the law that a stored name is decrypted to its name, and that different
/// names have different stored names under one key, start and padding. A stored name has 16 to 255 bytes.
pub fn names_come_back()
    ensures back { NamesComeBack }
    ensures distinct { NamesStayDistinct }
    ensures fit { StoredNamesFit }
    ensures bytes { StoredNamesAreBytes }
{
    cts_mode::decryption_undoes_encryption();
}

/// Does nothing. Its contract is the law that a stored name of at most 149 bytes has a no-key text of its
/// own: no other stored name has the same, shorter or longer.
pub fn texts_stay_distinct()
    ensures short { ShortTextsStayDistinct }
    ensures long { LongTextsAreOthers }
{}
