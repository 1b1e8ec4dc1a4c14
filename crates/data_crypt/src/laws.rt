//! The laws of encrypted blocks and of files, each a function whose contract is the law.
ghost use Rattle.data_crypt.specs.Laws.{ContentsComeBack, PiecesFallIntoBlocks, ReadsParts, WritesBlocks};
ghost use Rattle.data_crypt.specs.BlockLaws.{MakesBlocks, OpeningUndoes, SealingUndoes};

/// Opening and sealing, that is decryption and encryption, undo one another for every key, unit, index and
/// block.
pub fn opening_undoes_sealing()
    ensures opened { OpeningUndoes }
    ensures sealed { SealingUndoes }
    ensures blocks { MakesBlocks }
{}

/// A file's contents are read back from its stored blocks.
pub fn contents_come_back()
    ensures { ContentsComeBack }
{}

/// Bytes that are written into contents change each block by their part in it, and replace the stored
/// blocks that cover them.
pub fn pieces_are_written()
    ensures plain { PiecesFallIntoBlocks }
    ensures stored { WritesBlocks }
{}

/// A part of some stored blocks, decrypted, is that part of the contents.
pub fn parts_are_read()
    ensures { ReadsParts }
{}
