//! The laws of trees. No function here does anything: its contract is the law.

ghost use Rattle.plain_tree.specs.Changes.{first_nodes};
ghost use Rattle.plain_tree.specs.Tree.{IsTree};
ghost use Rattle.plain_tree.specs.Laws as tree;
ghost use Rattle.plain_tree.specs.Seals.{Texts, IsSealed};
ghost use Rattle.plain_tree.specs.SealLaws as seal;
ghost use Rattle.plain_tree.specs.Stored as stored;

/// A mount begins as a tree of its root alone, whose next number is 1, and each kind of change of a
/// tree leaves a tree.
pub fn changes_keep_trees()
    ensures first { IsTree first_nodes 1 }
    ensures made { tree.MakingKeepsTrees }
    ensures dropped { tree.DroppingKeepsTrees }
    ensures gone { tree.GoingKeepsTrees }
    ensures moved { tree.MovingKeepsTrees }
    ensures written { tree.WritingKeepsTrees }
    ensures encrypted { tree.EncryptingKeepsTrees }
{}

/// Under a policy all nodes have that policy and no two names of a directory have one text, at first
/// and after each kind of change, whatever the texts are.
pub fn changes_keep_seals()
    ensures first { (texts : Texts) → IsSealed texts first_nodes }
    ensures made { seal.MakingKeepsSeals }
    ensures dropped { seal.DroppingKeepsSeals }
    ensures gone { seal.GoingKeepsSeals }
    ensures moved { seal.MovingKeepsSeals }
    ensures written { seal.WritingKeepsSeals }
    ensures encrypted { seal.EncryptingKeepsSeals }
    ensures same_texts { seal.SameTextsKeepSeals }
{}

/// In a sealed tree the text of a name resolves to the node that the name resolves to.
pub fn texts_resolve()
    ensures { seal.TextsResolve }
{}

/// Entries with their names in stored form are searched and edited as the plain ones are, whatever the
/// stored form is, if no two names of the directory are stored alike.
pub fn stored_entries_agree()
    ensures searches { stored.SearchesAgree }
    ensures puts { stored.PutsAgree }
    ensures removals { stored.RemovalsAgree }
    ensures differ { stored.StoredFormsDiffer }
{}
