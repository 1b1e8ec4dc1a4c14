//! A caller of `disk_tree`.

ghost use Rattle.std.specs.Prelude.{◌≡◌, None, is_some, IfSome};
ghost use Rattle.number_map.specs.Numbered as map;
ghost use Rattle.disk_tree.specs.DiskTree.{children};
ghost use Rattle.disk_tree.specs.EntryChanges.{without_entry_and_name};
ghost use Rattle.disk_tree.specs.Entries.{number_under};

use disk_tree::DiskTree;

/// Removes the name from the directory, and the node to which it resolves from the disk. Returns whether
/// there was such a name; if not, the disk is unchanged.
pub fn erase(disk: &mut DiskTree, dir: u32, name: &[u8]) -> bool
    ensures found { result ≡ is_some (number_under name.now (children disk.old dir)) }
    ensures gone { IfSome (number_under name.now (children disk.old dir))
        (λ number. disk.new ≡ map.remove (without_entry_and_name disk.old dir name.now number) number) }
    ensures kept { number_under name.now (children disk.old dir) ≡ None → disk.new ≡ disk.old }
{
    disk.remove_entry_and_node(dir, name).is_some()
}
