//! What the equations of writes mean for contents: a function without work whose contract is the law.
ghost use Rattle.file_disk.specs.Laws.{WritesGive};

/// After a write, the body of a file that holds contents is the body that holds the contents with the bytes
/// in them.
pub fn writes_give_the_contents()
    ensures { WritesGive }
{}
