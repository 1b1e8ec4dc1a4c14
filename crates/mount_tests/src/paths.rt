//! Paths of a mount, from the names in them.

use item_list::Bytes;
use mount_model::{Part, Path};
use std::alloc::{AllocError, Global};

pub(crate) fn part(alloc: Global, name: &[u8]) -> Result<Part, AllocError> {
    Ok(Part::new(Bytes::from_vec(Vec::from_slice(alloc, name)?)))
}

/// Returns the path `/NAME`.
pub(crate) fn path_of(alloc: Global, name: &[u8]) -> Result<Path, AllocError> {
    let mut path = Path::root(alloc);
    path.push(part(alloc, name)?)?;
    Ok(path)
}

/// Returns the path `/DIR/NAME`.
pub(crate) fn path_in(alloc: Global, dir: &[u8], name: &[u8]) -> Result<Path, AllocError> {
    let mut path = path_of(alloc, dir)?;
    path.push(part(alloc, name)?)?;
    Ok(path)
}
