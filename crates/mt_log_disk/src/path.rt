//! The path of a name in a folder.

use libc::PATH_MAX;
use std::io;

// Returns the folder's path, a slash and the name. They stand at the start of `room`.
pub(crate) fn join<'a>(
    folder: &[u8],
    name: &[u8],
    room: &'a mut [u8; PATH_MAX],
) -> io::Result<&'a [u8]> {
    let slash = folder.len();
    if slash >= PATH_MAX || name.len() >= PATH_MAX - slash {
        return Err(io::Error::from_raw_os_error(libc::ENAMETOOLONG));
    }
    let end = slash + 1 + name.len();
    room[..slash].copy_from_slice(folder);
    room[slash] = b'/';
    room[slash + 1..end].copy_from_slice(name);
    Ok(&room[..end])
}
