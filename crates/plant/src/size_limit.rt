//! The limit of this process on the length of files (RLIMIT_FSIZE).

use std::fs::{File, Files};
use std::io::Read;

/// Linux's list of the limits of the process that reads it.
const LIMITS: &str = "/proc/self/limits";

/// Its line on files: this name, and then the limit in bytes, or `unlimited`.
const NAME: &str = "Max file size";

/// More than the list has.
const ROOM: usize = 8_192;

/// The limit in bytes; none where there is no limit or the system has no such list.
pub fn size_limit(files: &impl Files<File = File>) -> Option<u64> {
    let mut file = File::open(files, LIMITS).ok()?;
    let mut room = [0; ROOM];
    let count = file.read(&mut room).ok()?;
    limit_in(&room[..count])
}

/// The limit that such a list tells.
pub fn limit_in(list: &[u8]) -> Option<u64> {
    let text = std::str::from_utf8(list).ok()?;
    let (_, behind) = text.split_once(NAME)?;
    let limit = behind.split_whitespace().next()?;
    limit.parse::<u64>().ok()
}
