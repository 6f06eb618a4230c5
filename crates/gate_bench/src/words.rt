//! The words of the command line.

const RULE_LIMIT: u16 = 16_384;

/// What is measured, and its size.
#[derive(Clone, Copy, Debug)]
pub enum Work {
    /// Trees of so many kilobytes are read.
    Trees(u8),
    /// Names are looked up among so many public suffix rules.
    Suffixes(u16),
    /// So many kilobytes are digested.
    Sha256(u8),
    /// The body of a certificate with so many names is linted.
    Lints(u8),
    /// The same body is digested.
    BodySha256(u8),
    /// Each of these, at one size.
    All(u8),
}

/// A number from 1 to 255: kilobytes, or names.
fn small_size(word: &str) -> Option<u8> {
    match word.parse::<u8>() {
        Ok(0) | Err(_) => None,
        Ok(size) => Some(size),
    }
}

fn rules(word: &str) -> Option<u16> {
    match word.parse::<u16>() {
        Ok(size) if 1 <= size && size <= RULE_LIMIT => Some(size),
        _ => None,
    }
}

/// The work that the words ask for, and how often; the first word is the program's name.
pub fn read_work(words: &[String]) -> Option<(Work, u32)> {
    let [_, what, size, times] = words else {
        return None;
    };
    let size = size.as_str();
    let work = match what.as_str() {
        "trees" => Work::Trees(small_size(size)?),
        "suffixes" => Work::Suffixes(rules(size)?),
        "sha256" => Work::Sha256(small_size(size)?),
        "lints" => Work::Lints(small_size(size)?),
        "body-sha256" => Work::BodySha256(small_size(size)?),
        "all" => Work::All(small_size(size)?),
        _ => return None,
    };
    let times = times.as_str().parse::<u32>().ok()?;
    Some((work, times))
}
