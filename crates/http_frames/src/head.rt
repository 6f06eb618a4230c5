//! The head at the front of bytes.
ghost use Rattle.std.specs.Prelude.{◌≡◌, ◌≤◌, length};
ghost use Rattle.http_frames.specs.Head.{TellsHead, head_window};

use httparse::Status;
use httparse::spans::{HeaderSpan, RequestSpans, parse_request};

/// The most bytes of a head.
const HEAD_LIMIT: usize = 8_192;

/// More header lines than a head of `HEAD_LIMIT` bytes can have.
pub const HEADER_ROOM: usize = 4_096;

/// What stands at the front.
pub enum HeadFound {
    Whole(RequestSpans),
    Unfinished,
    /// No head, whatever bytes follow.
    Never,
}

/// The bytes at the front that a head can have.
#[tactic(auto, using(crate::proofs::HeadLemmas::whole_window))]
pub fn window_of(bytes: &[u8]) -> &[u8]
    ensures { result.now ≡ head_window bytes.now }
{
    if bytes.len() <= HEAD_LIMIT {
        bytes
    } else {
        let (window, _) = bytes.split_at(HEAD_LIMIT);
        window
    }
}

/// The head at the front of the bytes, of which the window shows as many as a head can have.
pub fn find_head(bytes: &[u8], window: &[u8], room: &mut [HeaderSpan]) -> HeadFound
    requires window { window.now ≡ head_window bytes.now }
    requires room { length room.old ≡ 4096 }
    ensures { TellsHead bytes.now room.new result }
{
    match parse_request(window, room) {
        Ok(Status::Complete(spans)) => HeadFound::Whole(spans),
        Ok(Status::Partial) if bytes.len() > HEAD_LIMIT => HeadFound::Never,
        Ok(Status::Partial) => HeadFound::Unfinished,
        Err(_) => HeadFound::Never,
    }
}
