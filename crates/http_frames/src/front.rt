//! What stands at the front of bytes.
ghost use Rattle.std.specs.Prelude.{◌≡◌, length, IfOk, All, option_map};
ghost use Rattle.httparse.specs.Spans.{IsHeaderWithin, IsWithin};
ghost use Rattle.http_frames.specs.Frames.{Stands};
ghost use Rattle.http_frames.specs.Head.{IsWhole, head_window, message_at};

use crate::fields::{Framing, first_value, framing_of, some_agrees};
use crate::head::{HeadFound, find_head, window_of};
use crate::message::Message;
use gate_base::{Bytes, NoMemory};
use httparse::spans::{HeaderSpan, RequestSpans};
use std::alloc::Global;

/// The most bytes of a body that is kept.
const BODY_LIMIT: usize = 65_536;

/// What stands at the front of bytes.
#[derive(Debug, Drop)]
pub enum Front {
    /// A message, which so many bytes are.
    Message { message: Message, used: usize },
    /// So many bytes are a message whose body is too large.
    TooLarge { used: usize },
    /// Where the message ends can't be known; this status is the answer.
    Unframed(u16),
    /// The bytes end inside a head or a body, and more isn't known before there are so many.
    Unfinished { needs: usize },
}

/// What stands at the front of the bytes.
pub fn find_front(alloc: Global, bytes: &[u8], room: &mut [HeaderSpan]) -> Result<Front, NoMemory>
    requires { length room.old ≡ 4096 }
    ensures { IfOk result (Stands bytes.now) }
{
    let window = window_of(bytes);
    match find_head(bytes, window, room) {
        HeadFound::Never => Ok(Front::Unframed(400)),
        HeadFound::Unfinished => Ok(Front::Unfinished {
            needs: bytes.len() + 1,
        }),
        HeadFound::Whole(spans) => behind_head(alloc, bytes, window, room, &spans),
    }
}

/// What a head and the bytes behind it are.
fn behind_head(
    alloc: Global,
    bytes: &[u8],
    window: &[u8],
    room: &[HeaderSpan],
    spans: &RequestSpans,
) -> Result<Front, NoMemory>
    requires window { window.now ≡ head_window bytes.now }
    requires whole { IsWhole bytes.now room.now spans.now }
    ensures { IfOk result (Stands bytes.now) }
{
    let (headers, _) = room.split_at(spans.headers);
    let size = match framing_of(window, headers) {
        Framing::Refused(status) => return Ok(Front::Unframed(status)),
        Framing::Body(size) => size,
    };
    let (_, behind) = bytes.split_at(spans.len);
    let size = size as usize;
    let used = spans.len + size;
    if behind.len() < size {
        return Ok(Front::Unfinished { needs: used });
    }
    if size > BODY_LIMIT {
        return Ok(Front::TooLarge { used });
    }
    let (body, _) = behind.split_at(size);
    let message = message_at(alloc, window, headers, spans, body)?;
    Ok(Front::Message { message, used })
}

/// The message whose parts the spans are.
fn message_at(
    alloc: Global,
    window: &[u8],
    headers: &[HeaderSpan],
    spans: &RequestSpans,
    body: &[u8],
) -> Result<Message, NoMemory>
    requires headers { All (IsHeaderWithin (length window.now)) headers.now }
    requires method { IsWithin (length window.now) spans.now.method }
    requires path { IsWithin (length window.now) spans.now.path }
    ensures { IfOk result (λ message. message ≡ message_at window.now headers.now spans.now body.now) }
{
    let method = Bytes::from_slice(alloc, spans.method.of(window))?;
    let path = Bytes::from_slice(alloc, spans.path.of(window))?;
    let token = copied(alloc, first_value(window, headers, b"x-gate-key"))?;
    let body = Bytes::from_slice(alloc, body)?;
    let last = some_agrees(window, headers, b"connection", b"close");
    Ok(Message {
        method,
        path,
        token,
        body,
        last,
    })
}

fn copied(alloc: Global, value: Option<&[u8]>) -> Result<Option<Bytes>, NoMemory>
    ensures { IfOk result (λ copy. copy ≡ option_map (λ bytes. bytes.now) value.entry) }
{
    match value {
        Some(bytes) => Ok(Some(Bytes::from_slice(alloc, bytes)?)),
        None => Ok(None),
    }
}
