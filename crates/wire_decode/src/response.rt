//! HTTP/1.1 responses with JSON bodies.
ghost use Rattle.std.specs.Prelude.{◌≡◌, ◌≤◌, ◌<◌, IfOk, string_bytes};
ghost use Rattle.wire_decode.specs.Response.{reason_of, status_line, header_lines, response_of};

use http::StatusCode;
use std::alloc::{AllocError, Global};

pub fn response_of(alloc: Global, status: u16, json: &str) -> Result<String, AllocError>
    requires { (100 ≤ status) × (status < 1000) }
    ensures { IfOk result (λ text. string_bytes text ≡ response_of status json.now) }
{
    let mut text = status_line(alloc, status, reason_of(status))?;
    text.push_str(header_lines(alloc, json)?.as_str())?;
    text.push_str(json)?;
    Ok(text)
}

fn status_line(alloc: Global, status: u16, reason: &str) -> Result<String, AllocError>
    ensures { IfOk result (λ text. string_bytes text ≡ status_line status reason.now) }
{
    let mut line = format!(in alloc; "HTTP/1.1 {status} ")?;
    line.push_str(reason)?;
    line.push_str("\r\n")?;
    Ok(line)
}

fn header_lines(alloc: Global, json: &str) -> Result<String, AllocError>
    ensures { IfOk result (λ text. string_bytes text ≡ header_lines json.now) }
{
    let size = json.len();
    format!(in alloc; "content-type: application/json\r\ncontent-length: {size}\r\n\r\n")
}

#[tactic(auto, unfolding(crate::specs::Response::reason_of))]
fn reason_of(status: u16) -> &'static str
    requires { (100 ≤ status) × (status < 1000) }
    ensures { result.now ≡ reason_of status }
{
    match StatusCode::from_u16(status) {
        Ok(code) => code.canonical_reason().unwrap_or(""),
        Err(_) => unreachable!(),
    }
}
