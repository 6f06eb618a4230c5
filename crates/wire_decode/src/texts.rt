//! Texts in a JSON body.
ghost use Rattle.std.specs.Prelude.{◌≡◌, ◌++◌, IfOk, OnOk, string_bytes};
ghost use Rattle.wire_decode.specs.Response.{byte_hex, hex_of, base64_of, character_json, text_json};

use base64::engine::general_purpose::STANDARD;
use gate_base::Bytes;
use std::alloc::{AllocError, Global};

/// A text in a JSON string, each of its bytes as the character of that number.
pub fn text_json(alloc: Global, bytes: &[u8]) -> Result<String, AllocError>
    ensures { IfOk result (λ json. string_bytes json ≡ text_json bytes.now) }
{
    let mut json = String::new(alloc);
    let mut rest = bytes;
    while let [byte, behind @ ..] = rest {
        push_character(alloc, *byte, &mut json)?;
        rest = behind;
    }
    Ok(json)
}

/// Appends what stands in a JSON string for a character.
#[tactic(auto, unfolding(crate::specs::Response::character_json))]
fn push_character(alloc: Global, byte: u8, json: &mut String) -> Result<(), AllocError>
    ensures { OnOk result (string_bytes json.new ≡ string_bytes json.old ++ character_json byte) }
{
    match byte {
        b'"' => json.push_str("\\\""),
        b'\\' => json.push_str("\\\\"),
        8 => json.push_str("\\b"),
        9 => json.push_str("\\t"),
        10 => json.push_str("\\n"),
        12 => json.push_str("\\f"),
        13 => json.push_str("\\r"),
        0..32 => {
            json.push_str("\\u00")?;
            json.push_str(byte_hex(alloc, byte)?.as_str())
        }
        _ => json.push(char::from(byte)),
    }
}

#[tactic(auto, unfolding(crate::specs::Response::base64_of))]
pub fn base64_of(alloc: Global, bytes: &Bytes) -> Result<String, AllocError>
    ensures { IfOk result (λ text. string_bytes text ≡ base64_of bytes.now) }
{
    STANDARD.encode(alloc, bytes.as_slice())
}

pub fn hex_of(alloc: Global, bytes: &[u8]) -> Result<String, AllocError>
    ensures { IfOk result (λ text. string_bytes text ≡ hex_of bytes.now) }
{
    let mut text = String::new(alloc);
    let mut rest = bytes;
    while let [byte, behind @ ..] = rest {
        text.push_str(byte_hex(alloc, *byte)?.as_str())?;
        rest = behind;
    }
    Ok(text)
}

/// Two lower-case hexadecimal digits.
fn byte_hex(alloc: Global, byte: u8) -> Result<String, AllocError>
    ensures { IfOk result (λ text. string_bytes text ≡ byte_hex byte) }
{
    format!(in alloc; "{byte:02x}")
}
