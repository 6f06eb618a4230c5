ghost use Rattle.std.specs.Prelude.{◌≡◌, ◌++◌, string_bytes, IfOk, OnOk, OnErr};
ghost use Rattle.domain_methods.specs.Value as spec;
ghost use Rattle.domain_methods.specs.Value.{text_by};

use crate::challenge::Challenge;
use base64::engine::general_purpose::URL_SAFE_NO_PAD;
use gate_base::{Method, NoMemory, Sixteen};
use std::alloc::Global;

fn text_of(alloc: Global, method: Method, value: &Sixteen) -> Result<String, NoMemory>
    ensures { IfOk result (λ text. string_bytes text ≡ text_by method value.now.0) }
{
    match method {
        Method::DnsChange | Method::WebChange => Ok(hex::encode(alloc, value.0)?),
        Method::AcmeHttp => Ok(URL_SAFE_NO_PAD.encode(alloc, &value.0)?),
    }
}

/// Appends the one text of a challenge's random value: 32 hexadecimal digits, or 22 characters of base64url for ACME.
pub fn value_text(c: &Challenge, out: &mut Vec<u8>) -> Result<(), NoMemory>
    ensures ok { OnOk result (out.new.items ≡ out.old.items ++ spec.value_text c.now) }
    ensures err { OnErr result (out.new.items ≡ out.old.items) }
{
    let text = text_of(*out.allocator(), c.method, &c.value)?;
    out.extend_from_slice(text.as_bytes())?;
    Ok(())
}
