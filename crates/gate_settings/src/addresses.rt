//! The addresses that certificates name.
ghost use Rattle.std.specs.Prelude.{IsTrue, OnOk, IfErr};
ghost use Rattle.cert_fields.specs.Profile.{is_address};
ghost use Rattle.gate_settings.specs.Rules.{DocumentBreaks, IsKept, TellsOf};

use crate::document::Document;
use crate::rule::{Broken, Rule};
use cert_fields::is_address;

/// Whether the addresses of a file are web addresses.
pub fn check_addresses(document: &Document) -> Result<(), Broken>
    ensures crl { OnOk result (IsTrue (is_address document.now.ca.crl)) }
    ensures aia { OnOk result (IsTrue (is_address document.now.ca.aia)) }
    ensures kept { OnOk result (IsKept (DocumentBreaks document.now) Rule.S08) }
    ensures err { IfErr result (λ fault. TellsOf (DocumentBreaks document.now) Rule.S08 fault) }
{
    if !is_address(document.ca.crl.as_slice()) || !is_address(document.ca.aia.as_slice()) {
        return Err(Broken::Rule(Rule::S08, 0));
    }
    Ok(())
}
