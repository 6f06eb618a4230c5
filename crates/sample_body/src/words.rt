//! The words of the command line.
ghost use Rattle.std.specs.Prelude.{◌≡◌, ◌≤◌, map, Ok, IsTrue, IfSome};
ghost use Rattle.std.specs.String.{string_bytes};
ghost use Rattle.hex.specs.Hex.{decode_sized};
ghost use Rattle.tbs_build.specs.Plan.{IsSerial};
ghost use Rattle.sample_body.specs.Sample.{algorithm_word, subject_word, Asks, CanBeMet, IsSeconds};

use gate_base::{Moment, SigAlg, Sixteen};
use hex::FromHex;

/// From here on 47 days would end after the year 9999.
const LAST_BEGIN: u64 = 253_398_240_000;

/// What the words ask for.
#[derive(Clone, Copy, Debug)]
pub struct Wanted {
    pub serial: Sixteen,
    /// The first second at which the certificate is valid.
    pub not_before: Moment,
    /// Whether the first name is the subject's commonName.
    pub common: bool,
    pub alg: SigAlg,
}

/// The first byte says that the number is positive and that none of its bytes can be left out.
fn is_serial(bytes: &[u8]) -> bool
    ensures { IsTrue result → IsSerial bytes.now }
{
    match bytes {
        [first, ..] => 0x40 <= *first && *first < 0x80,
        [] => false,
    }
}

/// A serial number of 32 hexadecimal digits.
fn read_serial(word: &str) -> Option<Sixteen>
    ensures good { IfSome result (λ serial. IsSerial serial.0) }
    ensures number { IfSome result (λ serial. decode_sized word.now 16 ≡ Ok serial.0) }
{
    let bytes = <[u8; 16] as FromHex>::from_hex(word).ok()?;
    if is_serial(&bytes) {
        Some(Sixteen(bytes))
    } else {
        None
    }
}

/// Seconds since 1970.
fn read_begin(word: &str) -> Option<Moment>
    ensures early { IfSome result (λ begin. begin.0 ≤ 253398240000) }
    ensures number { IfSome result (λ begin. IsSeconds word.now begin.0) }
{
    match word.parse::<u64>() {
        Ok(seconds) if seconds <= LAST_BEGIN => Some(Moment(seconds)),
        _ => None,
    }
}

fn read_subject(word: &str) -> Option<bool>
    ensures { IfSome result (λ common. word.now ≡ subject_word common) }
{
    match word {
        "empty-subject" => Some(false),
        "common-name" => Some(true),
        _ => None,
    }
}

fn read_algorithm(word: &str) -> Option<SigAlg>
    ensures { IfSome result (λ alg. word.now ≡ algorithm_word alg) }
{
    match word {
        "ecdsa-with-SHA256" => Some(SigAlg::EcdsaSha256),
        "ecdsa-with-SHA384" => Some(SigAlg::EcdsaSha384),
        "sha256WithRSAEncryption" => Some(SigAlg::RsaSha256),
        _ => None,
    }
}

/// What the words ask for; the first word is the program's name.
pub fn read_words(words: &[String]) -> Option<Wanted>
    ensures met { IfSome result (λ wanted. CanBeMet wanted) }
    ensures asked { IfSome result (Asks (map string_bytes words.now)) }
{
    let [_, serial, begin, subject, algorithm] = words else {
        return None;
    };
    Some(Wanted {
        serial: read_serial(serial.as_str())?,
        not_before: read_begin(begin.as_str())?,
        common: read_subject(subject.as_str())?,
        alg: read_algorithm(algorithm.as_str())?,
    })
}
