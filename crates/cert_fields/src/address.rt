//! Visible characters, and the addresses that certificates name.
ghost use Rattle.std.specs.Prelude.{◌≡◌};
ghost use Rattle.std.specs.List.{list_all};
ghost use Rattle.cert_fields.specs.Profile as spec;

/// An address has at most this many bytes.
const LONGEST_ADDRESS: usize = 512;

/// Whether a byte is a printing character of ASCII and no space: VCHAR of RFC 5234, appendix B.1.
pub fn is_visible(byte: u8) -> bool
    ensures { result ≡ spec.is_visible byte }
{
    b'!' <= byte && byte <= b'~'
}

/// Whether each byte is a visible character.
pub fn are_visible(bytes: &[u8]) -> bool
    ensures { result ≡ list_all spec.is_visible bytes.now }
{
    bytes.iter().all(|byte| is_visible(*byte))
}

/// Whether the bytes are an address that a certificate may name: at most 512 visible bytes that begin with `http://`.
pub fn is_address(bytes: &[u8]) -> bool
    ensures { result ≡ spec.is_address bytes.now }
{
    bytes.len() <= LONGEST_ADDRESS && bytes.starts_with(b"http://") && are_visible(bytes)
}
