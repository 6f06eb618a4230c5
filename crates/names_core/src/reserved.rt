ghost use Rattle.std.specs.Prelude.{◌≡◌, ◌-◌, ◌/◌, ◌^◌, ◌<◌, ◌≤◌, ◌==◌, ◌||◌, not, length};
ghost use Rattle.std.specs.List.{list_any};
ghost use Rattle.names_core.specs.Reserved as table;

use gate_base::Address;

/// Whether two numbers agree in their first so many bits.
fn agree(a: u32, b: u32, bits: u32) -> bool
    requires some { 0 < bits }
    requires all { bits ≤ 32 }
    ensures { result ≡ (a / 2 ^ (32 - bits) == b / 2 ^ (32 - bits)) }
{
    let dropped = 32 - bits;
    a >> dropped == b >> dropped
}

fn is_reserved_v4(first: u32) -> bool
    ensures { result ≡ list_any (λ block. first / 2 ^ (32 - block.bits) == block.start / 2 ^ (32 - block.bits)) table.reserved_v4 }
{
    agree(first, 0x0000_0000, 8)
        || agree(first, 0x0A00_0000, 8)
        || agree(first, 0x6440_0000, 10)
        || agree(first, 0x7F00_0000, 8)
        || agree(first, 0xA9FE_0000, 16)
        || agree(first, 0xAC10_0000, 12)
        || agree(first, 0xC000_0000, 24)
        || agree(first, 0xC000_0200, 24)
        || agree(first, 0xC0A8_0000, 16)
        || agree(first, 0xC612_0000, 15)
        || agree(first, 0xC633_6400, 24)
        || agree(first, 0xCB00_7100, 24)
        || agree(first, 0xE000_0000, 3)
}

fn is_reserved_v6(first: u32) -> bool
    ensures { result ≡ (not (first / 2 ^ 29 == 1) || (first == 0x20010DB8)) }
{
    !agree(first, 0x2000_0000, 3) || agree(first, 0x2001_0DB8, 32)
}

/// The number of the first 32 bits.
fn first_bits(octets: &[u8]) -> u32
    requires { 4 ≤ length octets.now }
    ensures { result ≡ table.first_bits octets.now }
{
    u32::from_be_bytes([octets[0], octets[1], octets[2], octets[3]])
}

/// Whether an address is reserved for a special purpose, so that no certificate may name it.
pub fn is_reserved(a: &Address) -> bool
    ensures { result ≡ table.is_reserved a.now }
{
    match a {
        Address::V4(octets) => is_reserved_v4(first_bits(octets)),
        Address::V6(octets) => is_reserved_v6(first_bits(octets)),
    }
}
