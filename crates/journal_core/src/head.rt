//! The line that a journal begins with.
ghost use Rattle.std.specs.Prelude.{◌≡◌, ◌↔◌, IsTrue};
ghost use Rattle.journal_core.specs.Journal.{head};

pub const HEAD: &[u8] = b"gate journal 01\n";

/// The length of the head.
pub const HEAD_BYTES: usize = 16;

/// The place of the first gate.
pub const FIRST_GATE: u64 = 16;

#[tactic(auto, unfolding(crate::specs::Journal::head))]
pub fn is_head(bytes: &[u8]) -> bool
    ensures { IsTrue result ↔ (bytes.now ≡ head) }
{
    is_same(bytes, HEAD)
}

pub fn is_same(left: &[u8], right: &[u8]) -> bool
    ensures { IsTrue result ↔ (left.now ≡ right.now) }
{
    *left == *right
}
