ghost use Rattle.std.specs.Prelude.{◌≡◌, ◌<◌, ◌%◌, ◌^◌, ◌==◌};
ghost use Rattle.der_text.specs.Content.{is_constructed, last_of, is_boolean, is_integer, is_bit_string, is_object_identifier, ends_arcs, is_primitive_content, keeps_rule};

/// Whether the tag has its constructed bit.
pub fn has_constructed_bit(tag: u8) -> bool
    ensures { result ≡ is_constructed tag }
{
    (tag / 32) % 2 == 1
}

fn keeps_boolean(content: &[u8]) -> bool
    ensures { result ≡ is_boolean content.now }
{
    match content {
        [b] => *b == 0 || *b == 255,
        _ => false,
    }
}

fn keeps_integer(content: &[u8]) -> bool
    ensures { result ≡ is_integer content.now }
{
    match content {
        [] => false,
        [_] => true,
        [b, c, ..] => !(*b == 0 && *c < 128) && !(*b == 255 && *c > 127),
    }
}

/// Whether the low bits of the last byte, so many of them, are zero.
fn has_zero_bits(unused: u8, first: u8, rest: &[u8]) -> bool
    requires { unused < 8 }
    ensures { result ≡ ((last_of first rest.now % 2 ^ unused) == 0) }
{
    let mut last = first;
    for b in rest {
        last = *b;
    }
    last % (1 << unused) == 0
}

fn keeps_bit_string(content: &[u8]) -> bool
    ensures { result ≡ is_bit_string content.now }
{
    match content {
        [] => false,
        [unused] => *unused == 0,
        [unused, first, rest @ ..] => *unused < 8 && has_zero_bits(*unused, *first, rest),
    }
}

/// Whether arcs end with the bytes, and none begins with 80.
fn has_whole_arcs(content: &[u8]) -> bool
    ensures { result ≡ ends_arcs 0 content.now }
{
    let mut before = 0;
    for b in content {
        if before < 128 && *b == 128 {
            return false;
        }
        before = *b;
    }
    before < 128
}

fn keeps_object_identifier(content: &[u8]) -> bool
    ensures { result ≡ is_object_identifier content.now }
{
    match content {
        [] => false,
        [_, ..] => has_whole_arcs(content),
    }
}

#[tactic(auto, unfolding(crate::specs::Content::is_primitive_content))]
fn keeps_primitive_rule(tag: u8, content: &[u8]) -> bool
    ensures { result ≡ is_primitive_content tag content.now }
{
    match tag {
        0 => false,
        1 => keeps_boolean(content),
        2 => keeps_integer(content),
        3 => keeps_bit_string(content),
        5 => content.is_empty(),
        6 => keeps_object_identifier(content),
        _ => tag != 16 && tag != 17,
    }
}

/// Whether the content is one that the tag allows.
#[tactic(auto, unfolding(crate::specs::Content::keeps_rule))]
pub fn keeps_tag_rule(tag: u8, content: &[u8]) -> bool
    ensures { result ≡ keeps_rule tag content.now }
{
    if tag < 32 {
        return keeps_primitive_rule(tag, content);
    }
    tag >= 64 || tag == 48 || tag == 49
}
