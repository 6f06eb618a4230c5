//! The parts of an issue value.
ghost use Rattle.std.specs.Prelude.{◌≡◌, ◌==◌, ◌<◌, true, length, IfSome};
ghost use Rattle.std.specs.List.{list_all, position};
ghost use Rattle.std.specs.Option.{option_map};
ghost use Rattle.caa_climb.specs.IssueValue.{is_blank, is_value_byte};
ghost use Rattle.caa_climb.specs.Reading.{cut_at, without_lead, without_trail, trimmed, is_label, is_label_rest, is_domain, is_piece, are_pieces, has_value, last_piece, ended};

/// What stands before and behind the first such byte.
pub fn cut(text: &[u8], byte: u8) -> Option<(&[u8], &[u8])>
    ensures sides { option_map (λ p. (p.0.now, p.1.now)) result ≡ cut_at byte text.now }
    ensures shorter { IfSome result (λ p. length p.1.now < length text.now) }
{
    match first_place(text, byte) {
        Some(at) => Some((&text[..at], &text[at + 1..])),
        None => None,
    }
}

fn first_place(text: &[u8], byte: u8) -> Option<usize>
    ensures within { IfSome result (λ at. at < length text.now) }
    ensures place { result ≡ position (λ b. b == byte) text.now }
{
    text.iter().position(|b| *b == byte)
}

/// The bytes from the first that is no blank.
pub fn without_lead(text: &[u8]) -> &[u8]
    ensures { result.now ≡ without_lead text.now }
{
    let mut text = text;
    while let Some((first, rest)) = text.split_first() {
        if !is_blank(*first) {
            break;
        }
        text = rest;
    }
    text
}

/// The bytes up to the last that is no blank.
pub fn without_trail(text: &[u8]) -> &[u8]
    ensures { result.now ≡ without_trail text.now }
{
    let mut text = text;
    while let Some((last, rest)) = text.split_last() {
        if !is_blank(*last) {
            break;
        }
        text = rest;
    }
    text
}

pub fn trimmed(text: &[u8]) -> &[u8]
    ensures { result.now ≡ trimmed text.now }
{
    without_trail(without_lead(text))
}

fn is_blank(b: u8) -> bool
    ensures { result ≡ is_blank b }
{
    b == b' ' || b == b'\t'
}

fn is_value_byte(b: u8) -> bool
    ensures { result ≡ is_value_byte b }
{
    b'!' <= b && b <= b'~' && b != b';'
}

/// Labels between dots.
pub fn is_domain(text: &[u8]) -> bool
    ensures { result ≡ is_domain text.now }
{
    let mut rest = text;
    'pieces: while let Some((label, after)) = cut(rest, b'.') {
        if !is_label(label) {
            return false;
        }
        rest = after;
    }
    is_label(rest)
}

/// Letters and digits, and hyphens between them.
fn is_label(text: &[u8]) -> bool
    ensures { result ≡ is_label text.now }
{
    match text.split_first() {
        Some((first, rest)) => first.is_ascii_alphanumeric() && is_label_rest(rest),
        None => false,
    }
}

/// The rest of a label, where a letter or digit stood last.
fn is_label_rest(text: &[u8]) -> bool
    ensures { result ≡ is_label_rest true text.now }
{
    let mut rest = text;
    let mut closed = true;
    while let Some((b, after)) = rest.split_first() {
        if b.is_ascii_alphanumeric() {
            closed = true;
        } else if *b == b'-' {
            closed = false;
        } else {
            return false;
        }
        rest = after;
    }
    closed
}

/// Parameters between semicolons, with blanks around them.
pub fn are_pieces(text: &[u8]) -> bool
    ensures { result ≡ are_pieces text.now }
{
    let mut rest = text;
    'pieces: while let Some((piece, after)) = cut(rest, b';') {
        if !is_piece(piece) {
            return false;
        }
        rest = after;
    }
    is_piece(rest)
}

/// A tag, the equals sign and a value, with blanks around them.
fn is_piece(piece: &[u8]) -> bool
    ensures { result ≡ is_piece piece.now }
{
    match cut(piece, b'=') {
        Some((tag, value)) => is_label(trimmed(tag)) && is_value(trimmed(value)),
        None => false,
    }
}

fn is_value(text: &[u8]) -> bool
    ensures { result ≡ list_all is_value_byte text.now }
{
    text.iter().all(|b| is_value_byte(*b))
}

/// Whether the value of a parameter has a byte.
fn has_value(piece: &[u8]) -> bool
    ensures { result ≡ has_value piece.now }
{
    match cut(piece, b'=') {
        Some((_, value)) => !trimmed(value).is_empty(),
        None => false,
    }
}

/// What stands behind the last semicolon, or all where there is none.
fn last_piece(text: &[u8]) -> &[u8]
    ensures { result.now ≡ last_piece text.now text.now }
{
    let mut rest = text;
    let mut piece = text;
    while let Some((b, after)) = rest.split_first() {
        if *b == b';' {
            piece = after;
        }
        rest = after;
    }
    piece
}

/// Parameters without the blanks behind them; those behind a last equals sign are its own.
pub fn ended(text: &[u8]) -> &[u8]
    ensures { result.now ≡ ended text.now }
{
    if has_value(last_piece(text)) {
        without_trail(text)
    } else {
        text
    }
}
