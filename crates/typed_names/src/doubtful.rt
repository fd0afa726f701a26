//! Enum names that could be read as another value: `undefined`, `Other`, K or F followed by digits, and
//! names that end in `_` followed by digits.

ghost use Rattle.std.specs.Prelude.{◌≡◌};
ghost use Rattle.murphi_typed.specs.Names.{is_digit, is_number_text, ends_in_number, is_node_text, is_doubtful};

fn is_digit(b: u8) -> bool
    ensures { result ≡ is_digit b }
{
    b >= 48 && b <= 57
}

/// Whether a text is a run of digits, at least one.
fn is_number_text(text: &[u8]) -> bool
    ensures { result ≡ is_number_text text.now }
{
    if text.is_empty() {
        return false;
    }
    for b in text {
        if !is_digit(*b) {
            return false;
        }
    }
    true
}

/// Whether a text ends in `_` followed by digits. It looks at each byte twice at most, since a run of
/// digits ends at the next `_`.
fn ends_in_number(text: &[u8]) -> bool
    ensures { result ≡ ends_in_number text.now }
{
    for i in 0..text.len() {
        if text[i] == 95 {
            if is_number_text(&text[i + 1..]) {
                return true;
            }
        }
    }
    false
}

/// Whether a text is K or F followed by digits.
fn is_node_text(text: &[u8]) -> bool
    ensures { result ≡ is_node_text text.now }
{
    if text.is_empty() {
        return false;
    }
    if text[0] != 75 {
        if text[0] != 70 {
            return false;
        }
    }
    is_number_text(&text[1..])
}

/// Whether an enum name could be read as another value.
pub fn is_doubtful(name: &[u8]) -> bool
    ensures { result ≡ is_doubtful name.now }
{
    if name == b"undefined".as_slice() {
        return true;
    }
    if name == b"Other".as_slice() {
        return true;
    }
    if is_node_text(name) {
        return true;
    }
    ends_in_number(name)
}
