//! Kinds of byte, and how far from the front of a text bytes of one kind go on.

ghost use Rattle.std.specs.Prelude.{◌≡◌, ◌<◌, ◌≤◌, ◌+◌, ◌==◌, ◌&&◌, length, slice_index, IfSome, IsTrue};
ghost use Rattle.std.specs.List.{prefix_len};
ghost use Rattle.murphi_ast.specs.Bytes.{is_word_byte, is_white, is_allowed, is_string_byte};
ghost use Rattle.murphi_lex.specs.Scanning.{belongs, closing, number_value};

/// The kinds of byte that may go on over many: behind the first letter of a word, in a number,
/// between the quotes of a string, and in a comment behind `--`.
#[derive(Clone, Copy)]
pub enum Run {
    Word,
    Digits,
    String,
    Line,
}

/// The byte at an index, or 0, which no token has, behind the last.
pub fn byte_at(bytes: &[u8], i: usize) -> u8
    ensures { result ≡ slice_index bytes.now i }
{
    if i < bytes.len() { bytes[i] } else { 0 }
}

pub fn is_white(b: u8) -> bool
    ensures { result ≡ is_white b }
{
    b == b' ' || b == b'\t' || b == b'\n' || b == b'\r'
}

pub fn is_allowed(b: u8) -> bool
    ensures { result ≡ is_allowed b }
{
    (32 <= b && b <= 126) || is_white(b)
}

fn is_word_byte(b: u8) -> bool
    ensures { result ≡ is_word_byte b }
{
    b.is_ascii_alphabetic() || b.is_ascii_digit() || b == b'_'
}

fn is_string_byte(b: u8) -> bool
    ensures { result ≡ is_string_byte b }
{
    (32 <= b && b <= 126) && b != b'"'
}

fn belongs(run: Run, b: u8) -> bool
    ensures { result ≡ belongs run b }
{
    match run {
        Run::Word => is_word_byte(b),
        Run::Digits => b.is_ascii_digit(),
        Run::String => is_string_byte(b),
        Run::Line => b != b'\n',
    }
}

/// How many bytes from the front on belong to the run.
pub fn run_length(run: Run, bytes: &[u8]) -> usize
    ensures is { result ≡ prefix_len (belongs run) bytes.now }
    ensures within { result ≤ length bytes.now }
{
    let mut n = 0;
    for b in bytes {
        if !belongs(run, *b) {
            return n;
        }
        n += 1;
    }
    n
}

/// How many bytes there are up to the first `*/` and with it.
#[tactic(auto, using(crate::proofs::ByteLemmas::closings))]
pub fn closing(bytes: &[u8]) -> Option<usize>
    ensures is { result ≡ closing bytes.now }
    ensures within { IfSome result (λ n. n ≤ length bytes.now) }
{
    for i in 0..bytes.len() {
        if closes(bytes, i) {
            return Some(i + 2);
        }
    }
    None
}

/// Whether `*/` stands at an index.
fn closes(bytes: &[u8], i: usize) -> bool
    requires { i < length bytes.now }
    ensures is { result ≡ (slice_index bytes.now i == 42 && slice_index bytes.now (i + 1) == 47) }
    ensures within { IsTrue result → i + 2 ≤ length bytes.now }
{
    let (b, c) = (byte_at(bytes, i), byte_at(bytes, i + 1));
    b == b'*' && c == b'/'
}

/// The value of a run of digits, where it is at most 32,767.
#[tactic(auto, using(crate::proofs::ByteLemmas::too_great))]
pub fn number_value(digits: &[u8]) -> Option<u16>
    ensures { result ≡ number_value digits.now }
{
    let mut value = 0u32;
    for d in digits {
        value = value * 10 + u32::from(d.saturating_sub(b'0'));
        if value > 32767 {
            return None;
        }
    }
    Some(value as u16)
}
