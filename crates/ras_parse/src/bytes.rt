//! Which bytes names, numbers and blanks are made of, and how far each goes.
ghost use Rattle.std.specs.Prelude.{◌≡◌, ◌≤◌, ◌<◌, ◌+◌, ◌-◌, ◌*◌, ◌^◌, length, false, MatchOption, pos};
ghost use Rattle.std.specs.List.{prefix_len};
ghost use Rattle.std.specs.Option.{SomeIff};
ghost use Rattle.spec_grammar.specs.Tokens as spec;

/// Whether a name may begin with the byte: with a letter or `_`.
pub fn begins_name(byte: u8) -> bool
    ensures { result ≡ spec.begins_name byte }
{
    byte.is_ascii_alphabetic() || byte == b'_'
}

/// Whether a name may go on with the byte: with a letter, `_` or a digit.
pub fn continues_name(byte: u8) -> bool
    ensures { result ≡ spec.continues_name byte }
{
    begins_name(byte) || byte.is_ascii_digit()
}

/// Whether the byte is a decimal digit.
pub fn is_digit(byte: u8) -> bool
    ensures { result ≡ spec.is_digit byte }
{
    byte.is_ascii_digit()
}

/// Whether the byte is a space, a tab, a carriage return or a line feed.
pub fn is_blank(byte: u8) -> bool
    ensures { result ≡ spec.is_blank byte }
{
    byte == b' ' || byte == b'\t' || byte == b'\r' || byte == b'\n'
}

/// A letter as a small one, any other byte as it is.
pub fn small(byte: u8) -> u8
    ensures { result ≡ spec.small byte }
{
    if byte.is_ascii_uppercase() {
        byte + 32
    } else {
        byte
    }
}

/// How many bytes a name may take at the front of a text.
pub fn name_len(text: &[u8]) -> usize
    ensures value { result ≡ prefix_len spec.continues_name text.now }
    ensures within { result ≤ length text.now }
{
    text.iter()
        .take_while(|byte| continues_name(**byte))
        .count()
}

/// How many digits a text begins with.
pub fn digits_len(text: &[u8]) -> usize
    ensures value { result ≡ prefix_len spec.is_digit text.now }
    ensures within { result ≤ length text.now }
{
    text.iter().take_while(|byte| is_digit(**byte)).count()
}

/// How many bytes before the next token are blanks or of comments.
pub fn space_len(text: &[u8]) -> usize
    ensures value { result ≡ spec.space_length false text.now }
    ensures within { result ≤ length text.now }
{
    let mut in_comment = false;
    for (at, byte) in text.iter().enumerate() {
        if in_comment {
            in_comment = *byte != b'\n';
        } else if !is_blank(*byte) {
            if !text[at..].starts_with(b"--") {
                return at;
            }
            in_comment = true;
        }
    }
    text.len()
}

/// Whether a text begins with a digit.
pub fn begins_with_digit(text: &[u8]) -> bool
    ensures { result ≡ spec.first_is spec.is_digit text.now }
{
    match text {
        [first, ..] => is_digit(*first),
        [] => false,
    }
}

/// Whether a text begins as a name does.
pub fn begins_with_name(text: &[u8]) -> bool
    ensures { result ≡ spec.first_is spec.begins_name text.now }
{
    match text {
        [first, ..] => begins_name(*first),
        [] => false,
    }
}

/// Whether what follows a number at once makes it a float: `.` with a digit, or `e`, `f` or `d`.
pub fn is_float_mark(text: &[u8]) -> bool
    ensures { result ≡ spec.is_float_mark text.now }
{
    let [first, others @ ..] = text else {
        return false;
    };
    (*first == b'.' && begins_with_digit(others))
        || *first == b'd'
        || *first == b'e'
        || *first == b'f'
}

/// The value of digits with one more behind them, or None where it is 2^64 or more.
fn with_digit(value: u64, digit: u8) -> Option<u64>
    ensures { SomeIff result (10 * value + (digit - 48) < 2 ^ 64) (10 * value + (digit - 48)) }
{
    value
        .checked_mul(10)?
        .checked_add(u64::from(digit.saturating_sub(b'0')))
}

/// The value of decimal digits, or None where it is 2^63 or more.
pub fn value_of(digits: &[u8]) -> Option<i64>
    ensures { MatchOption result (2 ^ 63 ≤ spec.value_of digits.now) (λ value. value ≡ pos (spec.value_of digits.now)) }
{
    let mut value = 0u64;
    for digit in digits {
        let Some(more) = with_digit(value, *digit) else {
            return None;
        };
        value = more;
    }
    i64::try_from(value).ok()
}
