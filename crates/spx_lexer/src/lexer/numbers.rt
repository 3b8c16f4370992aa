// Numbers: digits, or a base and digits of it between two `#`; and an exponent, where one comes after them.
ghost use Rattle.std.specs.Prelude.{◌≡◌, ◌≤◌, ◌<◌, ◌^◌, ◌*◌, ◌+◌, ◌&&◌, ◌||◌, length, min, IfSome};
ghost use Rattle.std.specs.Char as chars;
ghost use Rattle.spx_tree.specs.Lexemes as lexemes;
ghost use Rattle.spx_tree.specs.Numbers as numbers;
ghost use Rattle.spx_lexer.specs.Pieces as spec;

// The greatest value that is kept, one more than a text may have. After a minus sign it is the least value of 128 bits.
const MOST: u128 = 1 << 127;

// With this exponent, and with each greater one, 0 is the only number that is not too wide: a base is 2 at least.
const MOST_EXPONENT: u8 = 128;

/// The digits of a number, with their base where it is written.
#[derive(Clone, Copy, PartialEq, Eq)]
struct Digits {
    /// How many bytes they have, with those of the base.
    len: usize,
    base: u8,
    /// Their value, where it is not too wide.
    value: Option<u128>,
}

#[derive(Clone, Copy, PartialEq, Eq)]
struct Exponent {
    len: usize,
    /// Its value, or `MOST_EXPONENT` where that is less.
    value: u8,
}

#[derive(Clone, Copy, PartialEq, Eq)]
pub(super) struct Number {
    pub len: usize,
    /// Its value, where it is not too wide.
    pub value: Option<u128>,
}

// The value of a digit or a letter, and 36 of any other byte.
fn digit_value(byte: u8) -> u8
    ensures value { result ≡ chars.digit_value byte }
    ensures most { result ≤ 36 }
{
    match byte {
        b'0'..=b'9' => byte - b'0',
        b'A'..=b'Z' => byte - b'A' + 10,
        b'a'..=b'z' => byte - b'a' + 10,
        _ => 36,
    }
}

#[tactic(auto, unfolding(crate::specs::Pieces::is_digit))]
fn is_digit(base: u8, byte: u8) -> bool
    ensures { result ≡ spec.is_digit base byte }
{
    digit_value(byte) < base
}

// How many bytes go on with a numeral: digits of its base, with single underscores between them.
fn numeral_rest_len(base: u8, bytes: &[u8]) -> usize
    ensures value { result ≡ spec.numeral_rest_len base bytes.now }
    ensures within { result ≤ length bytes.now }
{
    let mut rest = bytes;
    loop {
        match rest {
            [b, after @ ..] if is_digit(base, *b) => rest = after,
            [b'_', b, after @ ..] if is_digit(base, *b) => rest = after,
            _ => return bytes.len() - rest.len(),
        }
    }
}

// How many bytes the numeral has with which these bytes begin.
fn numeral_len(base: u8, bytes: &[u8]) -> usize
    ensures value { result ≡ spec.numeral_len base bytes.now }
    ensures within { result ≤ length bytes.now }
{
    match bytes {
        [first, rest @ ..] if is_digit(base, *first) => numeral_rest_len(base, rest) + 1,
        _ => 0,
    }
}

// `value * base + digit`, where it is not too wide.
fn step(value: u128, base: u8, digit: u8) -> Option<u128>
    requires base { 1 ≤ base }
    requires digit { digit ≤ 36 }
    ensures { result ≡ spec.fitting (value * base + digit) }
{
    let base = u128::from(base);
    let digit = u128::from(digit);
    if value > (MOST - digit) / base {
        return None;
    }
    Some(value * base + digit)
}

// The value of a numeral, where it is not too wide. Underscores do not count.
fn numeral_value(base: u8, numeral: &[u8]) -> Option<u128>
    requires { 1 ≤ base }
    ensures { result ≡ spec.fitting (numbers.numeral_value base numeral.now) }
{
    let mut value = 0;
    let mut rest = numeral;
    while let [byte, after @ ..] = rest {
        if *byte != b'_' {
            value = step(value, base, digit_value(*byte))?;
        }
        rest = after;
    }
    Some(value)
}

// The base that a numeral of this value writes.
#[tactic(auto, unfolding(crate::specs::Pieces::base_of))]
fn base_of(value: Option<u128>) -> Option<u8>
    ensures value { result ≡ spec.base_of value }
    ensures least { IfSome result (λ base. 2 ≤ base) }
{
    match value {
        Some(base) if 2 <= base && base <= 16 => Some(base as u8),
        _ => None,
    }
}

// The digits with which these bytes begin, where `#` closes them; another `#` comes before them.
#[tactic(auto, unfolding(crate::specs::Pieces::closed_digits))]
fn closed_digits(base: u8, bytes: &[u8]) -> Option<Digits>
    requires { 1 ≤ base }
    ensures value { result ≡ spec.closed_digits base bytes.now }
    ensures base { IfSome result (λ digits. 1 ≤ digits.base) }
    ensures within { IfSome result (λ digits. digits.len ≤ length bytes.now + 1) }
{
    let len = numeral_len(base, bytes);
    let (digits, following) = bytes.split_at(len);
    match following {
        [b'#', ..] if len > 0 => Some(Digits {
            len: len + 2,
            base,
            value: numeral_value(base, digits),
        }),
        _ => None,
    }
}

// The digits of this base between two `#` with which these bytes begin.
fn based_digits(base: Option<u8>, bytes: &[u8]) -> Option<Digits>
    requires { IfSome base (λ base. 1 ≤ base) }
    ensures value { result ≡ spec.based_digits base bytes.now }
    ensures base { IfSome result (λ digits. 1 ≤ digits.base) }
    ensures within { IfSome result (λ digits. digits.len ≤ length bytes.now) }
{
    match (base, bytes) {
        (Some(base), [b'#', digits @ ..]) => closed_digits(base, digits),
        _ => None,
    }
}

// The digits with which these bytes begin, and their base.
#[tactic(auto, unfolding(crate::specs::Pieces::digits_at))]
fn digits_at(bytes: &[u8]) -> Digits
    ensures value { result ≡ spec.digits_at bytes.now }
    ensures base { 1 ≤ result.base }
    ensures within { result.len ≤ length bytes.now }
{
    let len = numeral_len(10, bytes);
    let (whole, following) = bytes.split_at(len);
    let value = numeral_value(10, whole);
    match based_digits(base_of(value), following) {
        Some(digits) => Digits {
            len: len + digits.len,
            base: digits.base,
            value: digits.value,
        },
        None => Digits {
            len,
            base: 10,
            value,
        },
    }
}

// The value of an exponent, or `MOST_EXPONENT` where that is less.
fn exponent_value(digits: &[u8]) -> u8
    ensures { result ≡ min (numbers.numeral_value 10 digits.now) 128 }
{
    let Some(value) = numeral_value(10, digits) else {
        return MOST_EXPONENT;
    };
    if value < u128::from(MOST_EXPONENT) {
        value as u8
    } else {
        MOST_EXPONENT
    }
}

// The exponent whose digits these bytes begin with, if they do; so many of its bytes come before them.
#[tactic(auto, unfolding(crate::specs::Pieces::exponent_by))]
fn exponent_by(before: usize, bytes: &[u8]) -> Exponent
    requires { before ≤ 2 }
    ensures value { result ≡ spec.exponent_by before bytes.now }
    ensures within { result.len ≤ length bytes.now + before }
{
    let len = numeral_len(10, bytes);
    if len == 0 {
        return Exponent { len: 0, value: 0 };
    }
    let (digits, _) = bytes.split_at(len);
    Exponent {
        len: before + len,
        value: exponent_value(digits),
    }
}

// The exponent with which these bytes begin, or else none, which is 0.
fn exponent_at(bytes: &[u8]) -> Exponent
    ensures value { result ≡ spec.exponent_at bytes.now }
    ensures within { result.len ≤ length bytes.now }
{
    match bytes {
        [b'E' | b'e', b'+', digits @ ..] => exponent_by(2, digits),
        [b'E' | b'e', digits @ ..] => exponent_by(1, digits),
        _ => Exponent { len: 0, value: 0 },
    }
}

// `value * base ** exponent`, where it is not too wide.
fn scaled(value: u128, base: u8, exponent: u8) -> Option<u128>
    requires base { 1 ≤ base }
    requires value { value ≤ 2 ^ 127 }
    ensures { result ≡ spec.fitting (value * base ^ exponent) }
{
    let mut product = value;
    for i in 0..exponent {
        product = step(product, base, 0)?;
    }
    Some(product)
}

// The value of a number of these digits, where it is not too wide.
fn value_of(digits: Digits, exponent: u8) -> Option<u128>
    requires base { 1 ≤ digits.base }
    requires value { IfSome digits.value (λ value. value ≤ 2 ^ 127) }
    ensures { result ≡ spec.value_of digits exponent }
{
    scaled(digits.value?, digits.base, exponent)
}

// The longest number with which these bytes begin.
#[tactic(auto, unfolding(crate::specs::Pieces::number_in))]
pub(super) fn number_in(bytes: &[u8]) -> Number
    ensures value { result ≡ spec.number_in bytes.now }
    ensures within { result.len ≤ length bytes.now }
{
    let digits = digits_at(bytes);
    let (_, following) = bytes.split_at(digits.len);
    let exponent = exponent_at(following);
    Number {
        len: digits.len + exponent.len,
        value: value_of(digits, exponent.value),
    }
}

// The value as a number with a sign, where a text may have it.
pub(super) fn as_integer(value: Option<u128>) -> Option<i128>
    ensures { result ≡ spec.as_integer value }
{
    match value {
        Some(value) if value < MOST => Some(value as i128),
        _ => None,
    }
}

// How many bytes the number has with which these bytes begin, if it is `MOST`.
#[tactic(auto, unfolding(crate::specs::Pieces::least_len))]
pub(super) fn least_len(bytes: &[u8]) -> Option<usize>
    ensures value { result ≡ spec.least_len bytes.now }
    ensures within { IfSome result (λ len. len ≤ length bytes.now) }
{
    let number = number_in(bytes);
    match number.value {
        Some(MOST) => Some(number.len),
        _ => None,
    }
}

fn begins_with_digit(bytes: &[u8]) -> bool
    ensures { result ≡ lexemes.begins_with_digit bytes.now }
{
    match bytes {
        [first, ..] => first.is_ascii_digit(),
        [] => false,
    }
}

// Whether these bytes spoil a number that stands before them.
pub(super) fn spoils_number(bytes: &[u8]) -> bool
    ensures { result ≡ lexemes.spoils_number bytes.now }
{
    match bytes {
        [first, rest @ ..] => {
            first.is_ascii_alphanumeric()
                || *first == b'_'
                || *first == b'#'
                || *first == b'.' && begins_with_digit(rest)
        }
        [] => false,
    }
}
