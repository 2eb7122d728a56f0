//! Strings in quotes (September 2025, section 2.10.4, String Value).
ghost use Rattle.std.specs.Prelude.{◌≡◌, ◌≢◌, ◌≤◌, ◌^◌, ◌∷◌, ℕ, [], true, false, IfSome, IfNone};
ghost use Rattle.std.specs.List.{list_all};
ghost use Rattle.std.specs.Char.{is_ascii_hexdigit};
ghost use Rattle.graphql_standard.specs.lexical.Strings.{IsHexadecimal, IsString, IsStringBody};
ghost use Rattle.graphql_standard.specs.lexical.Strings.{is_leading, is_trailing};
ghost use Rattle.graphql_standard.specs.steps.Escapes.{BeginsEscape, BeginsNoEscape, BeginsDigits, BeginsNoDigits};
ghost use Rattle.graphql_standard.specs.steps.Escapes.{BeginsPair, BeginsNoPair, is_source_byte};

fn are_hexadecimal(digits: &str) -> bool
    ensures { result ≡ list_all is_ascii_hexdigit digits.now }
{
    digits.bytes().all(|digit| digit.is_ascii_hexdigit())
}

/// The value of hexadecimal digits. `None` if there is none, one is no hexadecimal digit, or the value has more than 32
/// bits.
fn hexadecimal(digits: &str) -> Option<u32>
    ensures value { IfSome result (λ n. IsHexadecimal digits.now n) }
    ensures some { IfSome result (λ n. digits.now ≢ []) }
    ensures none { IfNone result ((n : ℕ) → digits.now ≢ [] → IsHexadecimal digits.now n → 2 ^ 32 ≤ n) }
{
    if !are_hexadecimal(digits) {
        return None;
    }
    u32::from_str_radix(digits, 16).ok()
}

/// The value of four hexadecimal digits at the front, and the rest.
fn four_digits(text: &str) -> Option<(u32, &str)>
    ensures digits { IfSome result (λ r. BeginsDigits text.now r.0 r.1.now) }
    ensures none { IfNone result (BeginsNoDigits text.now) }
{
    let (digits, after) = text.split_at_checked(4)?;
    let code = hexadecimal(digits)?;
    Some((code, after))
}

/// The character of an escape in braces, and the rest. `text` begins after the opening brace.
fn braced_escape(text: &str) -> Option<(char, &str)>
    ensures escapes { IfSome result (λ r. BeginsEscape (117 ∷ 123 ∷ text.now) r.0 r.1.now) }
    ensures none { IfNone result (BeginsNoEscape (117 ∷ 123 ∷ text.now)) }
{
    let (digits, after) = text.split_once('}')?;
    let code = hexadecimal(digits)?;
    let character = char::from_u32(code)?;
    Some((character, after))
}

fn is_leading(code: u32) -> bool
    ensures { result ≡ is_leading code }
{
    code >= 0xD800 && code <= 0xDBFF
}

fn is_trailing(code: u32) -> bool
    ensures { result ≡ is_trailing code }
{
    code >= 0xDC00 && code <= 0xDFFF
}

/// The character of two surrogates, and the rest. `text` begins after the digits of the first.
fn paired_escape(leading: u32, text: &str) -> Option<(char, &str)>
    ensures pairs { IfSome result (λ r. BeginsPair leading text.now r.0 r.1.now) }
    ensures none { IfNone result (BeginsNoPair leading text.now) }
{
    if !is_leading(leading) {
        return None;
    }
    let digits = text.strip_prefix('\\')?.strip_prefix('u')?;
    let (trailing, after) = four_digits(digits)?;
    if !is_trailing(trailing) {
        return None;
    }
    let character = char::from_u32((leading - 0xD800) * 1024 + (trailing - 0xDC00) + 0x10000)?;
    Some((character, after))
}

/// The character that an escape denotes, and the rest. `text` begins after the `u`.
fn unicode_escape(text: &str) -> Option<(char, &str)>
    ensures escapes { IfSome result (λ r. BeginsEscape (117 ∷ text.now) r.0 r.1.now) }
    ensures none { IfNone result (BeginsNoEscape (117 ∷ text.now)) }
{
    if let Some(digits) = text.strip_prefix('{') {
        return braced_escape(digits);
    }
    let (code, after) = four_digits(text)?;
    match char::from_u32(code) {
        Some(character) => Some((character, after)),
        None => paired_escape(code, after),
    }
}

/// Returns the character that the escape at the start of a text denotes, and the rest. The text begins after the
/// backslash. `None` if no escape begins it.
pub fn escape(text: &str) -> Option<(char, &str)>
    ensures escapes { IfSome result (λ r. BeginsEscape text.now r.0 r.1.now) }
    ensures none { IfNone result (BeginsNoEscape text.now) }
{
    let mut characters = text.chars();
    let character = match characters.next()? {
        '"' => '"',
        '\\' => '\\',
        '/' => '/',
        'b' => '\u{8}',
        'f' => '\u{C}',
        'n' => '\n',
        'r' => '\r',
        't' => '\t',
        'u' => return unicode_escape(characters.as_str()),
        _ => return None,
    };
    Some((character, characters.as_str()))
}

/// Whether the byte denotes itself in a string.
#[inline(always)]
fn is_source_byte(byte: u8) -> bool
    ensures { result ≡ is_source_byte byte }
{
    byte != b'"' && (byte != b'\\' && (byte != b'\n' && byte != b'\r'))
}

/// Whether each byte denotes itself in a string. The loop has no early end, so that the compiler can vectorize it.
fn is_plain(text: &str) -> bool
    ensures { result ≡ list_all is_source_byte text.now }
{
    let bytes = text.as_bytes();
    let mut is_plain = true;
    'bytes: for byte in bytes {
        is_plain &= is_source_byte(*byte);
    }
    is_plain
}

/// Whether `body` can be between the quotes of a string: each character can be in a string, and each escape denotes a
/// character.
fn is_string_body(body: &str) -> bool
    ensures valid { result ≡ true → IsStringBody body.now }
    ensures invalid { result ≡ false → IsStringBody body.now → ⊥ }
{
    if is_plain(body) {
        return true;
    }
    let mut rest = body;
    'escapes: while let Some((plain, escaped)) = rest.split_once('\\') {
        if !is_plain(plain) {
            return false;
        }
        match escape(escaped) {
            None => return false,
            Some((_, after)) => rest = after,
        }
    }
    is_plain(rest)
}

/// Whether `text` is a string in quotes.
pub fn is_string(text: &str) -> bool
    ensures valid { result ≡ true → IsString text.now }
    ensures invalid { result ≡ false → IsString text.now → ⊥ }
{
    match text.strip_prefix('"') {
        None => false,
        Some(rest) => match rest.strip_suffix('"') {
            None => false,
            Some(body) => is_string_body(body),
        },
    }
}
