// The bytes of names, and the characters of comments, one at a time.
#![tactic(auto)]

ghost use Rattle.std.specs.Prelude.{◌≡◌, ◌<◌, length, drop};
ghost use Rattle.paper.specs.Lexical.{hits_byte, letter, letter_or_digit, tail};
ghost use Rattle.text_characters.specs.Characters.{second_of, wide_size, character_size};

// Name :: /[_A-Za-z][_0-9A-Za-z]*/ (draft 2.1.9): whether a byte may start a name, and whether it may go on with one. The most frequent come first.
pub fn starts_name(b: u8) -> bool
    ensures { result ≡ hits_byte letter b }
{
    if b'a' <= b {
        return b <= b'z';
    }
    if b <= b'Z' {
        return b'A' <= b;
    }
    b == b'_'
}

pub fn in_name(b: u8) -> bool
    ensures { result ≡ hits_byte letter_or_digit b }
{
    if b'a' <= b {
        return b <= b'z';
    }
    if b <= b'9' {
        return b'0' <= b;
    }
    if b <= b'Z' {
        return b'A' <= b;
    }
    b == b'_'
}

// Whether a byte goes on with a character of UTF-8.
pub fn is_tail(b: u8) -> bool
    ensures { result ≡ hits_byte tail b }
{
    if b < 128 {
        return false;
    }
    b < 192
}

// Whether a byte may stand second in a character of three bytes that starts with `lead`: E0 bars overlong forms, ED surrogates.
pub fn is_second(lead: u8, b: u8) -> bool
    ensures { result ≡ hits_byte (second_of lead) b }
{
    if lead == 224 {
        if b < 160 {
            return false;
        }
        return is_tail(b);
    }
    if lead == 237 {
        if 159 < b {
            return false;
        }
        return is_tail(b);
    }
    is_tail(b)
}

// The size of the character of more than one byte at i, or 0.
pub fn wide(s: &[u8], i: usize) -> usize
    requires { i < length s.now }
    ensures { result ≡ wide_size (drop i s.now) }
{
    let b = s[i];
    if b < 194 {
        return 0;
    }
    if s.len() <= i + 1 {
        return 0;
    }
    if b < 224 {
        if is_tail(s[i + 1]) {
            return 2;
        }
        return 0;
    }
    if s.len() <= i + 2 {
        return 0;
    }
    if b < 240 {
        if is_second(b, s[i + 1]) {
            if is_tail(s[i + 2]) {
                return 3;
            }
        }
    }
    0
}

// The size of the character at i that may stand in a comment, or 0.
pub fn character(s: &[u8], i: usize) -> usize
    requires { i < length s.now }
    ensures { result ≡ character_size (drop i s.now) }
{
    let b = s[i];
    if b < b' ' {
        if b == 9 {
            return 1;
        }
        return 0;
    }
    if b < 128 {
        return 1;
    }
    wide(s, i)
}
