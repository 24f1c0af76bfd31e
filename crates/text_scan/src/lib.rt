// The parts of strings and comments; words; and tokens.
#![tactic(auto)]

ghost use Rattle.std.specs.Prelude.{◌≡◌, ◌+◌, ◌-◌, ◌≤◌, ◌<◌, length, take, drop};
ghost use Rattle.paper.specs.Lexical.{hits_byte, hex, escaped};
ghost use Rattle.paper.specs.Tokens.{same};
ghost use Rattle.text_characters.specs.Characters.{fits, character_size};
ghost use Rattle.text_scan.specs.Head.{word_of};
ghost use Rattle.text_scan.specs.Parts.{four_hex, escaped_size, with_one, part_size, Ended};

use text_characters::character;

// A token: its kind, and where it starts and ends. A reader of tokens answers Ok with the one at a place, or Err with the offset of bytes that
// start none (also of a string or a comment with bad text).
#[derive(Clone, Copy)]
pub struct Token {
    pub kind: u32,
    pub start: usize,
    pub end: usize,
}

// The kinds of tokens; at the end of the text stands one of no bytes. A punctuator of one byte has that byte for its kind.
pub const TOKEN_END: u32 = 0;

pub const TOKEN_NAME: u32 = 1;

pub const TOKEN_INT: u32 = 2;

pub const TOKEN_FLOAT: u32 = 3;

pub const TOKEN_STRING: u32 = 4;

pub const TOKEN_SPREAD: u32 = 5;

pub const TOKEN_BANG: u32 = b'!' as u32;

pub const TOKEN_DOLLAR: u32 = b'$' as u32;

pub const TOKEN_PAREN_OPEN: u32 = b'(' as u32;

pub const TOKEN_PAREN_CLOSE: u32 = b')' as u32;

pub const TOKEN_COLON: u32 = b':' as u32;

pub const TOKEN_EQUALS: u32 = b'=' as u32;

pub const TOKEN_AT: u32 = b'@' as u32;

pub const TOKEN_BRACKET_OPEN: u32 = b'[' as u32;

pub const TOKEN_BRACKET_CLOSE: u32 = b']' as u32;

pub const TOKEN_BRACE_OPEN: u32 = b'{' as u32;

pub const TOKEN_BAR: u32 = b'|' as u32;

pub const TOKEN_BRACE_CLOSE: u32 = b'}' as u32;

// The names that the grammar tells apart.
pub const WORD_OTHER: u32 = 0;

pub const WORD_QUERY: u32 = 1;

pub const WORD_MUTATION: u32 = 2;

pub const WORD_SUBSCRIPTION: u32 = 3;

pub const WORD_FRAGMENT: u32 = 4;

pub const WORD_ON: u32 = 5;

pub const WORD_TRUE: u32 = 6;

pub const WORD_FALSE: u32 = 7;

pub const WORD_NULL: u32 = 8;

// Whether a byte is a hex digit.
pub fn is_hex(b: u8) -> bool
    ensures { result ≡ hits_byte hex b }
{
    if b < b'0' {
        return false;
    }
    if b < b':' {
        return true;
    }
    if b < b'A' {
        return false;
    }
    if b < b'G' {
        return true;
    }
    if b < b'a' {
        return false;
    }
    b < b'g'
}

// Whether a byte may stand after a backslash, `u` apart.
pub fn is_escaped(b: u8) -> bool
    ensures { result ≡ hits_byte escaped b }
{
    if b == b'"' {
        return true;
    }
    if b == b'\\' {
        return true;
    }
    if b == b'/' {
        return true;
    }
    if b == b'b' {
        return true;
    }
    if b == b'f' {
        return true;
    }
    if b == b'n' {
        return true;
    }
    if b == b'r' {
        return true;
    }
    b == b't'
}

// Whether four hex digits stand at i.
pub fn four_hex(s: &[u8], i: usize) -> bool
    requires { i ≤ length s.now }
    ensures { result ≡ fits four_hex (drop i s.now) }
{
    if s.len() - i < 4 {
        return false;
    }
    if is_hex(s[i]) {
        if is_hex(s[i + 1]) {
            if is_hex(s[i + 2]) {
                return is_hex(s[i + 3]);
            }
        }
    }
    false
}

// The size of the escape whose backslash stands at i, or 0.
pub fn escape(s: &[u8], i: usize) -> usize
    requires { i < length s.now }
    ensures { result ≡ with_one (escaped_size (drop (i + 1) s.now)) }
{
    if s.len() <= i + 1 {
        return 0;
    }
    let b = s[i + 1];
    if b == b'u' {
        if four_hex(s, i + 2) {
            return 6;
        }
        return 0;
    }
    if is_escaped(b) {
        return 2;
    }
    0
}

// The size of what stands at i in a string, or 0 where that is no part of one.
pub fn string_part(s: &[u8], i: usize) -> usize
    requires { i < length s.now }
    ensures { result ≡ part_size (drop i s.now) }
{
    let b = s[i];
    if b == b'\\' {
        return escape(s, i);
    }
    if b == b'"' {
        return 0;
    }
    character(s, i)
}

// One past the last of the characters of a string that stand from `from` on.
pub fn string_end(s: &[u8], from: usize) -> usize
    requires { from ≤ length s.now }
    ensures { Ended part_size s.now from result }
{
    let mut i = from;
    while i < s.len() {
        let n = string_part(s, i);
        if n == 0 {
            return i;
        }
        i += n;
    }
    i
}

// One past the last of a comment's characters that stand from `from` on.
pub fn comment_end(s: &[u8], from: usize) -> usize
    requires { from ≤ length s.now }
    ensures { Ended character_size s.now from result }
{
    let mut i = from;
    while i < s.len() {
        let n = character(s, i);
        if n == 0 {
            return i;
        }
        i += n;
    }
    i
}

// Whether the bytes of s from `at` on begin with those of w.
pub fn begins(s: &[u8], at: usize, w: &[u8]) -> bool
    requires { at + length w.now ≤ length s.now }
    ensures { result ≡ same (take (length w.now) (drop at s.now)) w.now }
{
    &s[at..at + w.len()] == w
}

// Which of the words the name from `start` to `end` is.
pub fn word(s: &[u8], start: usize, end: usize) -> u32
    requires { (start ≤ end) × (end ≤ length s.now) }
    ensures { result ≡ word_of (take (end - start) (drop start s.now)) }
{
    let n = end - start;
    if n == 2 {
        if begins(s, start, b"on") {
            return WORD_ON;
        }
        return WORD_OTHER;
    }
    if n == 4 {
        if begins(s, start, b"true") {
            return WORD_TRUE;
        }
        if begins(s, start, b"null") {
            return WORD_NULL;
        }
        return WORD_OTHER;
    }
    if n == 5 {
        if begins(s, start, b"query") {
            return WORD_QUERY;
        }
        if begins(s, start, b"false") {
            return WORD_FALSE;
        }
        return WORD_OTHER;
    }
    if n == 8 {
        if begins(s, start, b"mutation") {
            return WORD_MUTATION;
        }
        if begins(s, start, b"fragment") {
            return WORD_FRAGMENT;
        }
        return WORD_OTHER;
    }
    if n == 12 {
        if begins(s, start, b"subscription") {
            return WORD_SUBSCRIPTION;
        }
    }
    WORD_OTHER
}
