// Reads one token of a text at a time, by longest match: Ok with the token, or Err with the offset of bytes that start none.
#![tactic(auto)]

ghost use Rattle.std.specs.Prelude.{◌≡◌, ◌+◌, ◌-◌, ◌≤◌, ◌<◌, false, cond, length, take, drop, get_or};
ghost use Rattle.paper.specs.Lexical.{hits_byte, letter_or_digit, digit};
ghost use Rattle.paper.specs.Numbers.{most_text};
ghost use Rattle.paper.proofs.Lexing.{from};
ghost use Rattle.text_scan.specs.Head.{head_of};
ghost use Rattle.text_scan.specs.Piece.{token_here, ignored_here};
ghost use Rattle.text_scan.specs.Run.{run_of, starts_with, fraction_size, sign_size, exponent_size, whole_size};
ghost use Rattle.text_tokens.specs.Packed.{Fits, packed_of, unpacked_of};
ghost use Rattle.text_tokens.specs.Skip.{Other, Numeric, is_punctuator, is_blank};

use text_characters::{in_name, starts_name};
use text_scan::{TOKEN_END, TOKEN_FLOAT, TOKEN_INT, TOKEN_NAME, TOKEN_SPREAD, Token};
use text_strings::{comment, string};

// A token in one number: its kind, above two places of 16 bits; and what stands for the kind where there is none.
const PLACES: u64 = 65536;

const TWO_PLACES: u64 = PLACES * PLACES;

const NO_KIND: u64 = 127;

pub fn is_digit(b: u8) -> bool
    ensures { result ≡ hits_byte digit b }
{
    if b < b'0' {
        return false;
    }
    b < b':'
}

// Whether the byte order mark stands at i.
pub fn is_mark(s: &[u8], i: usize) -> bool
    requires { (i < length s.now) × (get_or s.now i 0 ≡ 239) }
    ensures { cond result 3 0 ≡ ignored_here (drop i s.now) }
{
    if s.len() - i < 3 {
        return false;
    }
    if s[i + 1] == 187 {
        return s[i + 2] == 191;
    }
    false
}

// Whether a byte is ignored by itself. The space comes first and the others lie below '-', so that a name is asked two questions.
fn is_blank(b: u8) -> bool
    ensures { result ≡ is_blank b }
{
    if b == b' ' {
        return true;
    }
    if b'-' <= b {
        return false;
    }
    if b == b'\n' {
        return true;
    }
    if b == b',' {
        return true;
    }
    if b == b'\r' {
        return true;
    }
    if b == b'\t' {
        return true;
    }
    false
}

// The size of the comment or the byte order mark at i, where no blank stands, or 0.
fn ignored(s: &[u8], i: usize) -> usize
    requires { (i < length s.now) × (is_blank (get_or s.now i 0) ≡ false) }
    ensures { result ≡ ignored_here (drop i s.now) }
{
    let b = s[i];
    if b == b'#' {
        return comment(s, i);
    }
    if b == 239 {
        if is_mark(s, i) {
            return 3;
        }
    }
    0
}

// One past the last of the name's characters that stand from `from` on.
pub fn name_end(s: &[u8], from: usize) -> usize
    requires { from ≤ length s.now }
    ensures { result ≡ from + run_of letter_or_digit (drop from s.now) }
{
    for i in from..s.len() {
        if !in_name(s[i]) {
            return i;
        }
    }
    s.len()
}

// One past the last of the digits that stand from `from` on.
pub fn digits_end(s: &[u8], from: usize) -> usize
    requires { from ≤ length s.now }
    ensures { result ≡ from + run_of digit (drop from s.now) }
{
    for i in from..s.len() {
        if !is_digit(s[i]) {
            return i;
        }
    }
    s.len()
}

// Whether a digit stands at i.
pub fn digit_at(s: &[u8], i: usize) -> bool
    ensures { result ≡ starts_with digit (drop i s.now) }
{
    if i < s.len() {
        return is_digit(s[i]);
    }
    false
}

// One past the fraction at i, or i where there is none.
pub fn fraction_end(s: &[u8], i: usize) -> usize
    requires { i ≤ length s.now }
    ensures { result ≡ i + fraction_size (drop i s.now) }
{
    if i < s.len() {
        if s[i] == b'.' {
            if digit_at(s, i + 1) {
                return digits_end(s, i + 2);
            }
        }
    }
    i
}

// One past the sign at i, or i where there is none.
pub fn sign_end(s: &[u8], i: usize) -> usize
    requires { i ≤ length s.now }
    ensures { result ≡ i + sign_size (drop i s.now) }
{
    if i < s.len() {
        let b = s[i];
        if b == b'+' {
            return i + 1;
        }
        if b == b'-' {
            return i + 1;
        }
    }
    i
}

// One past the exponent at i, or i where there is none.
pub fn exponent_end(s: &[u8], i: usize) -> usize
    requires { i ≤ length s.now }
    ensures { result ≡ i + exponent_size (drop i s.now) }
{
    if s.len() <= i {
        return i;
    }
    let b = s[i];
    if b != b'E' {
        if b != b'e' {
            return i;
        }
    }
    let d = sign_end(s, i + 1);
    if digit_at(s, d) {
        return digits_end(s, d + 1);
    }
    i
}

// One past the integer part whose first digit stands at i.
pub fn whole_end(s: &[u8], i: usize) -> usize
    requires { i < length s.now }
    ensures { result ≡ i + whole_size (drop i s.now) }
{
    if s[i] == b'0' {
        return i + 1;
    }
    digits_end(s, i + 1)
}

// The number at `at`, where no name, punctuator or string stands.
pub fn number(s: &[u8], at: usize) -> Result<Token, usize>
    requires { Numeric s.now at }
    ensures { result ≡ token_here at (drop at s.now) }
{
    let mut d = at;
    if s[at] == b'-' {
        d = at + 1;
    }
    if digit_at(s, d) {
        let w = whole_end(s, d);
        let f = fraction_end(s, w);
        let e = exponent_end(s, f);
        if e == w {
            return Ok(Token {
                kind: TOKEN_INT,
                start: at,
                end: e,
            });
        }
        return Ok(Token {
            kind: TOKEN_FLOAT,
            start: at,
            end: e,
        });
    }
    Err(at)
}

// The three dots at `at`.
pub fn spread(s: &[u8], at: usize) -> Result<Token, usize>
    requires { (at < length s.now) × (get_or s.now at 0 ≡ 46) }
    ensures { result ≡ token_here at (drop at s.now) }
{
    if s.len() - at < 3 {
        return Err(at);
    }
    if s[at + 1] == b'.' {
        if s[at + 2] == b'.' {
            return Ok(Token {
                kind: TOKEN_SPREAD,
                start: at,
                end: at + 3,
            });
        }
    }
    Err(at)
}

// Whether a byte is a punctuator.
pub fn is_punctuator(b: u8) -> bool
    ensures { result ≡ is_punctuator b }
{
    if b'{' <= b {
        return b <= b'}';
    }
    if b <= b')' {
        if b'(' <= b {
            return true;
        }
        if b == b'$' {
            return true;
        }
        return b == b'!';
    }
    if b == b':' {
        return true;
    }
    if b == b'@' {
        return true;
    }
    if b == b'[' {
        return true;
    }
    if b == b']' {
        return true;
    }
    b == b'='
}

// The string, spread or number at `at`, where no name and no punctuator of one byte stands.
fn other(s: &[u8], at: usize) -> Result<Token, usize>
    requires { Other s.now at }
    ensures { result ≡ token_here at (drop at s.now) }
{
    let b = s[at];
    if b == b'"' {
        return string(s, at);
    }
    if b == b'.' {
        return spread(s, at);
    }
    number(s, at)
}

// The token at or after `from`. One loop looks at each byte, in the order in which they are frequent.
fn first(s: &[u8], from: usize) -> Result<Token, usize>
    requires { from ≤ length s.now }
    ensures { result ≡ head_of (Rattle.paper.proofs.Lexing.from s.now from) }
{
    let mut i = from;
    while i < s.len() {
        let b = s[i];
        if is_blank(b) {
            i += 1;
            continue;
        }
        if starts_name(b) {
            let e = name_end(s, i + 1);
            return Ok(Token {
                kind: TOKEN_NAME,
                start: i,
                end: e,
            });
        }
        if is_punctuator(b) {
            return Ok(Token {
                kind: b as u32,
                start: i,
                end: i + 1,
            });
        }
        let n = ignored(s, i);
        if n == 0 {
            return other(s, i);
        }
        i += n;
    }
    Ok(Token {
        kind: TOKEN_END,
        start: i,
        end: i,
    })
}

// What stands at a place, in one number.
fn packed(t: Result<Token, usize>) -> u64
    requires { Fits t }
    ensures { result ≡ packed_of t }
{
    match t {
        Ok(token) => {
            token.kind as u64 * TWO_PLACES + token.start as u64 * PLACES + token.end as u64
        }
        Err(at) => NO_KIND * TWO_PLACES + at as u64 * PLACES,
    }
}

// The same, taken out of the number.
pub fn unpacked(n: u64) -> Result<Token, usize>
    ensures { result ≡ unpacked_of n }
{
    let kind = n / TWO_PLACES;
    let start = n / PLACES % PLACES;
    if kind == NO_KIND {
        return Err(start as usize);
    }
    Ok(Token {
        kind: kind as u32,
        start: start as usize,
        end: (n % PLACES) as usize,
    })
}

// The token at or after `from`, in one number, so that none goes through memory. It has two callers, so that it stays apart and they are inlined.
pub fn scan(s: &[u8], from: usize) -> u64
    requires { (length s.now ≤ most_text) × (from ≤ length s.now) }
    ensures { result ≡ packed_of (head_of (Rattle.paper.proofs.Lexing.from s.now from)) }
{
    packed(first(s, from))
}

// The token at or after `from`.
pub fn next(s: &[u8], from: usize) -> Result<Token, usize>
    requires { (length s.now ≤ most_text) × (from ≤ length s.now) }
    ensures { result ≡ head_of (Rattle.paper.proofs.Lexing.from s.now from) }
{
    unpacked(scan(s, from))
}
