// Strings and comments, each as a whole.
#![tactic(auto)]

ghost use Rattle.std.specs.Prelude.{◌≡◌, ◌<◌, length, drop, get_or};
ghost use Rattle.text_scan.specs.Piece.{token_here, ignored_here};

use text_scan::{TOKEN_STRING, Token, comment_end, string_end};

// Ok with the string whose quote stands at `at`, or Err with `at`.
pub fn string(s: &[u8], at: usize) -> Result<Token, usize>
    requires { (at < length s.now) × (get_or s.now at 0 ≡ 34) }
    ensures { result ≡ token_here at (drop at s.now) }
{
    let e = string_end(s, at + 1);
    if e < s.len() {
        if s[e] == b'"' {
            return Ok(Token {
                kind: TOKEN_STRING,
                start: at,
                end: e + 1,
            });
        }
    }
    Err(at)
}

// The size of the comment whose # stands at i, or 0 where it has bad text.
pub fn comment(s: &[u8], i: usize) -> usize
    requires { (i < length s.now) × (get_or s.now i 0 ≡ 35) }
    ensures { result ≡ ignored_here (drop i s.now) }
{
    let e = comment_end(s, i + 1);
    if s.len() <= e {
        return e - i;
    }
    let after = s[e];
    if after == 10 {
        return e - i;
    }
    if after == 13 {
        return e - i;
    }
    0
}
