// What every reader shares: the cursor, and the rows in the lent numbers. A reader answers Ok with the cursor past what it read, or Err with
// the refusal.
#![tactic(auto)]

ghost use Rattle.std.specs.Prelude.{◌≡◌, [], ◌∷◌, ◌+◌, ◌*◌, ◌≤◌, ◌<◌, length, set};
ghost use Rattle.std.proofs.lemmas.List.Edits.{sets};
ghost use Rattle.paper.specs.Numbers.{most_text, most_rows, rows_size};
ghost use Rattle.paper.proofs.Lexing.{from};
ghost use Rattle.text_scan.specs.Head.{head_of};
ghost use Rattle.text_cursor.specs.Reader.{Within, located_of, moved_to, no_going_of};

use paper::{ROW_SIZE, Refusal};
use text_scan::Token;

// The token looked at, where the last one taken ended, and how many rows there are.
#[derive(Clone, Copy)]
pub struct Cursor {
    pub kind: u32,
    pub start: u32,
    pub end: u32,
    pub stop: u32,
    pub rows: u32,
}

// Err with the refusal of a token with which nothing goes on, or of bytes that are none; never Ok.
pub fn located(t: Result<Token, usize>) -> Result<Cursor, Refusal>
    requires { Within t }
    ensures { result ≡ located_of t }
{
    match t {
        Ok(token) => Err(Refusal::NoGoing(token.start as u32)),
        Err(at) => Err(Refusal::NoToken(at as u32)),
    }
}

impl Cursor {
    // Ok with the cursor past its token, at the next one, with `rows` rows; or Err where bytes start none.
    pub fn past(self, s: &[u8], rows: u32) -> Result<Cursor, Refusal>
        requires { (length s.now ≤ most_text) × (self.end ≤ length s.now) }
        ensures { result ≡ moved_to self.end rows (head_of (from s.now self.end)) }
    {
        let stop = self.end;
        let t = text_tokens::next(s, stop as usize);
        let Ok(token) = t else {
            return located(t);
        };
        Ok(Cursor {
            kind: token.kind,
            start: token.start as u32,
            end: token.end as u32,
            stop: stop,
            rows: rows,
        })
    }
}

// Err: no text goes on with the token looked at; never Ok.
pub fn no_going(c: Cursor) -> Result<Cursor, Refusal>
    ensures { result ≡ no_going_of c }
{
    Err(Refusal::NoGoing(c.start))
}

// Writes row n.
pub fn put_row(
    rows: &mut [u32],
    n: u32,
    kind: u32,
    start: u32,
    stop: u32,
    parent: u32,
    name: u32,
    size: u32,
    extra: u32,
)
    requires { (n < most_rows) × (length rows.old ≡ rows_size) }
    ensures { rows.new ≡ sets rows.old (7 * n) (kind ∷ start ∷ stop ∷ parent ∷ name ∷ size ∷ extra ∷ []) }
{
    let i = ROW_SIZE * (n as usize);
    rows[i] = kind;
    rows[i + 1] = start;
    rows[i + 2] = stop;
    rows[i + 3] = parent;
    rows[i + 4] = name;
    rows[i + 5] = size;
    rows[i + 6] = extra;
}

// Writes the end of row n.
pub fn put_end(rows: &mut [u32], n: u32, stop: u32)
    requires { (n < most_rows) × (length rows.old ≡ rows_size) }
    ensures { rows.new ≡ set rows.old (7 * n + 2) stop }
{
    rows[ROW_SIZE * (n as usize) + 2] = stop;
}
