// The bytes of a string token, without its quotes and its escapes, into lent memory.

#![tactic(auto)]

ghost use Rattle.std.specs.Prelude.{◌≡◌, ◌<◌, length, drop};
ghost use Rattle.unquoting.specs.Unquoted.{unescaped, StringPieceIs, UnquotedIs};

// The byte that a byte behind a \ stands for.
fn unescape(b: u8) -> u8
    ensures { result ≡ unescaped b }
{
    if b == 116 {
        return 9;
    }
    if b == 110 {
        return 10;
    }
    if b == 114 {
        return 13;
    }
    b
}

// A byte of a string, and how many bytes it is written with.
#[derive(Clone, Copy)]
struct Piece {
    byte: u8,
    long: usize,
}

// The byte of a string that is written at a place.
fn piece_at(x: &[u8], i: usize) -> Piece
    requires { i < length x.now }
    ensures { StringPieceIs (drop i x.now) result }
{
    let b = x[i];
    let j = i + 1;
    if b == 92 {
        if j < x.len() {
            return Piece {
                byte: unescape(x[j]),
                long: 2,
            };
        }
        return Piece { byte: b, long: 1 };
    }
    Piece { byte: b, long: 1 }
}

// The string that x begins with, as far as there is room for it: how many bytes it has.
pub fn unquote(x: &[u8], out: &mut [u8]) -> usize
    ensures { UnquotedIs x.now out.old out.new result }
{
    let mut i = 1;
    let mut n = 0;
    // A while: each step goes on by as many bytes as the byte was written with, which no range gives.
    while i < x.len() {
        if x[i] == 34 {
            return n;
        }
        if n == out.len() {
            return n;
        }
        let p = piece_at(x, i);
        out[n] = p.byte;
        n += 1;
        i += p.long;
    }
    n
}
