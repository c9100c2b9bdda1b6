// Which token bytes begin with, where only some tokens may stand: tried kind by kind.

#![tactic(auto)]

ghost use Rattle.std.specs.Prelude.{[], ◌++◌, ◌-◌, ◌≤◌, ◌<◌, length, take, drop};
ghost use Rattle.lexing.specs.Reads.{ReadIs, stops_at, OneSpelling};
ghost use Rattle.lexemes.specs.Kinds.{kinds, OfKind, TriedIs, MayIf, Lexed};

// A token of the kinds 0 to 9: those with a number, a name or characters.
fn varied(x: &[u8], k: usize) -> lexing::Tried
    requires { k < 10 }
    ensures { TriedIs (OfKind k) x.now result }
{
    match k {
        0 => lexing::numbered(x, b"n", 64),
        1 => lexing::numbered(x, b"", programs::VALUES),
        2 => lexing::numbered(x, b"$.a", programs::ATTRIBUTES),
        3 => lexing::numbered(x, b"$[.a", programs::ATTRIBUTES),
        4 => lexing::numbered(x, b"$].a", programs::ATTRIBUTES),
        5 => lexing::name(x),
        6 => lexing::tag(x, b"<", b">"),
        7 => lexing::tag(x, b"</", b">"),
        8 => lexing::tag(x, b"<", b"/>"),
        _ => lexing::string(x),
    }
}

// What is spelled as a part of a row.
fn cut(x: &[u8], row: &[u8], from: usize, to: usize, joins: bool) -> lexing::Tried
    requires { (from ≤ to) × (to ≤ length row.now) }
    ensures { ReadIs (OneSpelling (take (to - from) (drop from row.now) ++ []) 0) (stops_at joins) x.now result }
{
    lexing::plain(x, &row[from..to], joins)
}

// A word but for EMPTY: kinds 10 to 22, each in eight bytes of one row.
fn word(x: &[u8], k: usize) -> lexing::Tried
    requires { (10 ≤ k) × (k < 23) }
    ensures { TriedIs (OfKind k) x.now result }
{
    let lengths: [usize; 13] = [4, 4, 8, 6, 5, 2, 4, 4, 5, 3, 3, 2, 3];
    let from = 8 * (k - 10);
    let to = from + lengths[k - 10];
    cut(
        x,
        b"CHAR    ECHO    ECHO_OFFreject  print   if      then    else    begin   end     and     or      not     ",
        from,
        to,
        true,
    )
}

// A sign: kinds 23 to 33, each in three bytes of one row.
fn sign(x: &[u8], k: usize) -> lexing::Tried
    requires { (23 ≤ k) × (k < 34) }
    ensures { TriedIs (OfKind k) x.now result }
{
    let lengths: [usize; 11] = [3, 2, 1, 1, 1, 1, 1, 1, 1, 1, 1];
    let from = 3 * (k - 23);
    let to = from + lengths[k - 23];
    cut(x, b"::=:= (  )  {  }  .  |  *  ;  =  ", from, to, false)
}

// A token of a kind, if it may stand here.
fn of_kind(x: &[u8], k: usize, may: bool) -> lexing::Tried
    requires { k < kinds }
    ensures { TriedIs (MayIf may (OfKind k)) x.now result }
{
    if may {
        if k < 10 {
            return varied(x, k);
        }
        if k < 23 {
            return word(x, k);
        }
        if k < 34 {
            return sign(x, k);
        }
        return lexing::plain(x, b"EMPTY", true);
    }
    lexing::Tried::Stuck(0)
}

#[derive(Clone, Copy)]
pub enum Lexeme {
    // A token: its kind, its number, and how many bytes it takes.
    Token(usize, usize, usize),
    // None that may stand here; so many bytes begin one.
    Stuck(usize),
}

// The token that x begins with, where those of some kinds may stand.
pub fn lex(x: &[u8], may: [bool; 35]) -> Lexeme
    ensures { Lexed may x.now result }
{
    let mut best = 0;
    for (k, allowed) in may.iter().enumerate() {
        match of_kind(x, k, *allowed) {
            lexing::Tried::Whole(n, len) => return Lexeme::Token(k, n, len),
            lexing::Tried::Stuck(j) => best = lexing::larger(best, j),
        }
    }
    Lexeme::Stuck(best)
}
