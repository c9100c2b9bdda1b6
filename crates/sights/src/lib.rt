// The next token of a text of rules, with its kind, its number and its place, and the reader behind it; and what is told of a text, or of its rest.

#![tactic(auto)]

ghost use Rattle.std.specs.Prelude.{◌<◌, length};
ghost use Rattle.gaps.specs.declared.Skipped.{Skipped};
ghost use Rattle.gaps.specs.Skipped.{SkippedIs};
ghost use Rattle.rulings.specs.Readers.{Firm};
ghost use Rattle.sights.specs.Glances.{GlanceIs, Somewhere, RestIs};
ghost use Rattle.sights.specs.Rulings.{RulingIs};

// A token that is taken: behind how many bytes it stands, its kind, its number, how many bytes it takes, and the reader behind it.
#[derive(Clone, Copy)]
pub struct Token {
    pub at: usize,
    pub kind: usize,
    pub number: usize,
    pub long: usize,
    pub reader: rulings::Reader,
}

// What is told of a text, or of its rest: it writes rules; or it writes none, and the byte goes with the number 40.
pub type Ruling = Result<(), usize>;

// At a byte that is in no gap.
fn at_token(x: &[u8], i: usize, r: rulings::Reader) -> Result<Token, Ruling>
    requires { Firm r × ((i < length x.now) × SkippedIs x.now (Skipped.To i)) }
    ensures { GlanceIs x.now r result }
{
    let may = rulings::row(r);
    // Returns, here and in `look`: a token holds a reader, and what a match comes to is cleared and copied once more.
    match lexemes::lex(&x[i..], may) {
        lexemes::Lexeme::Token(k, n, l) => {
            let Some(next) = rulings::take(r, k) else {
                return Ok(Token {
                    at: i,
                    kind: k,
                    number: n,
                    long: l,
                    reader: r,
                });
            };
            return Ok(Token {
                at: i,
                kind: k,
                number: n,
                long: l,
                reader: next,
            });
        }
        lexemes::Lexeme::Stuck(k) => return Err(Err(i + k)),
    }
}

// A gap, and what stands behind it: a token, or what is told of a text that ends there.
pub fn look(x: &[u8], r: rulings::Reader) -> Result<Token, Ruling>
    requires { Firm r }
    ensures { GlanceIs x.now r result }
{
    match gaps::skip(x) {
        gaps::Skipped::To(i) => return at_token(x, i, r),
        gaps::Skipped::End => {
            if rulings::may_end(r) {
                return Err(Ok(()));
            }
            return Err(Err(x.len()));
        }
        gaps::Skipped::Bad(i) => return Err(Err(i)),
    }
}

// What is told of the rest of a text, from a reader on.
pub fn judge_rest(x: &[u8], r: rulings::Reader) -> Ruling
    requires { Firm r × Somewhere r }
    ensures { RestIs x.now r result }
{
    let mut from = 0;
    let mut reader = r;
    // A loop: each look goes on behind the token that it read, which no range gives.
    loop {
        match look(&x[from..], reader) {
            Ok(token) => {
                from += token.at + token.long;
                reader = token.reader;
            }
            Err(Ok(())) => return Ok(()),
            Err(Err(k)) => return Err(from + k),
        }
    }
}

// A text is judged.
pub fn judge(text: &[u8]) -> Ruling
    ensures { RulingIs text.now result }
{
    let first = rulings::start();
    judge_rest(text, first)
}
