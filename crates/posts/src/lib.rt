// Where a tag, an atom or a sign of an expression stands in a text of rules: the first token that is wanted, told apart by what was passed before it.

#![tactic(auto)]

ghost use Rattle.std.specs.Prelude.{◌≡◌, ◌≤◌, ◌<◌};
ghost use Rattle.posts.specs.ByKind.{is_post_kind, passed_kind, is_wanted_kind};
ghost use Rattle.posts.specs.Found.{HaltIs};

use rulings::Reader;
use sights::look;

// The sign behind a production's nonterminal.
const DEFINED: usize = 23;

// How many ::= signs were passed, and how many posts behind the last of them. A post is a token that is a nonterminal, a tag, CHAR, EMPTY or a sign of
// an expression: no program has one.
#[derive(Clone, Copy)]
pub struct Milestone {
    pub productions: usize,
    pub posts: usize,
}

// What is looked for: the post of a number behind so many ::= signs; or a nonterminal, where it stands first.
#[derive(Clone, Copy)]
pub enum Wanted {
    Post(usize, usize),
    Nonterminal(usize),
}

// Where a walk over tokens came to its end: at the token that is wanted, or where no token could be read any more. The byte of that token, if one was
// found; how many bytes lie before its gap, or before the end; and the reader behind the token, or there.
#[derive(Clone, Copy)]
pub struct Halt {
    pub found: Option<usize>,
    pub from: usize,
    pub reader: Reader,
}

fn is_post(kind: usize) -> bool
    ensures { result ≡ is_post_kind kind }
{
    (kind == 0)
        | ((kind == 5)
            | ((kind == 10) | ((kind == 29) | ((kind == 30) | ((kind == 31) | (kind == 34))))))
}

// Behind a token of a kind, where that many bytes lie: each token has one of its own, so no count is larger.
fn pass(m: Milestone, kind: usize, behind: usize) -> Milestone
    requires productions_lt_behind { m.productions < behind }
    requires posts_lt_behind { m.posts < behind }
    ensures { result ≡ passed_kind m kind }
{
    if kind == DEFINED {
        return Milestone {
            productions: m.productions + 1,
            posts: 0,
        };
    }
    if is_post(kind) {
        return Milestone {
            productions: m.productions,
            posts: m.posts + 1,
        };
    }
    m
}

// Whether a token of a kind and a number is wanted there.
fn meets(m: Milestone, wanted: Wanted, kind: usize, number: usize) -> bool
    ensures { result ≡ is_wanted_kind wanted m kind number }
{
    match wanted {
        Wanted::Post(productions, posts) => {
            is_post(kind) & ((m.productions == productions) & (m.posts == posts))
        }
        Wanted::Nonterminal(n) => (kind == 0) & (number == n),
    }
}

// The first token of a text that is wanted.
pub fn find(text: &[u8], wanted: Wanted) -> Halt
    ensures { HaltIs text.now wanted result }
{
    let mut from = 0;
    let mut reader = rulings::start();
    let mut m = Milestone {
        productions: 0,
        posts: 0,
    };
    // A while: each look goes on behind the token that it read, which no range gives.
    while let Ok(token) = look(&text[from..], reader) {
        if meets(m, wanted, token.kind, token.number) {
            return Halt {
                found: Some(from + token.at),
                from: from,
                reader: token.reader,
            };
        }
        from = from + token.at + token.long;
        m = pass(m, token.kind, from);
        reader = token.reader;
    }
    Halt {
        found: None,
        from: from,
        reader: reader,
    }
}
