// What people are told of a rule text that is refused: where, the line with a mark under the byte, and what may stand there.

#![tactic(auto)]

mod spoken;

ghost use Rattle.std.specs.Prelude.{◌<◌};
ghost use Rattle.lexemes.specs.Kinds.{kinds};

use files::within;
use gaps::Skipped;
use lexemes::Lexeme;
use posts::Wanted;
use spoken::say_kind;
use words::{STDOUT_FILENO, say};

// Whether these bytes begin a token of a kind, and are not all of it.
fn begins(front: &[u8], k: usize) -> bool
    requires { k < kinds }
{
    let mut only = [false; 35];
    only[k] = true;
    match lexemes::lex(front, only) {
        Lexeme::Token(_, _, _) => false,
        Lexeme::Stuck(n) => n == front.len(),
    }
}

// The tokens that may stand where these bytes are all that stands of one, and whether the text may end there.
fn say_tokens(front: &[u8], may: [bool; 35], ends: bool) {
    say(b"There may stand:");
    for (k, stands) in may.iter().enumerate() {
        if *stands & begins(front, k) {
            say(b" ");
            say_kind(k);
        }
    }
    if ends & (front.len() == 0) {
        say(b" (or the text may end)");
    }
    say(b"\n");
}

// No nonterminal has this number: who looks for it reads as far as can be read. A number, since a search for nothing would be a kind of its own in every proof about
// what is found.
const NO_NONTERMINAL: usize = 64;

// What may stand behind the bytes of a text that are right so far.
fn say_instead(right: &[u8]) {
    let h = posts::find(right, Wanted::Nonterminal(NO_NONTERMINAL));
    let r = h.reader;
    let at = h.from;
    let may = rulings::row(r);
    let ends = rulings::may_end(r);
    let left = &right[at..];
    match gaps::skip(left) {
        Skipped::To(i) => {
            let from = within(i, left);
            say_tokens(&left[from..], may, ends);
        }
        Skipped::End => say_tokens(b"", may, ends),
        Skipped::Bad(_) => {}
    }
}

// Says where in a text of rules a place is, with its line and a mark under it.
pub fn say_where(text: &[u8], place: usize) {
    let at = within(place, text);
    places::tell_where(STDOUT_FILENO, text, at);
}

// Whether a byte is a letter, a digit or an underscore: words are of these.
fn is_of_word(b: u8) -> bool {
    text::name_first(b) | b.is_ascii_digit()
}

// Whether a byte joins two parts of a row.
fn joins(b: u8) -> bool {
    (b == b'.') | (b == b'|')
}

// Where what stands there is right by its kind, and only its place or its length is wrong: why it is refused all the same.
fn say_hint(text: &[u8], at: usize) {
    if at == 0 {
        return;
    }
    if at >= text.len() {
        return;
    }
    let before = text[at - 1];
    let here = text[at];
    if is_of_word(before) & is_of_word(here) {
        say(
            b"A word ends in front of this. Put white space between two words; a name has at most 15 bytes, nonterminals are n0 to n63, and values are 0 to 63.\n",
        );
        return;
    }
    if joins(here) & !joins(before) & (before != b'(') {
        say(
            b"If the row is too long here: a rule has at most 32 nodes, 12 deep. Put parts of a long row in parentheses, as (n1.n2.n3).(n4.n5.n6).\n",
        );
    }
}

// Says where a text of rules is refused, what stands there and what may stand there.
pub fn say_refused(text: &[u8], refused: usize) {
    say_where(text, refused);
    let at = within(refused, text);
    say_instead(&text[..at]);
    say_hint(text, at);
}
