// Where in a text of rules a fault is: the line and the column, and the line itself with a mark under the token. Of rules that are no text, whose text is given as
// no byte, nothing is said.
ghost use Rattle.std.specs.Prelude.{◌≤◌};

use files::within;
use places::{Place, say_count, say_line};
use posts::Wanted;
use words::{say, say_number};

// In front of a line that is shown.
const MARGIN: usize = 2;

// There are n0 to n63.
const NONTERMINALS: usize = 64;

// A place by its line and its column, and the line with a mark under it.
fn say_there(text: &[u8], place: usize) {
    let at = within(place, text);
    let p = Place::behind(&text[..at]);
    say(b"line ");
    say_count(p.line);
    say(b", column ");
    say_count(p.column);
    say(b":\n");
    say_line(text, at, MARGIN);
}

// The tag of production q.
pub(crate) fn say_production(text: &[u8], q: usize) {
    let wanted = Wanted::Post(std::num::wrapping_add_usize(q, 1), 0);
    if let Some(at) = posts::find(text, wanted).found {
        say(b"  production ");
        say_number(q);
        say(b": ");
        say_there(text, at);
    }
}

// The sign of production q at which the two readings of a fault part, by its number among the brackets.
pub(crate) fn say_sign(text: &[u8], sheet: &[u8], q: usize, bracket: usize) {
    if text.len() == 0 {
        return;
    }
    let post = signs::post_of(sheet, q, bracket);
    let wanted = Wanted::Post(std::num::wrapping_add_usize(q, 1), post);
    if let Some(at) = posts::find(text, wanted).found {
        say(b"  This sign stands at ");
        say_there(text, at);
    }
}

// A nonterminal that has no production, where it first stands.
fn say_missing(text: &[u8], n: usize) {
    if let Some(at) = posts::find(text, Wanted::Nonterminal(n)).found {
        say(b"n");
        say_number(n);
        say(b" has no production; it stands at ");
        say_there(text, at);
    }
}

// Every nonterminal of a text that has no production in its sheet.
pub(crate) fn say_all_missing(text: &[u8], sheet: &[u8]) {
    for n in 0..NONTERMINALS {
        if !wrong::is_produced(sheet, n) {
            say_missing(text, n);
        }
    }
}
