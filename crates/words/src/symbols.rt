// What can come next in a stream, by name: a tag, a character, the end of the element; and what an atom can be.
ghost use Rattle.std.specs.Prelude.{◌<◌, length};
ghost use Rattle.layout.specs.LaidOut.{LaidOut};

use crate::speech::{say, say_number};
use layout::{Layout, argument_of, byte_at, kind_of};
use trees::alike;

// The longest name of a tag.
const LONGEST_NAME: usize = 15;

// The bytes of a list's entry that stand for a character and for the end.
const CHARACTER: usize = 254;

const END: usize = 255;

// A tag's name, from the 16 bytes of its record.
fn say_name(b: &[u8])
    requires { 15 < length b.now }
{
    let n = byte_at(b, 0);
    if n > LONGEST_NAME {
        return;
    }
    let end = n + 1;
    say(&b[1..end]);
}

fn say_name_of(s: &[u8], l: Layout, t: usize)
    requires laid_out { LaidOut s.now l }
    requires t_lt_tags { t < l.tags }
{
    let at = 16 * t;
    let end = at + 16;
    say_name(&s[at..end]);
}

// The name of tag t between two signs.
fn say_named(s: &[u8], l: Layout, t: usize, before: &[u8], behind: &[u8])
    requires { LaidOut s.now l }
{
    say(before);
    if t < l.tags {
        say_name_of(s, l, t);
    }
    say(behind);
}

// A start tag.
pub fn say_tag(s: &[u8], l: Layout, t: usize)
    requires { LaidOut s.now l }
{
    say_named(s, l, t, b"<", b">");
}

// An end tag.
pub fn say_end_tag(s: &[u8], l: Layout, t: usize)
    requires { LaidOut s.now l }
{
    say_named(s, l, t, b"</", b">");
}

// An empty tag.
pub fn say_empty_tag(s: &[u8], l: Layout, t: usize)
    requires { LaidOut s.now l }
{
    say_named(s, l, t, b"<", b"/>");
}

// The next symbol of an entry.
pub fn say_next(s: &[u8], l: Layout, x: usize)
    requires { LaidOut s.now l }
{
    match x {
        CHARACTER => say(b"a character"),
        END => say(b"the end"),
        _ => say_tag(s, l, x),
    }
}

// The tags that nonterminal n's productions have.
pub fn say_tags_of(s: &[u8], l: Layout, n: usize)
    requires { LaidOut s.now l }
{
    let mut some = false;
    for t in 0..l.tags {
        if alike(s, l, n, t) > 0 {
            if some {
                say(b" or ");
            }
            say_tag(s, l, t);
            some = true;
        }
    }
}

// What the atom that is node i is: its nonterminal and the tags that it can be, or any character.
pub fn say_atom(s: &[u8], l: Layout, i: usize)
    requires laid_out { LaidOut s.now l }
    requires i_lt_nodes { i < l.nodes }
{
    if kind_of(s, l, i) == 2 {
        say(b"any character");
        return;
    }
    let n = argument_of(s, l, i);
    say(b"n");
    say_number(n);
    say(b" ");
    say_tags_of(s, l, n);
}
