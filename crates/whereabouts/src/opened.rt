// Where in a schedule something was refused: the elements open there, and what the innermost of them may hold.
ghost use Rattle.layout.specs.LaidOut.{LaidOut};
ghost use Rattle.trees.specs.Parsed.{RunsInside};

use crate::parts::{say_place, say_production};
use layout::{Layout, byte_at, tag_number_of};
use words::{STDOUT_FILENO, say, say_expression, say_tag, say_tags_of};

// The tag of production q.
fn say_element(s: &[u8], l: Layout, q: usize)
    requires { LaidOut s.now l }
{
    if q < l.productions {
        say_tag(s, l, tag_number_of(s, l, q));
    }
}

// What production q may hold, and the place in it that was reached.
fn say_content(s: &[u8], l: Layout, q: usize, place: usize)
    requires laid_out { LaidOut s.now l }
    requires runs_inside { RunsInside s.now }
{
    if q >= l.productions {
        return;
    }
    say_production(s, l, q);
    say(b" holds ");
    say_expression(s, l, q);
    say(b"; this is ");
    say_place(s, l, q, place);
    say(b".\n");
}

// The line on which an element began, where it is known.
fn say_line(lines: &[u64], i: usize) {
    if let Some(line) = lines.get(i) {
        say(b" (line ");
        io::print_decimal(STDOUT_FILENO, *line);
        say(b")");
    }
}

fn say_elements(s: &[u8], l: Layout, productions: &[u8], lines: &[u64])
    requires { LaidOut s.now l }
{
    say(b"Open there, from the outside in:");
    for (i, q) in productions.iter().enumerate() {
        say(b" ");
        say_element(s, l, *q as usize);
        say_line(lines, i);
    }
    say(b"\n");
}

// The elements, and where the innermost stands; or, where none is open, which the root is.
pub(crate) fn say_around(s: &[u8], l: Layout, productions: &[u8], lines: &[u64], place: usize)
    requires laid_out { LaidOut s.now l }
    requires runs_inside { RunsInside s.now }
{
    if productions.len() == 0 {
        say(b"No element is open there; the root of a schedule is ");
        say_tags_of(s, l, l.start);
        say(b".\n");
        return;
    }
    say_elements(s, l, productions, lines);
    say_content(s, l, byte_at(productions, productions.len() - 1), place);
}
