// Whose program rejected a token, in the words of a rule text, where a program stands in front of what it is of, or behind it.
ghost use Rattle.std.specs.Prelude.{◌<◌};
ghost use Rattle.layout.specs.LaidOut.{LaidOut};

use crate::parts::{node_of, say_part, say_production};
use layout::{Layout, first_node_of, tag_number_of};
use words::{say, say_tag};

// The program of node i of production q, which is counted from 1; 0 is the production itself.
pub(crate) fn say_program(s: &[u8], l: Layout, q: usize, i: usize, again: bool)
    requires laid_out { LaidOut s.now l }
    requires q_lt_productions { q < l.productions }
{
    say(b"What rejected: the program ");
    if again {
        say(b"behind ");
    } else {
        say(b"in front of ");
    }
    if i == 0 {
        say_tag(s, l, tag_number_of(s, l, q));
        say(b", of ");
    } else {
        let first = first_node_of(s, l, q);
        say_part(s, l, first, node_of(l, first, i));
        say(b", in ");
    }
    say_production(s, l, q);
    say(b".\n");
}
