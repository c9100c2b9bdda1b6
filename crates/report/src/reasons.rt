// Why a fault of rule S is one: the atoms that the next symbol could be, and the sign at which the two ways to them part.
ghost use Rattle.std.specs.Prelude.{◌<◌, ◌≤◌};
ghost use Rattle.layout.specs.LaidOut.{LaidOut};

use layout::{Layout, first_node_of, kind_of};
use trees::Symbol;
use whereabouts::{node_of, say_atom_at, say_part};
use witness::{Row, witness};
use words::{say, say_next};

// The bytes of a list's entry that stand for a character and for the end.
const CHARACTER: usize = 254;

const END: usize = 255;

fn symbol_of(x: usize) -> Symbol {
    if x == CHARACTER {
        return Symbol::Character;
    }
    if x == END {
        return Symbol::End;
    }
    Symbol::Tag(x)
}

// The node of the atom whose opening bracket a string ends with; the sheet's count of nodes where it ends with none.
fn reached(l: Layout, first: usize, row: Row) -> usize
    ensures { result ≤ l.nodes }
{
    let n = row.length;
    let bytes = row.bytes;
    if n == 0 {
        return l.nodes;
    }
    if n > witness::LONGEST {
        return l.nodes;
    }
    node_of(l, first, bytes[n - 1] as usize / 2)
}

// The sign: a star or a union.
fn say_sign(s: &[u8], l: Layout, first: usize, sign: usize)
    requires { LaidOut s.now l }
{
    let i = node_of(l, first, sign);
    if i >= l.nodes {
        return;
    }
    if kind_of(s, l, i) == 5 {
        say(b"the * of ");
        say_part(s, l, first, i);
        say(b", which may go round or end");
        return;
    }
    say(b"the \"or\" of ");
    say_part(s, l, first, i);
    say(b", which may go left or right");
}

// The two atoms that the next symbol could be, or the one that it could be in two ways; of the end, that it could come in two ways.
fn say_atoms(s: &[u8], l: Layout, first: usize, x: usize, one: Row, other: Row)
    requires { LaidOut s.now l }
{
    say(b"  ");
    say_next(s, l, x);
    if x == END {
        say(b" could come in two ways");
        return;
    }
    let i = reached(l, first, one);
    let j = reached(l, first, other);
    say(b" could be ");
    say_atom_at(s, l, first, i);
    if i == j {
        say(b" in two ways");
        return;
    }
    say(b" or ");
    say_atom_at(s, l, first, j);
}

// Why there is a fault at place p of production q, where x is next.
pub(crate) fn say_reason(s: &[u8], l: Layout, q: usize, p: usize, x: usize, text: &[u8])
    requires laid_out { LaidOut s.now l }
    requires q_lt_productions { q < l.productions }
{
    let next = symbol_of(x);
    let r = witness(s, q, p, next);
    if r.number != 9 {
        return;
    }
    let first = first_node_of(s, l, q);
    let one = r.first;
    let other = r.second;
    say_atoms(s, l, first, x, one, other);
    say(b"; the two part at ");
    say_sign(s, l, first, r.sign);
    say(b"\n");
    crate::pointing::say_sign(text, s, q, r.sign);
}
