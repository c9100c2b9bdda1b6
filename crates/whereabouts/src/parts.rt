// Productions of a sheet, places in them, and parts of their expressions, by their numbers and in writing.
ghost use Rattle.std.specs.Prelude.{◌+◌, ◌≤◌, ◌<◌};
ghost use Rattle.layout.specs.LaidOut.{LaidOut};
ghost use Rattle.trees.specs.Parsed.{RunsInside};

use layout::{Layout, kind_of, nonterminal_of, tag_number_of};
use words::{say, say_atom, say_number, say_numbered, say_ordinal, say_tag, say_tree};

pub fn say_production(s: &[u8], l: Layout, q: usize)
    requires laid_out { LaidOut s.now l }
    requires q_lt_productions { q < l.productions }
{
    say(b"production ");
    say_number(q);
    say(b" (n");
    say_number(nonterminal_of(s, l, q));
    say(b" ");
    say_tag(s, l, tag_number_of(s, l, q));
    say(b")");
}

// A place of production q.
pub fn say_place(s: &[u8], l: Layout, q: usize, p: usize)
    requires laid_out { LaidOut s.now l }
    requires runs_inside { RunsInside s.now }
    requires q_lt_productions { q < l.productions }
{
    if p == 0 {
        say(b"at the start");
        return;
    }
    say(b"after the ");
    say_ordinal(p);
    say(b" atom");
    if let Some(i) = words::node_of_atom(s, l, q, p) {
        say(b" (");
        say_atom(s, l, i);
        say(b")");
    }
}

// The number of the first atom behind node k, where `number` is that of the first at k or behind it.
fn number_past(s: &[u8], l: Layout, k: usize, number: usize) -> usize
    requires laid_out { LaidOut s.now l }
    requires k_lt_nodes { k < l.nodes }
    requires number_bound { number ≤ k + 1 }
    ensures { result ≤ k + 2 }
{
    if kind_of(s, l, k) < 3 {
        return number + 1;
    }
    number
}

// The number of the first atom at node i or behind it, in a production whose first node is `first`: atoms are counted from 1.
fn atom_number(s: &[u8], l: Layout, first: usize, i: usize) -> usize
    requires laid_out { LaidOut s.now l }
    requires i_le_nodes { i ≤ l.nodes }
    ensures { result ≤ i + 1 }
{
    let mut number = 1;
    for k in first..i {
        number = number_past(s, l, k, number);
    }
    number
}

// The node of a bracket, which is counted from 1 in its production; the sheet's count of nodes where it has no such node.
pub fn node_of(l: Layout, first: usize, bracket: usize) -> usize
    ensures { result ≤ l.nodes }
{
    if l.nodes < first {
        return l.nodes;
    }
    if l.nodes - first < bracket {
        return l.nodes;
    }
    if bracket == 0 {
        return l.nodes;
    }
    first + bracket - 1
}

// The atom that is node i, by its number.
pub fn say_atom_at(s: &[u8], l: Layout, first: usize, i: usize)
    requires laid_out { LaidOut s.now l }
    requires i_le_nodes { i ≤ l.nodes }
{
    if i < l.nodes {
        say_numbered(s, l, i, atom_number(s, l, first, i));
    }
}

// The tree whose first node is i.
pub fn say_part(s: &[u8], l: Layout, first: usize, i: usize)
    requires laid_out { LaidOut s.now l }
    requires i_le_nodes { i ≤ l.nodes }
{
    let atom = atom_number(s, l, first, i);
    say_tree(s, l, i, l.nodes - i, atom, 0);
}
