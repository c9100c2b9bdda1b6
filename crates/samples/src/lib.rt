// A shortest input up to the place of a fault, as people write it: elements with what they hold left out.

#![tactic(auto)]

ghost use Rattle.std.specs.Prelude.{◌≤◌, ◌<◌};
ghost use Rattle.layout.specs.LaidOut.{LaidOut};
ghost use Rattle.trees.specs.Parsed.{RunsInside};

use layout::{Layout, argument_of, kind_of, node_count_of, nonterminal_of, tag_number_of};
use shortest::{Row, shortest};
use words::{say, say_empty_tag, say_end_tag, say_tag};

// Of two productions the one that nonterminal n is shown by: of those that are its own the one with the lower tag, the first on ties. `best` is
// the sheet's count of productions where there is none yet.
fn better(s: &[u8], l: Layout, n: usize, best: usize, q: usize) -> usize
    requires laid_out { LaidOut s.now l }
    requires q_lt_productions { q < l.productions }
    requires best_le_productions { best ≤ l.productions }
    ensures { result ≤ l.productions }
{
    if nonterminal_of(s, l, q) != n {
        return best;
    }
    if best >= l.productions {
        return q;
    }
    if tag_number_of(s, l, q) < tag_number_of(s, l, best) {
        return q;
    }
    best
}

// The production that nonterminal n is shown by: its lowest tag, the first of those; the sheet's count of productions where it has none.
fn shown(s: &[u8], l: Layout, n: usize) -> usize
    requires { LaidOut s.now l }
    ensures { result ≤ l.productions }
{
    let mut best = l.productions;
    for q in 0..l.productions {
        best = better(s, l, n, best, q);
    }
    best
}

// An element of production q: whole where it holds nothing, else with what it holds left out.
fn say_element(s: &[u8], l: Layout, q: usize)
    requires laid_out { LaidOut s.now l }
    requires q_lt_productions { q < l.productions }
{
    let t = tag_number_of(s, l, q);
    if node_count_of(s, l, q) == 0 {
        say_empty_tag(s, l, t);
        return;
    }
    say_tag(s, l, t);
    say(b"..");
    say_end_tag(s, l, t);
}

// The atom that is node i: a character, or an element of its nonterminal.
fn say_node(s: &[u8], l: Layout, i: usize)
    requires laid_out { LaidOut s.now l }
    requires i_lt_nodes { i < l.nodes }
{
    if kind_of(s, l, i) == 2 {
        say(b"x");
        return;
    }
    let q = shown(s, l, argument_of(s, l, i));
    if q < l.productions {
        say_element(s, l, q);
    }
}

// The p-th atom of production q.
fn say_atom_of(s: &[u8], l: Layout, q: usize, p: usize)
    requires laid_out { LaidOut s.now l }
    requires runs_inside { RunsInside s.now }
    requires q_lt_productions { q < l.productions }
{
    if let Some(i) = words::node_of_atom(s, l, q, p) {
        say_node(s, l, i);
    }
}

// Atoms of production q, by their numbers.
fn say_row(s: &[u8], l: Layout, q: usize, row: Row)
    requires laid_out { LaidOut s.now l }
    requires runs_inside { RunsInside s.now }
    requires q_lt_productions { q < l.productions }
{
    let n = row.length;
    let atoms = row.bytes;
    if n > shortest::LONGEST {
        return;
    }
    for atom in &atoms[..n] {
        say_atom_of(s, l, q, *atom as usize);
    }
}

// The element's own start tag, and a shortest row of its atoms up to its place p.
pub fn say_example(s: &[u8], l: Layout, q: usize, p: usize)
    requires laid_out { LaidOut s.now l }
    requires runs_inside { RunsInside s.now }
    requires q_lt_productions { q < l.productions }
{
    say(b"  shortest input up to there: ");
    say_tag(s, l, tag_number_of(s, l, q));
    let row = shortest(s, q, p);
    say_row(s, l, q, row);
    say(b"\n");
}
