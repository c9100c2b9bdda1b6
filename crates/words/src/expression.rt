// A production's expression in writing, each atom with its number, so that a place can be found in it.
ghost use Rattle.std.specs.Prelude.{◌+◌, ◌≤◌, ◌<◌};
ghost use Rattle.layout.specs.LaidOut.{LaidOut};
ghost use Rattle.trees.specs.Parsed.{RunsInside};

use crate::speech::{say, say_number};
use crate::symbols::say_atom;
use layout::{Layout, first_node_of, kind_of, node_count_of};

// The node past a tree, and the atom past its atoms.
#[derive(Clone, Copy)]
pub struct Past {
    pub node: usize,
    pub atom: usize,
}

// Whether a tree of this kind needs no brackets where `around` is the kind that it is a part of: 0 for none, 7 for the second of
// two parts. A first part of its own kind, as in a then b then c, needs none.
fn is_bare(kind: usize, around: usize) -> bool {
    if kind == 5 {
        return around != 5;
    }
    (around == 0) | (around == kind)
}

// A bracket, where the tree needs it.
fn say_unless(bare: bool, bracket: &[u8]) {
    if !bare {
        say(bracket);
    }
}

// What stands between the two parts of a concatenation or a union.
fn say_joint(kind: usize) {
    if kind == 3 {
        say(b" then ");
    } else {
        say(b" or ");
    }
}

// An atom by its number.
pub fn say_numbered(s: &[u8], l: Layout, i: usize, atom: usize)
    requires laid_out { LaidOut s.now l }
    requires i_lt_nodes { i < l.nodes }
{
    say(b"[");
    say_number(atom);
    say(b" ");
    say_atom(s, l, i);
    say(b"]");
}

// The tree at node i, of at most `left` nodes, whose first atom is numbered `atom`, as a part of the kind `around`.
pub fn say_tree(s: &[u8], l: Layout, i: usize, left: usize, atom: usize, around: usize) -> Past
    requires laid_out { LaidOut s.now l }
    requires left_bound { i + left ≤ l.nodes }
    requires atom_bound { atom ≤ i + 1 }
    ensures i_le_node { i ≤ result.node }
    ensures node_bound { result.node ≤ i + left }
    ensures atom_bound_2 { result.atom ≤ result.node + 1 }
{
    if left == 0 {
        return Past {
            node: i,
            atom: atom,
        };
    }
    let kind = kind_of(s, l, i);
    if kind > 5 {
        say(b"EMPTY");
        return Past {
            node: i + 1,
            atom: atom,
        };
    }
    if kind < 3 {
        say_numbered(s, l, i, atom);
        return Past {
            node: i + 1,
            atom: atom + 1,
        };
    }
    let bare = is_bare(kind, around);
    say_unless(bare, b"(");
    let first = say_tree(s, l, i + 1, left - 1, atom, kind);
    let middle = first.node;
    let next = first.atom;
    if kind == 5 {
        say(b"*");
        say_unless(bare, b")");
        return first;
    }
    say_joint(kind);
    let second = say_tree(s, l, middle, i + left - middle, next, 7);
    say_unless(bare, b")");
    second
}

// The whole expression of production q.
pub fn say_expression(s: &[u8], l: Layout, q: usize)
    requires laid_out { LaidOut s.now l }
    requires runs_inside { RunsInside s.now }
    requires q_lt_productions { q < l.productions }
{
    let first = first_node_of(s, l, q);
    let nodes = node_count_of(s, l, q);
    if nodes == 0 {
        say(b"nothing");
        return;
    }
    say_tree(s, l, first, nodes, 1, 0);
}
