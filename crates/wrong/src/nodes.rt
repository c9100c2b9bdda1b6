// The first wrong expression, and the first nonterminal without a production.
ghost use Rattle.std.specs.Prelude.{◌<◌};
ghost use Rattle.tells.specs.Tells.{Tells};
ghost use Rattle.layout.specs.Layout.{Size};
ghost use Rattle.sheet.specs.Grounded.{Produced};

use crate::productions::{first_node, node_count, record_of};
use crate::{field_of, say_record, say_then, small};
use words::say;

// A node's record.
const WIDTH: usize = 6;

// The deepest that a tree may be.
const DEEPEST: usize = 12;

// The first byte of node i's record.
fn node_record(s: &[u8], i: usize) -> usize
    requires { i < 131072 }
    ensures { result < 851968 }
{
    field_of(s, 4) + WIDTH * i
}

// Whether a node has the argument that its kind asks for.
fn node_fits(kind: usize, argument: usize) -> bool {
    match kind {
        1 => argument < 64,
        2..=6 => argument == 0,
        _ => false,
    }
}

// How many parts a node of this kind has.
fn parts_of(kind: usize) -> usize
    ensures { result < 3 }
{
    match kind {
        3 | 4 => 2,
        5 => 1,
        _ => 0,
    }
}

// The level at which the next node stands: the last one at which parts are still to come. Below it all are there.
fn level(open: [usize; 16], deep: usize) -> usize
    ensures { result < 16 }
{
    for d in (1..deep % 16 + 1).rev() {
        if open[d] > 0 {
            return d;
        }
    }
    0
}

// Whether so many nodes from node i on are one whole tree, at most 12 deep. For each level it is kept how many parts are still to come there.
fn is_tree(s: &[u8], i: usize, count: usize) -> bool
    requires i_bound { i < 65536 }
    requires count_bound { count < 256 }
{
    let mut open = [0usize; 16];
    open[0] = 1;
    let mut deep = 0;
    for k in 0..count {
        let at = node_record(s, i + k);
        let kind = small(s, at);
        let left = open[deep];
        if left == 0 {
            return false;
        }
        if deep >= DEEPEST {
            return false;
        }
        if !node_fits(kind, small(s, at + 1)) {
            return false;
        }
        open[deep] = left - 1;
        let parts = parts_of(kind);
        if parts > 0 {
            deep += 1;
            open[deep] = parts;
        }
        deep = level(open, deep);
    }
    (deep == 0) & (open[0] == 0)
}

fn say_run(s: &[u8], first: usize, nodes: usize)
    requires { first < 65536 }
{
    say_then(b"It has ", nodes);
    say_then(b" nodes, and the first of them, node ", first);
    say_then(b", is at byte ", node_record(s, first));
    say(b".\n");
}

// The nodes of the first production whose nodes are not one tree.
pub(crate) fn say_expression(s: &[u8]) {
    let count = field_of(s, 3);
    for q in 0..count {
        let nodes = node_count(s, q);
        let first = first_node(s, q);
        if (nodes > 0) & !is_tree(s, first, nodes) {
            say_record(b"the expression of production", q, record_of(s, q));
            say_run(s, first, nodes);
            return;
        }
    }
}

// Whether a production is of nonterminal n.
pub fn is_produced(s: &[u8], n: usize) -> bool
    ensures { Size s.now → Tells (Produced s.now n) result }
{
    let count = field_of(s, 3);
    for q in 0..count {
        if small(s, record_of(s, q)) == n {
            return true;
        }
    }
    false
}

fn say_nonterminal(n: usize) {
    say_then(b"Nonterminal ", n);
    say(b" has no production. ");
}

// The start, or the nonterminal of the first node that names one without a production.
pub(crate) fn say_missing(s: &[u8]) {
    let start = field_of(s, 10);
    if !is_produced(s, start) {
        say_nonterminal(start);
        say(b"It is the start, which the trailer names.\n");
        return;
    }
    let count = field_of(s, 5);
    for i in 0..count {
        let at = node_record(s, i);
        let n = small(s, at + 1);
        if (small(s, at) == 1) & !is_produced(s, n) {
            say_nonterminal(n);
            say_record(b"node", i, at);
            return;
        }
    }
}
