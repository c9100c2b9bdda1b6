// The bracket string from a place to the next atom that can be a symbol, or to the end, found over a sheet's nodes.

#![tactic(auto)]

ghost use Rattle.std.specs.Prelude.{◌≡◌, List, ℕ, ◌+◌, ◌*◌, ◌≤◌, ◌<◌, length};
ghost use Rattle.expressions.specs.Words.{opening, closing};
ghost use Rattle.layout.specs.LaidOut.{LaidOut};
ghost use Rattle.layout.specs.Records.{kind_of, node_count_of};
ghost use Rattle.trees.specs.Trees.{Trees};
ghost use Rattle.trees.specs.Parsed.{RunsInside};
ghost use Rattle.ways.specs.Held.{PushedBracket, Bracketed};
ghost use Rattle.trees.specs.Tally.{TreeIn};
ghost use Rattle.ways.specs.Spot.{SpotIn, PartOf, PartsOf};
ghost use Rattle.ways.specs.Past.{OneOn, PassedBy};
ghost use Rattle.ways.specs.Walks.{CanIs, AtomWay, Through, Into, IfJoined, OutOf, Across};
ghost use Rattle.few.specs.Strings.{most_brackets};
ghost use Rattle.ways.specs.Answers.{most_tried, FollowsS, EndWayIs, AtomWayIs, WayTold, WayAs};

use layout::{Layout, argument_of, first_node_of, kind_of, node_count_of};
use trees::{Symbol, can_be, is_character};

// The most brackets of a way in a sheet that passes: two for each of a production's nodes.
pub const MOST: usize = 64;

// How many brackets a string has, and the atom that it leads to, with the kind and the argument of the atom's node; zeros where it
// leads to the end. The brackets stand in the lent bytes, where they have room for them: opening i is the byte 2 * i, closing i is
// 2 * i + 1.
#[derive(Clone, Copy)]
pub struct Way {
    pub length: usize,
    pub place: usize,
    pub kind: usize,
    pub argument: usize,
}

// Where a tree stands: its first node, how many it has, its first bracket and its first atom.
#[derive(Clone, Copy)]
pub struct Spot {
    pub node: usize,
    pub nodes: usize,
    pub bracket: usize,
    pub atom: usize,
}

// Where the two trees behind a concatenation or a union stand.
#[derive(Clone, Copy)]
pub struct Parts {
    pub first: Spot,
    pub second: Spot,
}

// On the way past a tree: the next node, the atoms so far, and how many trees are left to pass.
#[derive(Clone, Copy)]
pub struct Passing {
    pub node: usize,
    pub atoms: usize,
    pub left: usize,
}

// One more bracket after a string of n. Past the lent bytes it is counted only: an attempt may be longer than any way.
fn push(n: usize, b: usize, line: &mut [u8]) -> usize
    requires b_bound { b < 256 }
    requires n_lt_most_tried { n < most_tried }
    ensures { PushedBracket b n line.old result line.new }
{
    if n < line.len() {
        line[n] = b as u8;
        return n + 1;
    }
    n + 1
}

fn opened(n: usize, i: usize, line: &mut [u8]) -> usize
    requires i_bound { i < 128 }
    requires n_lt_most_tried { n < most_tried }
    ensures { Bracketed opening i n line.old result line.new }
{
    push(n, 2 * i, line)
}

fn closed(n: usize, i: usize, line: &mut [u8]) -> usize
    requires i_bound { i < 127 }
    requires n_lt_most_tried { n < most_tried }
    ensures { Bracketed closing i n line.old result line.new }
{
    push(n, 2 * i + 1, line)
}

// The tree behind a star.
pub fn part(t: Spot) -> Spot
    requires le_nodes { 1 ≤ t.nodes }
    requires nodes_bound { t.node + t.nodes ≤ 256 }
    requires nodes_bound_2 { t.bracket + t.nodes ≤ 33 }
    ensures { PartOf t result }
{
    Spot {
        node: t.node + 1,
        nodes: t.nodes - 1,
        bracket: t.bracket + 1,
        atom: t.atom,
    }
}

// One node further: an atom or the empty node is the last of a tree, a concatenation or a union has one tree more.
fn one_on(w: Passing, kind: usize) -> Passing
    requires le_left { 1 ≤ w.left }
    requires left_bound { w.node + w.left ≤ 256 }
    requires atoms_le_node { w.atoms ≤ w.node }
    ensures { OneOn kind w result }
{
    let next = w.node + 1;
    if kind < 3 {
        return Passing {
            node: next,
            atoms: w.atoms + 1,
            left: w.left - 1,
        };
    }
    if kind > 5 {
        return Passing {
            node: next,
            atoms: w.atoms,
            left: w.left - 1,
        };
    }
    if kind > 4 {
        return Passing {
            node: next,
            atoms: w.atoms,
            left: w.left,
        };
    }
    Passing {
        node: next,
        atoms: w.atoms,
        left: w.left + 1,
    }
}

// Past the tree at node `at`, node by node until none is left of it.
fn pass_tree(s: &[u8], l: Layout, at: usize) -> Passing
    requires laid_out { LaidOut s.now l }
    requires tree_in { TreeIn s.now at 256 0 }
    ensures { PassedBy s.now at result }
{
    let mut w = Passing {
        node: at,
        atoms: 0,
        left: 1,
    };
    // A while: each node that is passed says how many trees are left, which no range gives.
    while w.left > 0 {
        let kind = kind_of(s, l, w.node);
        w = one_on(w, kind);
    }
    w
}

// The trees behind a concatenation or a union: passing the first tells where the second stands.
pub fn parts_of(s: &[u8], l: Layout, t: Spot) -> Parts
    requires laid_out { LaidOut s.now l }
    requires spot_in { SpotIn s.now t }
    requires bound { 3 ≤ kind_of s.now t.node }
    requires node_bound { kind_of s.now t.node ≤ 4 }
    ensures { PartsOf s.now t result }
{
    let at = t.node + 1;
    let passed = pass_tree(s, l, at);
    let past = passed.node;
    let nodes = past - at;
    let first = Spot {
        node: at,
        nodes: nodes,
        bracket: t.bracket + 1,
        atom: t.atom,
    };
    let second = Spot {
        node: past,
        nodes: t.nodes - 1 - nodes,
        bracket: t.bracket + 1 + nodes,
        atom: t.atom + passed.atoms,
    };
    Parts {
        first: first,
        second: second,
    }
}

// Whether the atom of a node can be the symbol x.
pub fn atom_can(s: &[u8], l: Layout, kind: usize, n: usize, x: Symbol) -> bool
    requires { LaidOut s.now l }
    ensures { CanIs s.now kind n x result }
{
    if kind == 1 {
        return can_be(s, l, n, x);
    }
    is_character(x)
}

// To the atom at t by a string of n brackets, where it can be x.
fn atom_way(s: &[u8], l: Layout, t: Spot, x: Symbol, n: usize) -> Option<Way>
    requires laid_out { LaidOut s.now l }
    requires spot_in { SpotIn s.now t }
    ensures { (b : List ℕ) → AtomWay s.now t x n b result }
{
    let kind = kind_of(s, l, t.node);
    let argument = argument_of(s, l, t.node);
    if !atom_can(s, l, kind, argument, x) {
        return None;
    }
    Some(Way {
        length: n,
        place: t.atom,
        kind: kind,
        argument: argument,
    })
}

// The string of n brackets, and then from the start of the tree at t to its end.
fn through(s: &[u8], l: Layout, t: Spot, n: usize, line: &mut [u8]) -> Option<usize>
    requires laid_out { LaidOut s.now l }
    requires spot_in { SpotIn s.now t }
    requires nodes_bound { n + 2 * t.nodes ≤ most_tried }
    ensures { Through s.now t n line.old result line.new }
{
    let kind = kind_of(s, l, t.node);
    if kind < 3 {
        return None;
    }
    let inside = opened(n, t.bracket, line);
    if kind > 4 {
        return Some(closed(inside, t.bracket, line));
    }
    let two = parts_of(s, l, t);
    let first = two.first;
    let second = two.second;
    if kind == 3 {
        let a = through(s, l, first, inside, line)?;
        let b = through(s, l, second, a, line)?;
        return Some(closed(b, t.bracket, line));
    }
    if let Some(a) = through(s, l, first, inside, line) {
        return Some(closed(a, t.bracket, line));
    }
    let b = through(s, l, second, inside, line)?;
    Some(closed(b, t.bracket, line))
}

// The string of n brackets, and then from the start of the tree at t to an atom that can be x.
fn into(s: &[u8], l: Layout, t: Spot, x: Symbol, n: usize, line: &mut [u8]) -> Option<Way>
    requires laid_out { LaidOut s.now l }
    requires spot_in { SpotIn s.now t }
    requires nodes_bound { n + 2 * t.nodes ≤ most_tried }
    ensures { Into s.now t x n line.old result line.new }
{
    let kind = kind_of(s, l, t.node);
    if kind > 5 {
        return None;
    }
    let inside = opened(n, t.bracket, line);
    if kind < 3 {
        return atom_way(s, l, t, x, inside);
    }
    if kind > 4 {
        let only = part(t);
        return into(s, l, only, x, inside, line);
    }
    let two = parts_of(s, l, t);
    let first = two.first;
    let second = two.second;
    if let Some(way) = into(s, l, first, x, inside, line) {
        return Some(way);
    }
    if kind == 3 {
        let over = through(s, l, first, inside, line)?;
        return into(s, l, second, x, over, line);
    }
    into(s, l, second, x, inside, line)
}

// What follows an end of the first part, on n brackets: in a concatenation the way through the second, in a union nothing.
fn if_joined(
    s: &[u8],
    l: Layout,
    kind: usize,
    second: Spot,
    n: usize,
    line: &mut [u8],
) -> Option<usize>
    requires laid_out { LaidOut s.now l }
    requires spot_in { SpotIn s.now second }
    requires nodes_bound { n + 2 * second.nodes ≤ most_tried }
    ensures { IfJoined s.now kind second n line.old result line.new }
{
    if kind == 3 {
        return through(s, l, second, n, line);
    }
    Some(n)
}

// The string of n brackets, and then from just after atom p of the tree at t to its end.
fn out_of(s: &[u8], l: Layout, t: Spot, p: usize, n: usize, line: &mut [u8]) -> Option<usize>
    requires laid_out { LaidOut s.now l }
    requires spot_in { SpotIn s.now t }
    requires nodes_bound { n + 2 * t.nodes ≤ most_tried }
    ensures { OutOf s.now t p n line.old result line.new }
{
    let kind = kind_of(s, l, t.node);
    if kind > 5 {
        return None;
    }
    if kind < 3 {
        if p == t.atom {
            return Some(closed(n, t.bracket, line));
        }
        return None;
    }
    if kind > 4 {
        let only = part(t);
        let a = out_of(s, l, only, p, n, line)?;
        return Some(closed(a, t.bracket, line));
    }
    let two = parts_of(s, l, t);
    let first = two.first;
    let second = two.second;
    if p < second.atom {
        let a = out_of(s, l, first, p, n, line)?;
        let b = if_joined(s, l, kind, second, a, line)?;
        return Some(closed(b, t.bracket, line));
    }
    let c = out_of(s, l, second, p, n, line)?;
    Some(closed(c, t.bracket, line))
}

// The string of n brackets, and then from just after atom p of the tree at t to an atom that can be x.
fn across(
    s: &[u8],
    l: Layout,
    t: Spot,
    p: usize,
    x: Symbol,
    n: usize,
    line: &mut [u8],
) -> Option<Way>
    requires laid_out { LaidOut s.now l }
    requires spot_in { SpotIn s.now t }
    requires nodes_bound { n + 4 * t.nodes ≤ most_tried }
    ensures { Across s.now t p x n line.old result line.new }
{
    let kind = kind_of(s, l, t.node);
    if kind > 5 {
        return None;
    }
    if kind < 3 {
        return None;
    }
    if kind > 4 {
        let only = part(t);
        if let Some(way) = across(s, l, only, p, x, n, line) {
            return Some(way);
        }
        let out = out_of(s, l, only, p, n, line)?;
        return into(s, l, only, x, out, line);
    }
    let two = parts_of(s, l, t);
    let first = two.first;
    let second = two.second;
    if second.atom <= p {
        return across(s, l, second, p, x, n, line);
    }
    if let Some(way) = across(s, l, first, p, x, n, line) {
        return Some(way);
    }
    if kind == 3 {
        let out = out_of(s, l, first, p, n, line)?;
        return into(s, l, second, x, out, line);
    }
    None
}

// The string from the place p of production q to its end.
fn way_to_end(s: &[u8], l: Layout, q: usize, p: usize, line: &mut [u8]) -> Option<usize>
    requires laid_out { LaidOut s.now l }
    requires runs_inside { RunsInside s.now }
    requires trees { Trees s.now }
    requires follows_s { FollowsS s.now }
    requires q_lt_productions { q < l.productions }
    requires q_bound { node_count_of s.now q ≤ 32 }
    requires most_brackets_in_bounds { most_brackets ≤ length line.old }
    ensures end_way_is { EndWayIs s.now q p result line.new }
    ensures line_len_unchanged { length line.new ≡ length line.old }
{
    let nodes = node_count_of(s, l, q);
    if nodes == 0 {
        if p == 0 {
            return Some(0);
        }
        return None;
    }
    let first = first_node_of(s, l, q);
    let t = Spot {
        node: first,
        nodes: nodes,
        bracket: 1,
        atom: 1,
    };
    if p == 0 {
        return through(s, l, t, 0, line);
    }
    out_of(s, l, t, p, 0, line)
}

// The way from the place p of production q to its next atom that can be x.
fn way_to_atom(s: &[u8], l: Layout, q: usize, p: usize, x: Symbol, line: &mut [u8]) -> Option<Way>
    requires laid_out { LaidOut s.now l }
    requires runs_inside { RunsInside s.now }
    requires trees { Trees s.now }
    requires follows_s { FollowsS s.now }
    requires q_lt_productions { q < l.productions }
    requires q_bound { node_count_of s.now q ≤ 32 }
    requires most_brackets_in_bounds { most_brackets ≤ length line.old }
    ensures atom_way_is { AtomWayIs s.now q p x result line.new }
    ensures line_len_unchanged { length line.new ≡ length line.old }
{
    let nodes = node_count_of(s, l, q);
    if nodes == 0 {
        return None;
    }
    let first = first_node_of(s, l, q);
    let t = Spot {
        node: first,
        nodes: nodes,
        bracket: 1,
        atom: 1,
    };
    if p == 0 {
        return into(s, l, t, x, 0, line);
    }
    across(s, l, t, p, x, 0, line)
}

// The way from the place p of production q to the symbol x.
fn search(s: &[u8], l: Layout, q: usize, p: usize, x: Symbol, line: &mut [u8]) -> Option<Way>
    requires laid_out { LaidOut s.now l }
    requires runs_inside { RunsInside s.now }
    requires trees { Trees s.now }
    requires follows_s { FollowsS s.now }
    requires q_lt_productions { q < l.productions }
    requires q_bound { node_count_of s.now q ≤ 32 }
    requires most_brackets_in_bounds { most_brackets ≤ length line.old }
    ensures way_told { WayTold x s.now q p result line.new }
    ensures line_len_unchanged { length line.new ≡ length line.old }
{
    match x {
        Symbol::Tag(_) => way_to_atom(s, l, q, p, x, line),
        Symbol::Character => way_to_atom(s, l, q, p, x, line),
        Symbol::End => {
            let length = way_to_end(s, l, q, p, line)?;
            Some(Way {
                length: length,
                place: 0,
                kind: 0,
                argument: 0,
            })
        }
    }
}

// The way from the place p of production q to its next atom that can be x, or to the end where x is the end: its brackets are put
// into the first of the lent bytes.
pub fn find_way(s: &[u8], l: Layout, q: usize, p: usize, x: Symbol, line: &mut [u8]) -> Option<Way>
    requires laid_out { LaidOut s.now l }
    requires runs_inside { RunsInside s.now }
    requires trees { Trees s.now }
    requires follows_s { FollowsS s.now }
    requires q_lt_productions { q < l.productions }
    requires q_bound { node_count_of s.now q ≤ 32 }
    requires most_brackets_in_bounds { most_brackets ≤ length line.old }
    ensures { WayAs s.now q p x line.old result line.new }
{
    let mut tried = [0u8; MOST];
    let way = search(s, l, q, p, x, &mut tried)?;
    lent::put_bytes(line, 0, &tried[..way.length], true);
    Some(way)
}
