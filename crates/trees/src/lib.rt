// The expression trees that a sheet's node records are: number 5, and the counts of bracket strings that rules T and S ask for.

#![tactic(auto)]

ghost use Rattle.std.specs.Prelude.{◌≡◌, cond, ◌&&◌, ◌+◌, ◌≤◌, ◌<◌, ltb, length};
ghost use Rattle.expressions.specs.Expr.{cat as cat_exp, alt as alt_exp};
ghost use Rattle.expressions.specs.Grammar.{nonterminals};
ghost use Rattle.expressions.specs.Count.{one, add, mul, rep, bit as bit_count};
ghost use Rattle.expressions.specs.Listed.{is_many};
ghost use Rattle.tells.specs.Tells.{Tells};
ghost use Rattle.layout.specs.LaidOut.{LaidOut};
ghost use Rattle.trees.specs.Trees.{Trees};
ghost use Rattle.trees.specs.Parsed.{RunsInside, NodeFits, ParsedAt, HasContent};
ghost use Rattle.trees.specs.Tally.{count_of, LeafOf, EmptyOf, StarOf, JoinOf, TreeIn, Tallied};
ghost use Rattle.trees.specs.Answers.{AlikeIs, CanBeIs, CharacterIs, AtomsIs};
ghost use Rattle.trees.specs.Sums.{Zeros, RoomForOne, cells, OneAlike, AllAlike, sum_cells, raised, TagsRaised, PassedAs, UnionAs, Spread, CountedFrom};

use layout::{
    Layout, argument_of, first_node_of, kind_of, node_count_of, nonterminal_of, tag_number_of,
};

// The most tags; and nonterminals are 0 to 63.
const TAGS: usize = 64;

const NONTERMINALS: usize = 64;

// The deepest that an expression may be.
const DEEPEST: usize = 12;

// The next symbol: a tag by its number, a character, or the end of the element.
#[derive(Clone, Copy)]
pub enum Symbol {
    Tag(usize),
    Character,
    End,
}

// How many bracket strings: none, one, or more.
#[derive(Clone, Copy)]
pub enum Number {
    None,
    One,
    Many,
}

// The counts to a tree's end, from its start and from just after a place, the node past the tree, and the atom past its atoms.
#[derive(Clone, Copy)]
pub struct Tally {
    pub null: Number,
    pub last: Number,
    pub next: usize,
    pub atom: usize,
}

// The bracket strings from a place to a tree's end, whether it is in the tree or before it, the node past the tree, and the atom past its atoms.
#[derive(Clone, Copy)]
struct Onward {
    out: Number,
    next: usize,
    atom: usize,
}

// Whether a node has the argument that its kind asks for.
fn node_fits(kind: usize, argument: usize) -> bool
    ensures { Tells (NodeFits kind argument) result }
{
    if kind == 1 {
        return argument < NONTERMINALS;
    }
    if kind < 2 {
        return false;
    }
    if kind > 6 {
        return false;
    }
    argument == 0
}

// The node past the tree at node i, which may have `left` nodes and be `deep` deep; none where no such tree lies there.
fn parse(s: &[u8], l: Layout, i: usize, left: usize, deep: usize) -> Option<usize>
    requires laid_out { LaidOut s.now l }
    requires left_bound { i + left ≤ l.nodes }
    ensures { ParsedAt s.now i left deep result }
{
    if left == 0 {
        return None;
    }
    if deep == 0 {
        return None;
    }
    let kind = kind_of(s, l, i);
    let argument = argument_of(s, l, i);
    if !node_fits(kind, argument) {
        return None;
    }
    if kind > 5 {
        return Some(i + 1);
    }
    if kind < 3 {
        return Some(i + 1);
    }
    let j = parse(s, l, i + 1, left - 1, deep - 1)?;
    if kind == 5 {
        return Some(j);
    }
    parse(s, l, j, i + left - j, deep - 1)
}

// Whether production q's nodes are none, or one whole tree.
fn content_fits(s: &[u8], l: Layout, q: usize) -> bool
    requires laid_out { LaidOut s.now l }
    requires runs_inside { RunsInside s.now }
    requires q_lt_productions { q < l.productions }
    ensures { Tells (HasContent s.now q) result }
{
    let nodes = node_count_of(s, l, q);
    if nodes == 0 {
        return true;
    }
    let first = first_node_of(s, l, q);
    let Some(past) = parse(s, l, first, nodes, DEEPEST) else {
        return false;
    };
    past == first + nodes
}

// Number 5.
pub fn trees_fit(s: &[u8], l: Layout) -> bool
    requires laid_out { LaidOut s.now l }
    requires runs_inside { RunsInside s.now }
    ensures { Tells (Trees s.now) result }
{
    for q in 0..l.productions {
        if !content_fits(s, l, q) {
            return false;
        }
    }
    true
}

// What one production adds to a count of those that are alike in both.
fn one_if_both(a: bool, b: bool) -> usize
    ensures value { result ≡ cond (a && b) 1 0 }
    ensures upper_bound { result ≤ 1 }
{
    usize::from(a && b)
}

// The number of productions of nonterminal m and tag t.
pub fn alike(s: &[u8], l: Layout, m: usize, t: usize) -> usize
    requires { LaidOut s.now l }
    ensures { AlikeIs s.now m t result }
{
    let mut count = 0;
    for q in 0..l.productions {
        let nonterminal = nonterminal_of(s, l, q);
        let tag = tag_number_of(s, l, q);
        count += one_if_both(m == nonterminal, t == tag);
    }
    count
}

// Whether a nonterminal has a production with the tag that is next.
pub fn can_be(s: &[u8], l: Layout, n: usize, x: Symbol) -> bool
    requires { LaidOut s.now l }
    ensures { CanBeIs s.now n x result }
{
    match x {
        Symbol::Tag(t) => alike(s, l, n, t) > 0,
        Symbol::Character => false,
        Symbol::End => false,
    }
}

// Whether an atom that is any one character can be next.
pub fn is_character(x: Symbol) -> bool
    ensures { CharacterIs x result }
{
    matches!(x, Symbol::Character)
}

// Either of two sets of strings that share none.
fn plus(a: Number, b: Number) -> Number
    ensures { count_of result ≡ add (count_of a) (count_of b) }
{
    match a {
        Number::None => b,
        Number::One => match b {
            Number::None => Number::One,
            Number::One => Number::Many,
            Number::Many => Number::Many,
        },
        Number::Many => Number::Many,
    }
}

// Each string of the one set before each of the other.
fn times(a: Number, b: Number) -> Number
    ensures { count_of result ≡ mul (count_of a) (count_of b) }
{
    match a {
        Number::None => Number::None,
        Number::One => b,
        Number::Many => match b {
            Number::None => Number::None,
            Number::One => Number::Many,
            Number::Many => Number::Many,
        },
    }
}

// Any number of strings of the one set, then one of the other.
fn again(a: Number, b: Number) -> Number
    ensures { count_of result ≡ rep (count_of a) (count_of b) }
{
    match a {
        Number::None => b,
        Number::One => times(Number::Many, b),
        Number::Many => times(Number::Many, b),
    }
}

// The one string that there is, or none.
fn bit(b: bool) -> Number
    ensures { count_of result ≡ bit_count b }
{
    if b { Number::One } else { Number::None }
}

// Whether two different strings go the same way: then the next symbol does not tell which.
pub fn is_many(n: Number) -> bool
    ensures { result ≡ is_many (count_of n) }
{
    matches!(n, Number::Many)
}

// An atom: whether it is the place.
fn leaf(here: bool, next: usize, atom: usize) -> Tally
    ensures { LeafOf here next atom result }
{
    let last = bit(here);
    Tally {
        null: Number::None,
        last: last,
        next: next,
        atom: atom,
    }
}

// The empty node: its own brackets alone.
fn hollow(next: usize, atom: usize) -> Tally
    ensures { EmptyOf next atom result }
{
    Tally {
        null: Number::One,
        last: Number::None,
        next: next,
        atom: atom,
    }
}

// A star over l.
fn star(l: Tally) -> Tally
    ensures { StarOf l result }
{
    let n = l.null;
    let s = l.last;
    let turns = again(n, Number::One);
    let end = times(s, turns);
    Tally {
        null: turns,
        last: end,
        next: l.next,
        atom: l.atom,
    }
}

// l and then r.
fn cat(l: Tally, r: Tally) -> Tally
    ensures { JoinOf cat_exp l r result }
{
    let ln = l.null;
    let ls = l.last;
    let rn = r.null;
    let rs = r.last;
    let null = times(ln, rn);
    let out = times(ls, rn);
    let last = plus(out, rs);
    Tally {
        null: null,
        last: last,
        next: r.next,
        atom: r.atom,
    }
}

// l or r.
fn alt(l: Tally, r: Tally) -> Tally
    ensures { JoinOf alt_exp l r result }
{
    let ln = l.null;
    let ls = l.last;
    let rn = r.null;
    let rs = r.last;
    let null = plus(ln, rn);
    let last = plus(ls, rs);
    Tally {
        null: null,
        last: last,
        next: r.next,
        atom: r.atom,
    }
}

// The counts to the end of the tree at node `at`, of at most `left` nodes, whose first atom is j: from its start, and from just after atom p.
pub fn walk_tree(s: &[u8], l: Layout, p: usize, at: usize, left: usize, j: usize) -> Tally
    requires laid_out { LaidOut s.now l }
    requires tree_in { TreeIn s.now at left j }
    ensures { Tallied s.now p at j result }
{
    let kind = kind_of(s, l, at);
    if kind > 5 {
        return hollow(at + 1, j);
    }
    if kind < 3 {
        return leaf(p == j, at + 1, j + 1);
    }
    let first = walk_tree(s, l, p, at + 1, left - 1, j);
    if kind == 5 {
        return star(first);
    }
    let middle = first.next;
    let atom = first.atom;
    let second = walk_tree(s, l, p, middle, left - 1, atom);
    if kind == 3 {
        return cat(first, second);
    }
    alt(first, second)
}

// One more production of nonterminal m and tag t. No sheet that fits has other numbers.
fn one_alike(known: &mut [u8], m: usize, t: usize)
    requires known_len { length known.old ≡ cells }
    requires room_for_one { RoomForOne known.old }
    ensures { OneAlike m t known.old known.new }
{
    if m >= NONTERMINALS {
        return;
    }
    if t >= TAGS {
        return;
    }
    let i = TAGS * m + t;
    known[i] += 1;
}

// For each nonterminal and tag the number of productions of both, into memory that is lent as zeros: nonterminal m's tags from TAGS * m on.
pub fn all_alike(s: &[u8], l: Layout, known: &mut [u8])
    requires laid_out { LaidOut s.now l }
    requires known_len { length known.old ≡ cells }
    requires zeros { Zeros known.old }
    ensures { AllAlike s.now known.new }
{
    for q in 0..l.productions {
        let m = nonterminal_of(s, l, q);
        let t = tag_number_of(s, l, q);
        one_alike(known, m, t);
    }
}

// A sum with n more, where the symbol is one that the atom can be.
fn raise(sum: u8, alike: u8, n: Number) -> u8
    ensures { result ≡ raised sum (mul (count_of n) (bit_count (ltb 0 alike))) }
{
    let hit = bit(alike > 0);
    let more = times(n, hit);
    match more {
        Number::None => sum,
        Number::One => { if sum == 0 { 1 } else { 2 } }
        Number::Many => 2,
    }
}

// n bracket strings lead to an atom of nonterminal m: the sum of each of its tags is raised.
fn raise_tags(known: &[u8], sums: &mut [u8], m: usize, n: Number)
    requires known_len { length known.now ≡ cells }
    requires sums_len { length sums.old ≡ sum_cells }
    requires m_lt_nonterminals { m < nonterminals }
    ensures { TagsRaised known.now m (count_of n) sums.old sums.new }
{
    let from = TAGS * m;
    for t in 0..TAGS {
        sums[t] = raise(sums[t], known[from + t], n);
    }
}

// The bracket strings from p to the start of a star's part: those to the star, and those from p in it back to its start, then any number of empty turns.
fn turned(n: Number, part: Tally) -> Number
    ensures { count_of result ≡ mul (add (count_of n) (count_of part.last)) (rep (count_of part.null) one) }
{
    let null = part.null;
    let last = part.last;
    let turns = again(null, Number::One);
    let starts = plus(n, last);
    times(starts, turns)
}

// An atom is behind: what leads to its end starts there.
fn passed(here: bool, next: usize, atom: usize) -> Onward
    ensures { PassedAs here next atom result }
{
    let out = bit(here);
    Onward {
        out: out,
        next: next,
        atom: atom,
    }
}

// Both parts of a union are behind: n lead to the end of the first.
fn either(n: Number, second: Onward) -> Onward
    ensures { UnionAs (count_of n) second result }
{
    let m = second.out;
    let out = plus(n, m);
    Onward {
        out: out,
        next: second.next,
        atom: second.atom,
    }
}

// Where n bracket strings lead from the place p to the start of the tree at node `at`: each sum is raised by the number of those that lead on
// to an atom of the tree that can be its symbol, with those from p in the tree itself.
fn spread(
    s: &[u8],
    l: Layout,
    known: &[u8],
    sums: &mut [u8],
    p: usize,
    at: usize,
    left: usize,
    j: usize,
    n: Number,
) -> Onward
    requires laid_out { LaidOut s.now l }
    requires trees { Trees s.now }
    requires all_alike { AllAlike s.now known.now }
    requires sums_len { length sums.old ≡ sum_cells }
    requires tree_in { TreeIn s.now at left j }
    ensures { Spread s.now p at j (count_of n) sums.old sums.new result }
{
    let kind = kind_of(s, l, at);
    if kind > 5 {
        return Onward {
            out: n,
            next: at + 1,
            atom: j,
        };
    }
    if kind == 1 {
        let m = argument_of(s, l, at);
        raise_tags(known, sums, m, n);
        return passed(p == j, at + 1, j + 1);
    }
    if kind == 2 {
        sums[TAGS] = raise(sums[TAGS], 1, n);
        return passed(p == j, at + 1, j + 1);
    }
    if kind == 5 {
        let part = walk_tree(s, l, p, at + 1, left - 1, j);
        let starts = turned(n, part);
        spread(s, l, known, sums, p, at + 1, left - 1, j, starts);
        return Onward {
            out: starts,
            next: part.next,
            atom: part.atom,
        };
    }
    let first = spread(s, l, known, sums, p, at + 1, left - 1, j, n);
    let middle = first.next;
    let atom = first.atom;
    let out = first.out;
    if kind == 3 {
        return spread(s, l, known, sums, p, middle, left - 1, atom, out);
    }
    let second = spread(s, l, known, sums, p, middle, left - 1, atom, n);
    either(out, second)
}

// The bracket strings from the place p of production q, counted for each next symbol at once: each sum is raised by the number of those to an
// atom that can be its symbol, and the answer is the number of those to the end.
pub fn count_from(s: &[u8], l: Layout, known: &[u8], sums: &mut [u8], q: usize, p: usize) -> Number
    requires laid_out { LaidOut s.now l }
    requires runs_inside { RunsInside s.now }
    requires trees { Trees s.now }
    requires all_alike { AllAlike s.now known.now }
    requires sums_len { length sums.old ≡ sum_cells }
    requires q_lt_productions { q < l.productions }
    ensures { CountedFrom s.now q p sums.old sums.new result }
{
    let start = bit(p == 0);
    let nodes = node_count_of(s, l, q);
    if nodes == 0 {
        return start;
    }
    let first = first_node_of(s, l, q);
    let onward = spread(s, l, known, sums, p, first, nodes, 1, start);
    onward.out
}

// The number of production q's atoms: its places are 0 to that.
pub fn atoms_of(s: &[u8], l: Layout, q: usize) -> usize
    requires laid_out { LaidOut s.now l }
    requires runs_inside { RunsInside s.now }
    requires trees { Trees s.now }
    requires q_lt_productions { q < l.productions }
    ensures { AtomsIs s.now q result }
{
    let nodes = node_count_of(s, l, q);
    if nodes == 0 {
        return 0;
    }
    let first = first_node_of(s, l, q);
    let t = walk_tree(s, l, 0, first, nodes, 1);
    t.atom - 1
}
