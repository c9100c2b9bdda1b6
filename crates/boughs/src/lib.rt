// Expressions of a sheet as text, with the programs of their nodes, into lent memory from an offset on. A dry run only counts.

#![tactic(auto)]

ghost use Rattle.std.specs.Prelude.{◌≡◌, ◌∷◌, ◌+◌, ◌*◌, ◌≤◌, ◌<◌};
ghost use Rattle.lent.specs.Put.{PutAs};
ghost use Rattle.output.specs.Reach.{farthest};
ghost use Rattle.layout.specs.LaidOut.{LaidOut};
ghost use Rattle.notation.specs.Tokens.{nonterminal, token_bytes};
ghost use Rattle.printed.specs.Expressions.{tree_text};
ghost use Rattle.asides.specs.Asides.{most_of_an_aside};
ghost use Rattle.boughs.specs.Boughs.{binds_at, leaf_text, join_at, apart_at, bare_text, inside_text, most_of_a_node, TreePut};

use asides::NONE;
use layout::Layout;

// The node past what was written, and where the next byte of text goes.
#[derive(Clone, Copy)]
pub struct Placed {
    pub next: usize,
    pub at: usize,
}

// How tightly a node of that kind binds.
fn binds_of(kind: usize) -> u8
    ensures { (result ≡ binds_at kind) × (result ≤ 3) }
{
    if kind == 4 {
        return 0;
    }
    if kind == 3 {
        return 1;
    }
    if kind == 5 {
        return 2;
    }
    3
}

// Whether the tree at node i stands in parentheses in a place that asks for so much binding.
fn stands_apart(s: &[u8], l: Layout, i: usize, asked: u8) -> bool
    requires laid_out { LaidOut s.now l }
    requires i_lt_nodes { i < l.nodes }
    ensures { result ≡ apart_at s.now i asked }
{
    if layout::first_program_of_node(s, l, i) != NONE {
        return true;
    }
    if layout::second_program_of_node(s, l, i) != NONE {
        return true;
    }
    binds_of(layout::kind_of(s, l, i)) < asked
}

// Writes a nonterminal by its number.
pub fn put_nonterminal(n: usize, out: &mut [u8], at: usize, write: bool) -> usize
    requires { (n < 256) × (at + 1 ≤ farthest) }
    ensures { PutAs write out.old at (token_bytes (nonterminal n)) out.new result }
{
    let from = lent::put_bytes(out, at, b"n", write);
    printer::put_decimal(out, from, n as u8, write)
}

// Writes a node that has no parts.
fn put_atom(kind: usize, argument: usize, out: &mut [u8], at: usize, write: bool) -> usize
    requires { (argument < 256) × (at + 1 ≤ farthest) }
    ensures { PutAs write out.old at (leaf_text kind argument) out.new result }
{
    if kind == 1 {
        return put_nonterminal(argument, out, at, write);
    }
    if kind == 2 {
        return lent::put_bytes(out, at, b"CHAR", write);
    }
    lent::put_bytes(out, at, b"EMPTY", write)
}

// Writes the sign between the two parts of a node.
fn put_join(kind: usize, out: &mut [u8], at: usize, write: bool) -> usize
    requires { at ≤ farthest + 1 }
    ensures { PutAs write out.old at (join_at kind) out.new result }
{
    if kind == 3 {
        return lent::put_bytes(out, at, b".", write);
    }
    lent::put_bytes(out, at, b"|", write)
}

// Writes the tree at node i, of at most `left` nodes, without the programs of node i. A right part asks for more binding than the node has.
#[cycle(put_bare_put_inside_put_tree)]
fn put_bare(
    s: &[u8],
    l: Layout,
    i: usize,
    left: usize,
    out: &mut [u8],
    at: usize,
    write: bool,
) -> Placed
    requires laid_out { LaidOut s.now l }
    requires le_left { (1 ≤ left) × (i + left ≤ l.nodes) × (at + most_of_a_node * left ≤ farthest + most_of_an_aside + 1) }
    ensures { TreePut (2 * most_of_an_aside + 2) bare_text s.now i left (record { write = write; lent = out.old; at = at }) result out.new }
{
    let kind = layout::kind_of(s, l, i);
    let b = binds_of(kind);
    if b == 3 {
        let argument = layout::argument_of(s, l, i);
        let n = put_atom(kind, argument, out, at, write);
        return Placed { next: i + 1, at: n };
    }
    if b == 2 {
        let e = put_tree(s, l, b + 1, i + 1, left - 1, out, at, write);
        let n = lent::put_bytes(out, e.at, b"*", write);
        return Placed {
            next: e.next,
            at: n,
        };
    }
    let e = put_tree(s, l, b, i + 1, left - 1, out, at, write);
    let middle = e.next;
    let n = put_join(kind, out, e.at, write);
    put_tree(s, l, b + 1, middle, i + left - middle, out, n, write)
}

// Writes the tree at node i with the programs of node i around it.
#[cycle(put_bare_put_inside_put_tree)]
pub fn put_inside(
    s: &[u8],
    l: Layout,
    i: usize,
    left: usize,
    out: &mut [u8],
    at: usize,
    write: bool,
) -> Placed
    requires laid_out { LaidOut s.now l }
    requires le_left { (1 ≤ left) × (i + left ≤ l.nodes) × (at + most_of_a_node * left ≤ farthest + 1) }
    ensures { TreePut 2 inside_text s.now i left (record { write = write; lent = out.old; at = at }) result out.new }
{
    let first = layout::first_program_of_node(s, l, i);
    let from = asides::put_field(s, l, first, true, out, at, write);
    let e = put_bare(s, l, i, left, out, from, write);
    let second = layout::second_program_of_node(s, l, i);
    let to = asides::put_field(s, l, second, false, out, e.at, write);
    Placed {
        next: e.next,
        at: to,
    }
}

// Writes the tree at node i, of at most `left` nodes, in parentheses where its place asks for them.
#[cycle(put_bare_put_inside_put_tree)]
fn put_tree(
    s: &[u8],
    l: Layout,
    asked: u8,
    i: usize,
    left: usize,
    out: &mut [u8],
    at: usize,
    write: bool,
) -> Placed
    requires laid_out { LaidOut s.now l }
    requires left_bound { (i + left ≤ l.nodes) × (at + most_of_a_node * left ≤ farthest) }
    ensures { TreePut 0 (tree_text asked) s.now i left (record { write = write; lent = out.old; at = at }) result out.new }
{
    if left == 0 {
        return Placed { next: i, at: at };
    }
    let apart = stands_apart(s, l, i, asked);
    let from = clauses::put_where(apart, 40, out, at, write);
    let e = put_inside(s, l, i, left, out, from, write);
    let to = clauses::put_where(apart, 41, out, e.at, write);
    Placed {
        next: e.next,
        at: to,
    }
}
