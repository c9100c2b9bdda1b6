// A content model's nodes in preorder, by value: kind and argument of each, and how deep they go.

#![tactic(auto)]

ghost use Rattle.std.specs.Prelude.{◌≡◌};
ghost use Rattle.expressions.specs.Expr.{nonterminal, anychar, atom};
ghost use Rattle.declarations.specs.Nodes.{Shows, OrNameIs, LeafNodesAre, JoinedNodes, Deeper, OverTwoIs, StarShown, MarkedAs, BehindAs};

// The bytes of the most nodes that one byte of a text makes of a model within its limits.
pub const MOST: usize = 132;

#[derive(Clone, Copy)]
pub struct NodeRow {
    // How many of the bytes are the model's, two for each node.
    pub length: usize,
    pub deep: usize,
    pub bytes: [u8; 132],
}

// A lone node.
pub fn leaf(kind: u8, argument: u8) -> NodeRow
    ensures { LeafNodesAre kind argument result }
{
    let mut bytes = [0; 132];
    bytes[0] = kind;
    bytes[1] = argument;
    NodeRow {
        length: 2,
        deep: 1,
        bytes: bytes,
    }
}

// Nodes and then others; the first alone where there is no room, which no model within its limits comes to in one byte.
fn joined(a: NodeRow, b: NodeRow) -> NodeRow
    ensures { JoinedNodes a b result }
{
    let n = a.length;
    let m = b.length;
    if m > MOST {
        return a;
    }
    if n > MOST - m {
        return a;
    }
    let mut bytes = a.bytes;
    let more = b.bytes;
    let end = lent::put_bytes(&mut bytes, n, &more[..m], true);
    NodeRow {
        length: end,
        deep: lexing::larger(a.deep, b.deep),
        bytes: bytes,
    }
}

// The same nodes, told one deeper.
fn deeper(a: NodeRow) -> NodeRow
    ensures { Deeper a result }
{
    let deep = a.deep;
    let bytes = a.bytes;
    if deep < MOST {
        return NodeRow {
            length: a.length,
            deep: deep + 1,
            bytes: bytes,
        };
    }
    a
}

// A concatenation or a union of two.
pub fn over_two(kind: u8, a: NodeRow, b: NodeRow) -> NodeRow
    ensures { OverTwoIs kind a b result }
{
    deeper(joined(leaf(kind, 0), joined(a, b)))
}

// The star of one.
pub fn starred(a: NodeRow) -> NodeRow
    ensures { StarShown a result }
{
    deeper(joined(leaf(5, 0), a))
}

// A model with its mark: x? is the union of x and the empty node, x+ is x followed by its star.
pub fn marked(mark: u8, a: NodeRow) -> NodeRow
    ensures { MarkedAs mark a result }
{
    if mark == 63 {
        return over_two(4, a, leaf(6, 0));
    }
    if mark == 42 {
        return starred(a);
    }
    if mark == 43 {
        return over_two(3, a, starred(a));
    }
    a
}

// A model behind what stands to its left in its pair of parentheses: nothing (0), models with commas (3) or with bars (4).
pub fn behind(kind: u8, left: NodeRow, a: NodeRow) -> NodeRow
    ensures { BehindAs kind left a result }
{
    if kind == 0 {
        return a;
    }
    over_two(kind, left, a)
}

// The node of a name, by its nonterminal.
pub fn name_node(number: u8) -> NodeRow
    ensures { Shows (atom (nonterminal number)) result }
{
    leaf(1, number)
}

// The node of any one character, with which mixed content begins.
pub fn character_node() -> NodeRow
    ensures { Shows (atom anychar) result }
{
    leaf(2, 0)
}

// Mixed content and one name more.
pub fn or_name(a: NodeRow, number: u8) -> NodeRow
    ensures { OrNameIs a number result }
{
    over_two(4, a, name_node(number))
}
