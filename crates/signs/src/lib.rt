// Which token of its production a node of a sheet is: how many nodes a text writes before it, where the sign stands between the parts or behind the only one.

#![tactic(auto)]

ghost use Rattle.std.specs.Prelude.{◌≤◌, ◌<◌};
ghost use Rattle.layout.specs.LaidOut.{LaidOut};
ghost use Rattle.layout.specs.Records.{node_count_of};
ghost use Rattle.trees.specs.Trees.{Trees};
ghost use Rattle.trees.specs.Parsed.{RunsInside};
ghost use Rattle.ways.specs.Spot.{SpotIn};
ghost use Rattle.signs.specs.Order.{WrittenBefore, PostIn, PostIs};

use layout::{Layout, first_node_of, kind_of, layout_of, node_count_of};
use sheet::defect;
use ways::{Spot, part, parts_of};

// How many nodes of the tree at t a text writes before the node of bracket n.
fn written_before(s: &[u8], l: Layout, t: Spot, n: usize) -> usize
    requires laid_out { LaidOut s.now l }
    requires spot_in { SpotIn s.now t }
    ensures { WrittenBefore s.now t n result }
{
    let kind = kind_of(s, l, t.node);
    if kind > 5 {
        return 0;
    }
    if kind < 3 {
        return 0;
    }
    if kind > 4 {
        if n == t.bracket {
            return t.nodes - 1;
        }
        let only = part(t);
        return written_before(s, l, only, n);
    }
    let two = parts_of(s, l, t);
    let first = two.first;
    let second = two.second;
    if n == t.bracket {
        return first.nodes;
    }
    if n < second.bracket {
        return written_before(s, l, first, n);
    }
    first.nodes + 1 + written_before(s, l, second, n)
}

// Of production q's posts, the tag being the first, the one that is the node of bracket n.
fn post_in(s: &[u8], l: Layout, q: usize, n: usize) -> usize
    requires laid_out { LaidOut s.now l }
    requires runs_inside { RunsInside s.now }
    requires trees { Trees s.now }
    requires q_lt_productions { q < l.productions }
    requires q_bound { node_count_of s.now q ≤ 32 }
    ensures { PostIn s.now q n result }
{
    let nodes = node_count_of(s, l, q);
    if nodes == 0 {
        return 0;
    }
    let first = first_node_of(s, l, q);
    let t = Spot {
        node: first,
        nodes: nodes,
        bracket: 1,
        atom: 1,
    };
    1 + written_before(s, l, t, n)
}

// Of the posts of production q in a text that is written as this sheet, the one that is the node of bracket n. Where the bytes are no sheet, or have no
// such node, that is the tag, or some other.
pub fn post_of(sheet: &[u8], q: usize, n: usize) -> usize
    ensures { PostIs sheet.now q n result }
{
    if defect(sheet) > 0 {
        return 0;
    }
    let l = layout_of(sheet);
    if l.productions <= q {
        return 0;
    }
    post_in(sheet, l, q, n)
}
