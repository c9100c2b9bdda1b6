// A shortest row of atoms up to a place of an expression, found over a sheet's nodes.

#![tactic(auto)]

ghost use Rattle.std.specs.Prelude.{[], ◌+◌, ◌≤◌, ◌<◌};
ghost use Rattle.limits.specs.Limits.{nodes_at_most};
ghost use Rattle.layout.specs.LaidOut.{LaidOut};
ghost use Rattle.ways.specs.Spot.{SpotIn};
ghost use Rattle.shortest.specs.Held.{RowIs};
ghost use Rattle.shortest.specs.Walks.{Longer, WordBehind, AtomBehind};
ghost use Rattle.shortest.specs.Answers.{ShortestAs};

use layout::{Layout, first_node_of, kind_of, layout_of, node_count_of};
use sheet::defect;
use trees::atoms_of;
use ways::{Spot, part, parts_of};

// The most atoms of a row: no atom is in it twice, and a production has no more nodes.
pub const LONGEST: usize = 32;

// Atoms by their numbers, one to a byte; the bytes behind them are 0.
#[derive(Clone, Copy)]
pub struct Row {
    pub length: usize,
    pub bytes: [u8; 32],
}

fn no_atoms() -> Row
    ensures { RowIs [] result }
{
    Row {
        length: 0,
        bytes: [0u8; LONGEST],
    }
}

// One atom more.
fn longer(w: Row, atom: usize) -> Row
    requires length_lt_nodes_at_most { w.length < nodes_at_most }
    requires atom_bound { atom < 256 }
    ensures { Longer w atom result }
{
    let n = w.length;
    let mut bytes = w.bytes;
    bytes[n] = atom as u8;
    Row {
        length: n + 1,
        bytes: bytes,
    }
}

// A shortest word of the tree at t, behind the row w: a star goes round no time, and a union goes left unless right is shorter.
fn word(s: &[u8], l: Layout, t: Spot, w: Row) -> Row
    requires laid_out { LaidOut s.now l }
    requires spot_in { SpotIn s.now t }
    requires nodes_bound { w.length + t.nodes ≤ nodes_at_most }
    ensures { WordBehind s.now t w result }
{
    let kind = kind_of(s, l, t.node);
    if kind > 4 {
        return w;
    }
    if kind < 3 {
        return longer(w, t.atom);
    }
    let two = parts_of(s, l, t);
    let first = two.first;
    let second = two.second;
    let a = word(s, l, first, w);
    if kind == 3 {
        return word(s, l, second, a);
    }
    let b = word(s, l, second, w);
    if b.length < a.length {
        return b;
    }
    a
}

// The atoms of the tree at t up to its atom p, behind the row w: those of the part that has p, in a concatenation behind a shortest word of what stands before.
fn up_to(s: &[u8], l: Layout, t: Spot, p: usize, w: Row) -> Row
    requires laid_out { LaidOut s.now l }
    requires spot_in { SpotIn s.now t }
    requires nodes_bound { w.length + t.nodes ≤ nodes_at_most }
    ensures { AtomBehind s.now t p w result }
{
    let kind = kind_of(s, l, t.node);
    if kind > 5 {
        return w;
    }
    if kind < 3 {
        return longer(w, t.atom);
    }
    if kind > 4 {
        let only = part(t);
        return up_to(s, l, only, p, w);
    }
    let two = parts_of(s, l, t);
    let first = two.first;
    let second = two.second;
    if p < second.atom {
        return up_to(s, l, first, p, w);
    }
    if kind == 3 {
        let a = word(s, l, first, w);
        return up_to(s, l, second, p, a);
    }
    up_to(s, l, second, p, w)
}

// A shortest row of atoms up to the place p of production q, that atom with it; no atom where the bytes are no sheet, or there is no such place.
pub fn shortest(sheet: &[u8], q: usize, p: usize) -> Row
    ensures { ShortestAs sheet.now q p result }
{
    let none = no_atoms();
    if defect(sheet) > 0 {
        return none;
    }
    let l = layout_of(sheet);
    if l.productions <= q {
        return none;
    }
    if p == 0 {
        return none;
    }
    let atoms = atoms_of(sheet, l, q);
    if atoms < p {
        return none;
    }
    let nodes = node_count_of(sheet, l, q);
    let first = first_node_of(sheet, l, q);
    let t = Spot {
        node: first,
        nodes: nodes,
        bracket: 1,
        atom: 1,
    };
    up_to(sheet, l, t, p, none)
}
