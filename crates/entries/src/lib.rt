// A declaration that is over, put behind those before it: its production's record, and its nodes, which have no programs.

#![tactic(auto)]

ghost use Rattle.std.specs.Prelude.{true, ◌+◌, ◌*◌, ◌<◌, ◌^◌, length};
ghost use Rattle.lent.specs.Put.{PutAs};
ghost use Rattle.declaring.specs.Sections.{node_records};
ghost use Rattle.entries.specs.Entries.{EntryFits, EnteredIs};

use declarations::NodeRow;

// How many declarations have their records, and how many nodes they have together.
#[derive(Clone, Copy)]
pub struct Tally {
    pub productions: usize,
    pub nodes: usize,
}

// The records of nodes: kind, argument, and the fields of no programs.
pub fn put_nodes(memory: &mut [u8], at: usize, pairs: &[u8]) -> usize
    requires { at + 3 * length pairs.now < 2 ^ 64 }
    ensures { PutAs true memory.old at (node_records pairs.now) memory.new result }
{
    let mut n = at;
    for pair in pairs.chunks_exact(2) {
        let row = [pair[0], pair[1], 255, 255, 255, 255];
        n = lent::put_bytes(memory, n, &row, true);
    }
    n
}

// The records of one declaration more.
pub fn enter(
    old: Tally,
    element: usize,
    tag: usize,
    row: NodeRow,
    productions: &mut [u8],
    nodes: &mut [u8],
) -> Tally
    requires { EntryFits old element tag row }
    ensures { EnteredIs old element tag row productions.old nodes.old productions.new nodes.new result }
{
    let length = row.length;
    let bytes = row.bytes;
    let count = length / 2;
    let first = old.nodes;
    let past = records::put_production(
        productions,
        12 * old.productions,
        element,
        tag,
        first,
        count,
        0xFFFF,
        0xFFFF,
    );
    let end = put_nodes(nodes, 6 * first, &bytes[..length]);
    Tally {
        productions: old.productions + 1,
        nodes: first + count,
    }
}
