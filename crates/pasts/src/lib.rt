// The records of the productions before, and the nodes of this one: a production's record is put behind the others when it ends, and its nodes are laid
// behind the others when its tag's parentheses close.

#![tactic(auto)]

ghost use Rattle.std.specs.Prelude.{◌≡◌, ◌<◌};
ghost use Rattle.pasts.specs.Pasts.{fitting, PastEndIs, LayIs};

// How many productions have their records, how many bytes their nodes have, and how many bytes nodes have in all.
#[derive(Clone, Copy)]
pub struct Past {
    pub productions: usize,
    pub before: usize,
    pub nodes: usize,
}

// Whether a record can hold the numbers, and there is room for it.
fn fits(old: Past, slip: slips::Slip) -> bool
    requires { old.before < 2000 }
    ensures { result ≡ fitting old slip }
{
    (old.productions < 64)
        & ((old.before <= old.nodes)
            & ((old.nodes <= old.before + 192)
                & ((old.nodes <= 1536)
                    & ((slip.nonterm < 256)
                        & ((slip.tag < 256) & ((slip.front <= 65535) & (slip.back <= 65535)))))))
}

// A production ends.
pub fn end(old: Past, slip: slips::Slip, memory: &mut [u8]) -> Past
    ensures { PastEndIs old slip memory.old memory.new result }
{
    if old.before < 2000 {
        if fits(old, slip) {
            let at = 12 * old.productions;
            let first = old.before / 6;
            let count = (old.nodes - old.before) / 6;
            let past = records::put_production(
                memory,
                at,
                slip.nonterm,
                slip.tag,
                first,
                count,
                slip.front,
                slip.back,
            );
            return Past {
                productions: old.productions + 1,
                before: old.nodes,
                nodes: old.nodes,
            };
        }
        return old;
    }
    old
}

// The parentheses of a production's tag close.
pub fn lay(old: Past, row: beds::Row, memory: &mut [u8]) -> Past
    ensures { LayIs old row memory.old memory.new result }
{
    let n = row.length;
    let bytes = row.bytes;
    if 192 < n {
        return old;
    }
    if 1536 < old.nodes {
        return old;
    }
    let next = lent::put_bytes(memory, old.nodes, &bytes[0..n], true);
    Past {
        productions: old.productions,
        before: old.before,
        nodes: next,
    }
}
