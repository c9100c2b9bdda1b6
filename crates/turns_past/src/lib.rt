// The records and nodes before, one token further: a production ends with the next one's nonterminal, and its nodes are laid when its tag's parentheses close.

#![tactic(auto)]

ghost use Rattle.turns_past.specs.Turned.{PastTurned};

// `here` and `there` are the spots before and behind the token.
pub fn turn_past(
    old: pasts::Past,
    slip: slips::Slip,
    bed: beds::Bed,
    here: usize,
    there: usize,
    kind: usize,
    productions: &mut [u8],
    nodes: &mut [u8],
) -> pasts::Past
    ensures { PastTurned old slip bed here there kind productions.old nodes.old productions.new nodes.new result }
{
    if here == 7 {
        if there == 8 {
            let row = bed.finished();
            return pasts::lay(old, row, nodes);
        }
        return old;
    }
    if kind == 0 {
        if 8 <= here {
            return pasts::end(old, slip, productions);
        }
        return old;
    }
    old
}
