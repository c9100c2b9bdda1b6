// Nonterminals that are used have productions: number 7.
ghost use Rattle.tells.specs.Tells.{Tells};
ghost use Rattle.layout.specs.LaidOut.{LaidOut};
ghost use Rattle.sheet.specs.Grounded.{Produced, Grounded};

use layout::Layout;

// Whether a production is of nonterminal n.
fn produced(s: &[u8], l: Layout, n: usize) -> bool
    requires { LaidOut s.now l }
    ensures { Tells (Produced s.now n) result }
{
    for q in 0..l.productions {
        if layout::nonterminal_of(s, l, q) == n {
            return true;
        }
    }
    false
}

// Whether one is of the start, and one of each nonterminal that is an atom.
pub fn grounded(s: &[u8], l: Layout) -> bool
    requires { LaidOut s.now l }
    ensures { Tells (Grounded s.now) result }
{
    if !produced(s, l, l.start) {
        return false;
    }
    for i in 0..l.nodes {
        if layout::kind_of(s, l, i) == 1 {
            if !produced(s, l, layout::argument_of(s, l, i)) {
                return false;
            }
        }
    }
    true
}
