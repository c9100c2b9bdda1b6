// The productions of a sheet: number 4.
ghost use Rattle.std.specs.Prelude.{◌≡◌, ◌<◌};
ghost use Rattle.tells.specs.Tells.{Tells};
ghost use Rattle.layout.specs.Records.{nodes_before};
ghost use Rattle.layout.specs.LaidOut.{LaidOut};
ghost use Rattle.sheet.specs.Productions.{ProductionFits, Productions};

use layout::Layout;

// Whether production q is as it should be, where `before` nodes belong to those before it.
fn production_fits(s: &[u8], l: Layout, q: usize, before: usize) -> bool
    requires laid_out { LaidOut s.now l }
    requires q_lt_productions { q < l.productions }
    requires before_value { before ≡ nodes_before s.now q }
    ensures { Tells (ProductionFits s.now q) result }
{
    let names = (layout::nonterminal_of(s, l, q) <= 63) & (layout::tag_number_of(s, l, q) < l.tags);
    let run = (layout::first_node_of(s, l, q) == before) & (layout::node_count_of(s, l, q) <= 32);
    let five = layout::production_byte(s, l, q, 5) == 0;
    let ten = layout::production_byte(s, l, q, 10) == 0;
    let eleven = layout::production_byte(s, l, q, 11) == 0;
    (names & run) & (five & (ten & eleven))
}

// Whether each production is, their runs use every node, and the start is a nonterminal.
pub fn productions_fit(s: &[u8], l: Layout) -> bool
    requires { LaidOut s.now l }
    ensures { Tells (Productions s.now) result }
{
    let mut before = 0;
    for q in 0..l.productions {
        if !production_fits(s, l, q, before) {
            return false;
        }
        before += layout::node_count_of(s, l, q);
    }
    (before == l.nodes) & (l.start <= 63)
}
