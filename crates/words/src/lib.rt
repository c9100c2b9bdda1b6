// Words for the parts of a sheet and for the numbers: tags, atoms, next symbols, expressions, what a number means.

#![tactic(auto)]

mod expression;
mod numbers;
mod speech;
mod symbols;

ghost use Rattle.std.specs.Prelude.{◌<◌};
ghost use Rattle.layout.specs.LaidOut.{LaidOut};
ghost use Rattle.trees.specs.Parsed.{RunsInside};
ghost use Rattle.words.specs.Atoms.{FoundIs};

pub use expression::{Past, say_expression, say_numbered, say_tree};
use layout::{Layout, first_node_of, kind_of, node_count_of};
pub use numbers::{say_meaning, table, tell_of_declarations};
pub use speech::{STDERR_FILENO, STDOUT_FILENO, say, say_number, say_ordinal, tell, tell_number};
pub use symbols::{say_atom, say_empty_tag, say_end_tag, say_next, say_tag, say_tags_of};

// The node that is production q's p-th atom, by its number in the sheet, atoms from 1 left to right.
pub fn node_of_atom(s: &[u8], l: Layout, q: usize, p: usize) -> Option<usize>
    requires laid_out { LaidOut s.now l }
    requires runs_inside { RunsInside s.now }
    requires q_lt_productions { q < l.productions }
    ensures { FoundIs s.now q p result }
{
    let first = first_node_of(s, l, q);
    let nodes = node_count_of(s, l, q);
    let mut before = 0;
    for k in 0..nodes {
        let here = usize::from(kind_of(s, l, first + k) < 3);
        before += here;
        if (here == 1) & (before == p) {
            return Some(first + k);
        }
    }
    None
}
