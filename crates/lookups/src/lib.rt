// Looking up in a sheet: the tag of a name, the production of a nonterminal and a tag, and where white space is no event.

#![tactic(auto)]

ghost use Rattle.std.specs.Prelude.{◌≡◌, ◌<◌, length};
ghost use Rattle.layout.specs.LaidOut.{LaidOut};
ghost use Rattle.trees.specs.Parsed.{RunsInside};
ghost use Rattle.calls.specs.Names.{same_name};
ghost use Rattle.lookups.specs.Tests.{NameTold};
ghost use Rattle.lookups.specs.Found.{TagFound, ProductionFound, BlanksTold};

use layout::Layout;

// Names are compared by bytes.
#[tactic(auto, using(crate::proofs::Names::same_pointwise))]
pub fn same_name(a: &[u8], b: &[u8]) -> bool
    ensures { result ≡ same_name a.now b.now }
{
    a == b
}

// Whether a tag's 16 bytes have this name: their first is the name's length, and the name follows.
fn has_name(tag: &[u8], name: &[u8]) -> bool
    requires { length tag.now ≡ 16 }
    ensures { NameTold tag.now name.now result }
{
    let n = layout::byte_at(tag, 0);
    if 15 < n {
        return false;
    }
    let end = n + 1;
    same_name(&tag[1..end], name)
}

// The tag that has this name.
pub fn tag_named(s: &[u8], l: Layout, name: &[u8]) -> Option<usize>
    requires { LaidOut s.now l }
    ensures { TagFound s.now name.now result }
{
    for t in 0..l.tags {
        let at = l.tags_at + 16 * t;
        let end = at + 16;
        if has_name(&s[at..end], name) {
            return Some(t);
        }
    }
    None
}

// The first production of nonterminal n with tag t.
pub fn production_for(s: &[u8], l: Layout, n: usize, t: usize) -> Option<usize>
    requires { LaidOut s.now l }
    ensures { ProductionFound s.now n t result }
{
    for q in 0..l.productions {
        let nonterminal = layout::nonterminal_of(s, l, q);
        let tag = layout::tag_number_of(s, l, q);
        if (n == nonterminal) & (t == tag) {
            return Some(q);
        }
    }
    None
}

// Whether white space is no event inside an element of production q: it has nodes, and none of them is any one character.
pub fn blanks_pass(s: &[u8], l: Layout, q: usize) -> bool
    requires laid_out { LaidOut s.now l }
    requires runs_inside { RunsInside s.now }
    requires q_lt_productions { q < l.productions }
    ensures { BlanksTold s.now q result }
{
    let count = layout::node_count_of(s, l, q);
    if count == 0 {
        return false;
    }
    let first = layout::first_node_of(s, l, q);
    let past = first + count;
    for i in first..past {
        if layout::kind_of(s, l, i) == 2 {
            return false;
        }
    }
    true
}
