// The shape that a salvage run asks of a sheet: the root's tag and the records' tag, or that the sheet has another shape (34). And the two byte strings at which
// reading resumes.

#![tactic(auto)]

ghost use Rattle.std.specs.Prelude.{◌≡◌, ◌<◌};
ghost use Rattle.layout.specs.LaidOut.{LaidOut};
ghost use Rattle.trees.specs.Parsed.{RunsInside};
ghost use Rattle.shapes.specs.Told.{StarTold, TagTold, FirstTold, NamesTold, ShapedTold, AllShapedTold, ShapeTold};
ghost use Rattle.shapes.specs.Marks.{TagThere, MarkPut};

use layout::Layout;

// The longest start tag or end tag of a sheet's tag.
pub const MARK: usize = 18;

// The tags of a sheet whose start is a star over records: the root's, and the records'.
#[derive(Clone, Copy)]
pub struct Shape {
    pub root_tag: usize,
    pub record_tag: usize,
}

// The nonterminal that production q's expression is a star over.
fn star_over(s: &[u8], l: Layout, q: usize) -> Option<usize>
    requires laid_out { LaidOut s.now l }
    requires runs_inside { RunsInside s.now }
    requires q_lt_productions { q < l.productions }
    ensures { StarTold s.now q result }
{
    if layout::node_count_of(s, l, q) != 2 {
        return None;
    }
    let i = layout::first_node_of(s, l, q);
    if layout::kind_of(s, l, i + 1) != 1 {
        return None;
    }
    Some(layout::argument_of(s, l, i + 1))
}

// The tag of nonterminal n where it has one production.
fn only_tag(s: &[u8], l: Layout, n: usize) -> Option<usize>
    requires { LaidOut s.now l }
    ensures { TagTold s.now n result }
{
    let mut seen = None;
    for q in 0..l.productions {
        if n == layout::nonterminal_of(s, l, q) {
            match seen {
                Some(_) => return None,
                None => seen = Some(layout::tag_number_of(s, l, q)),
            }
        }
    }
    seen
}

// What the first of nonterminal n's productions that is a star over a nonterminal is a star over.
fn first_star(s: &[u8], l: Layout, n: usize) -> Option<usize>
    requires laid_out { LaidOut s.now l }
    requires runs_inside { RunsInside s.now }
    ensures { FirstTold s.now n result }
{
    for q in 0..l.productions {
        if n == layout::nonterminal_of(s, l, q) {
            if let Some(star) = star_over(s, l, q) {
                return Some(star);
            }
        }
    }
    None
}

// Whether production q's expression names nonterminal n.
fn names(s: &[u8], l: Layout, q: usize, n: usize) -> bool
    requires laid_out { LaidOut s.now l }
    requires runs_inside { RunsInside s.now }
    requires q_lt_productions { q < l.productions }
    ensures { NamesTold s.now q n result }
{
    let first = layout::first_node_of(s, l, q);
    let past = first + layout::node_count_of(s, l, q);
    for i in first..past {
        let kind = layout::kind_of(s, l, i);
        let argument = layout::argument_of(s, l, i);
        if (kind == 1) & (n == argument) {
            return true;
        }
    }
    false
}

// Whether production q has its part in the shape: a production of the start is a star over n, those of the start and of n alone have their tags, no expression
// names the start, and only one of the start's names n.
fn shaped_at(s: &[u8], l: Layout, start: usize, n: usize, t: usize, r: usize, q: usize) -> bool
    requires laid_out { LaidOut s.now l }
    requires runs_inside { RunsInside s.now }
    requires q_lt_productions { q < l.productions }
    ensures { ShapedTold s.now start n t r q result }
{
    let nonterminal = layout::nonterminal_of(s, l, q);
    let tag = layout::tag_number_of(s, l, q);
    let over = star_over(s, l, q);
    let root = start == nonterminal;
    let of_root = !root | (Some(n) == over);
    let root_tag = !(tag == t) | root;
    let record_tag = !(tag == r) | (n == nonterminal);
    let named = names(s, l, q, start);
    let record_named = names(s, l, q, n);
    of_root & (root_tag & (record_tag & (!named & (root | !record_named))))
}

// Whether each production has.
fn all_shaped(s: &[u8], l: Layout, start: usize, n: usize, t: usize, r: usize) -> bool
    requires laid_out { LaidOut s.now l }
    requires runs_inside { RunsInside s.now }
    ensures { AllShapedTold s.now start n t r result }
{
    for q in 0..l.productions {
        if !shaped_at(s, l, start, n, t, r, q) {
            return false;
        }
    }
    true
}

// The root's tag and the records' tag, where the sheet is of the shape.
pub fn shape_of(s: &[u8], l: Layout) -> Option<Shape>
    requires laid_out { LaidOut s.now l }
    requires runs_inside { RunsInside s.now }
    ensures { ShapeTold s.now result }
{
    let start = l.start;
    let root = only_tag(s, l, start)?;
    let n = first_star(s, l, start)?;
    let record = only_tag(s, l, n)?;
    if n == start {
        return None;
    }
    if !all_shaped(s, l, start, n, root, record) {
        return None;
    }
    Some(Shape {
        root_tag: root,
        record_tag: record,
    })
}

// Writes the start tag or the end tag of tag t, without white space, and answers its length.
pub fn put_mark(s: &[u8], l: Layout, t: usize, ending: bool, mark: &mut [u8; MARK]) -> usize
    requires laid_out { LaidOut s.now l }
    requires tag_there { TagThere s.now t }
    ensures { MarkPut s.now t ending mark.new result }
{
    visits::put_tag(s, t, ending, mark, 0, true)
}
