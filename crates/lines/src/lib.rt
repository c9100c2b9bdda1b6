// Productions of a sheet as lines of text, and its whole text, into lent memory from an offset on. A dry run only counts.

#![tactic(auto)]

ghost use Rattle.std.specs.Prelude.{◌+◌, ◌≤◌, ◌<◌};
ghost use Rattle.output.specs.Reach.{farthest};
ghost use Rattle.layout.specs.LaidOut.{LaidOut};
ghost use Rattle.trees.specs.Parsed.{RunsInside};
ghost use Rattle.visits.specs.Written.{Written, TagNameAt};
ghost use Rattle.lines.specs.Lines.{head_of, inside_of, element_of, line_of, most_of_a_head, most_inside, most_of_a_line, most_of_a_text, RulePut, LinesPut, TextPut};

use layout::Layout;

// Writes the name of tag t.
fn put_name(s: &[u8], t: usize, out: &mut [u8], at: usize, write: bool) -> usize
    requires { (t < 256) × (at + 255 ≤ farthest) }
    ensures { Written 255 (TagNameAt s.now t) (record { write = write; lent = out.old; at = at }) result out.new }
{
    let from = 16 * t + 1;
    if s.len() < from {
        return at;
    }
    let n = layout::byte_at(s, 16 * t);
    if s.len() - from < n {
        return at;
    }
    let to = from + n;
    lent::put_bytes(out, at, &s[from..to], write)
}

// Writes what stands between the parentheses of production q's tag.
fn put_content(s: &[u8], l: Layout, q: usize, out: &mut [u8], at: usize, write: bool) -> usize
    requires laid_out { LaidOut s.now l }
    requires runs_inside { RunsInside s.now }
    requires q_lt_productions { (q < l.productions) × (at + most_inside ≤ farthest) }
    ensures { RulePut most_inside inside_of s.now q (record { write = write; lent = out.old; at = at }) result out.new }
{
    let count = layout::node_count_of(s, l, q);
    if count == 0 {
        return at;
    }
    let first = layout::first_node_of(s, l, q);
    let e = boughs::put_inside(s, l, first, count, out, at, write);
    e.at
}

// Writes production q's tag, with its content in parentheses behind it.
fn put_element(s: &[u8], l: Layout, q: usize, out: &mut [u8], at: usize, write: bool) -> usize
    requires laid_out { LaidOut s.now l }
    requires runs_inside { RunsInside s.now }
    requires q_lt_productions { (q < l.productions) × (at + most_inside + 257 ≤ farthest) }
    ensures { RulePut (most_inside + 257) element_of s.now q (record { write = write; lent = out.old; at = at }) result out.new }
{
    let t = layout::tag_number_of(s, l, q);
    let name = put_name(s, t, out, at, write);
    let from = lent::put_bytes(out, name, b"(", write);
    let to = put_content(s, l, q, out, from, write);
    lent::put_bytes(out, to, b")", write)
}

// Writes what stands in front of production q's tag: its nonterminal, and its program of the first visit.
fn put_head(s: &[u8], l: Layout, q: usize, out: &mut [u8], at: usize, write: bool) -> usize
    requires laid_out { LaidOut s.now l }
    requires q_lt_productions { (q < l.productions) × (at + most_of_a_head ≤ farthest) }
    ensures { RulePut most_of_a_head head_of s.now q (record { write = write; lent = out.old; at = at }) result out.new }
{
    let n = layout::nonterminal_of(s, l, q);
    let sign = boughs::put_nonterminal(n, out, at, write);
    let from = lent::put_bytes(out, sign, b" ::= ", write);
    let first = layout::first_program_of(s, l, q);
    asides::put_field(s, l, first, true, out, from, write)
}

// Writes production q on a line of its own.
fn put_line(s: &[u8], l: Layout, q: usize, out: &mut [u8], at: usize, write: bool) -> usize
    requires laid_out { LaidOut s.now l }
    requires runs_inside { RunsInside s.now }
    requires q_lt_productions { (q < l.productions) × (at + most_of_a_line ≤ farthest) }
    ensures { RulePut most_of_a_line line_of s.now q (record { write = write; lent = out.old; at = at }) result out.new }
{
    let from = put_head(s, l, q, out, at, write);
    let to = put_element(s, l, q, out, from, write);
    let second = layout::second_program_of(s, l, q);
    let end = asides::put_field(s, l, second, false, out, to, write);
    lent::put_bytes(out, end, b"\n", write)
}

// Writes all productions, each on its line.
fn put_lines(s: &[u8], l: Layout, out: &mut [u8], at: usize, write: bool) -> usize
    requires laid_out { LaidOut s.now l }
    requires runs_inside { RunsInside s.now }
    requires most_of_atext_bound { at + most_of_a_text ≤ farthest + 4 }
    ensures { LinesPut s.now (record { write = write; lent = out.old; at = at }) result out.new }
{
    let mut n = at;
    for q in 0..l.productions {
        n = put_line(s, l, q, out, n, write);
    }
    n
}

// Writes the sheet's rules: the start alone on the first line, and the productions.
pub fn put_rules(s: &[u8], l: Layout, out: &mut [u8], at: usize, write: bool) -> usize
    requires laid_out { LaidOut s.now l }
    requires runs_inside { RunsInside s.now }
    requires start_bound { (l.start < 256) × (at + most_of_a_text ≤ farthest) }
    ensures { TextPut s.now (record { write = write; lent = out.old; at = at }) result out.new }
{
    let end = boughs::put_nonterminal(l.start, out, at, write);
    let from = lent::put_bytes(out, end, b"\n", write);
    put_lines(s, l, out, from, write)
}
