// The strings that the programs of a sheet print, stored once: whether the rules that it is have room for theirs. Number 42.

#![tactic(auto)]

ghost use Rattle.layout.specs.Layout.{production_count, node_count};
ghost use Rattle.layout.specs.LaidOut.{LaidOut};
ghost use Rattle.layout.specs.Records.{first_program_of, second_program_of, first_program_of_node, second_program_of_node};
ghost use Rattle.stores.specs.Rows.{HasRows};
ghost use Rattle.gleans.specs.Gleans.{KeptAs};
ghost use Rattle.hoards.specs.Hoards.{FieldStrings, BothStrings, EachStrings, FitsIs};

use asides::NONE;
use layout::Layout;

// Keeps the strings of the program that a field of the sheet s names.
fn keep_field(
    s: &[u8],
    l: Layout,
    field: usize,
    bytes: &mut [u8],
    ends: &mut [usize],
    count: usize,
) -> Option<usize>
    requires laid_out { LaidOut s.now l }
    requires has_rows { HasRows bytes.old ends.old count }
    ensures { KeptAs (FieldStrings s.now field) bytes.old ends.old count result bytes.new ends.new }
{
    if field == NONE {
        return Some(count);
    }
    if l.programs < field {
        return Some(count);
    }
    let a = l.programs_at;
    let b = a + l.programs;
    let c = l.strings_at;
    let d = c + l.strings;
    let section = &s[a..b];
    let strings = &s[c..d];
    gleans::keep_list(section, field, strings, bytes, ends, count)
}

// Keeps the strings of the programs that two fields name.
fn keep_both(
    s: &[u8],
    l: Layout,
    first: usize,
    second: usize,
    bytes: &mut [u8],
    ends: &mut [usize],
    count: usize,
) -> Option<usize>
    requires laid_out { LaidOut s.now l }
    requires has_rows { HasRows bytes.old ends.old count }
    ensures { KeptAs (BothStrings s.now first second) bytes.old ends.old count result bytes.new ends.new }
{
    let kept = keep_field(s, l, first, bytes, ends, count)?;
    keep_field(s, l, second, bytes, ends, kept)
}

// Keeps the strings of the productions' own programs.
fn keep_productions(
    s: &[u8],
    l: Layout,
    bytes: &mut [u8],
    ends: &mut [usize],
    count: usize,
) -> Option<usize>
    requires laid_out { LaidOut s.now l }
    requires has_rows { HasRows bytes.old ends.old count }
    ensures { KeptAs (EachStrings s.now (first_program_of s.now) (second_program_of s.now) (production_count s.now)) bytes.old ends.old count result bytes.new ends.new }
{
    let mut n = count;
    for q in 0..l.productions {
        let first = layout::first_program_of(s, l, q);
        let second = layout::second_program_of(s, l, q);
        n = keep_both(s, l, first, second, bytes, ends, n)?;
    }
    Some(n)
}

// Keeps the strings of the nodes' programs. A loop of its own: one function for both would take both fields as closures with contracts, and be longer.
fn keep_nodes(
    s: &[u8],
    l: Layout,
    bytes: &mut [u8],
    ends: &mut [usize],
    count: usize,
) -> Option<usize>
    requires laid_out { LaidOut s.now l }
    requires has_rows { HasRows bytes.old ends.old count }
    ensures { KeptAs (EachStrings s.now (first_program_of_node s.now) (second_program_of_node s.now) (node_count s.now)) bytes.old ends.old count result bytes.new ends.new }
{
    let mut n = count;
    for i in 0..l.nodes {
        let first = layout::first_program_of_node(s, l, i);
        let second = layout::second_program_of_node(s, l, i);
        n = keep_both(s, l, first, second, bytes, ends, n)?;
    }
    Some(n)
}

// Whether the different strings that the sheet's programs print have room in a sheet.
pub fn strings_fit(s: &[u8], l: Layout) -> bool
    requires { LaidOut s.now l }
    ensures { FitsIs s.now result }
{
    let mut bytes = [0; 8192];
    let mut ends = [0; 8193];
    let Some(kept) = keep_productions(s, l, &mut bytes, &mut ends, 0) else {
        return false;
    };
    keep_nodes(s, l, &mut bytes, &mut ends, kept).is_some()
}
