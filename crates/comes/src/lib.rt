// What may come next at a place of a sheet's production: tags, a character, the end of the element.

#![tactic(auto)]

ghost use Rattle.std.specs.Prelude.{◌≡◌, ◌<◌, length};
ghost use Rattle.layout.specs.LaidOut.{LaidOut};
ghost use Rattle.trees.specs.Sums.{Zeros, sum_cells};
ghost use Rattle.trees.specs.Tally.{count_of};
ghost use Rattle.sheet.specs.Defect.{WellFormed};
ghost use Rattle.comes.specs.Comes.{leads, MayCome};

use layout::{Layout, layout_of, tag_number_of};
use trees::{Number, all_alike, count_from};
use words::{say, say_tag};

// The sum of the bracket strings to a character, behind those to each tag.
const CHARACTER: usize = 64;

// Whether a number of bracket strings is one or more.
fn is_some(n: Number) -> bool
    ensures { result ≡ leads (count_of n) }
{
    match n {
        Number::None => false,
        Number::One => true,
        Number::Many => true,
    }
}

// For each next symbol whether it may come at place p of production q, in memory that is lent as zeros; the answer is whether the end may.
pub fn may_come(s: &[u8], l: Layout, q: usize, p: usize, sums: &mut [u8]) -> bool
    requires laid_out { LaidOut s.now l }
    requires well_formed { WellFormed s.now }
    requires q_lt_productions { q < l.productions }
    requires sums_len { length sums.old ≡ sum_cells }
    requires zeros { Zeros sums.old }
    ensures { MayCome s.now q p sums.new result }
{
    let mut known = [0; 4096];
    all_alike(s, l, &mut known);
    let end = count_from(s, l, &known, sums, q, p);
    is_some(end)
}

// Before each of the symbols but the first.
fn say_joint(some: bool) {
    if some {
        say(b" or ");
    }
}

// The tags of the sums that are not 0. Answers whether there is one.
fn say_tags(s: &[u8], l: Layout, sums: &[u8]) -> bool
    requires laid_out { LaidOut s.now l }
    requires sums_len { length sums.now ≡ sum_cells }
{
    let mut some = false;
    for t in 0..l.tags {
        if sums[t] > 0 {
            say_joint(some);
            say_tag(s, l, t);
            some = true;
        }
    }
    some
}

// The tags, a character, and the end of the element, whose production is q.
fn say_symbols(s: &[u8], l: Layout, q: usize, sums: &[u8], end: bool)
    requires laid_out { LaidOut s.now l }
    requires q_lt_productions { q < l.productions }
    requires sums_len { length sums.now ≡ sum_cells }
{
    let mut some = say_tags(s, l, sums);
    if sums[CHARACTER] > 0 {
        say_joint(some);
        say(b"a character");
        some = true;
    }
    if end {
        say_joint(some);
        say(b"the end of ");
        say_tag(s, l, tag_number_of(s, l, q));
        some = true;
    }
    if !some {
        say(b"nothing");
    }
}

// Says what may come at place p of production q.
fn say_there(s: &[u8], l: Layout, q: usize, p: usize)
    requires laid_out { LaidOut s.now l }
    requires well_formed { WellFormed s.now }
{
    if q >= l.productions {
        return;
    }
    let mut sums = [0; 65];
    let end = may_come(s, l, q, p, &mut sums);
    say(b"Here may come: ");
    say_symbols(s, l, q, &sums, end);
    say(b".\n");
}

// Says what may come next in an element of production q at place p, of a sheet that is well-formed; of any other sheet it says nothing.
pub fn say_may_come(sheet: &[u8], q: usize, p: usize) {
    if sheet::defect(sheet) > 0 {
        return;
    }
    let l = layout_of(sheet);
    say_there(sheet, l, q, p);
}
