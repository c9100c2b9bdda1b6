// The programs of a sheet and the fields that name them: number 6.
ghost use Rattle.std.specs.Prelude.{ℕ, ◌+◌, ◌*◌, ◌<◌, length};
ghost use Rattle.tells.specs.Tells.{Tells};
ghost use Rattle.layout.specs.LaidOut.{LaidOut};
ghost use Rattle.programs.specs.Parsed.{Filled};
ghost use Rattle.sheet.specs.Fields.{Programs};
ghost use Rattle.sheet.specs.FieldTests.{Named, EachNamed};

use layout::Layout;

// Whether two fields, of a first and of a second visit, name a program each that the visit may hold, or none.
fn both_named(section: &[u8], tags: usize, strings: &[u8], one: usize, two: usize) -> bool
    requires { Filled tags strings.now section.now }
    ensures { Tells (Named tags strings.now section.now one two) result }
{
    programs::field_fits(section, tags, strings, one, false)
        & programs::field_fits(section, tags, strings, two, true)
}

// The two fields of productions and of nodes lie alike: `at` is the first record's, `width` a record's bytes.
fn each_named(
    section: &[u8],
    tags: usize,
    strings: &[u8],
    s: &[u8],
    at: usize,
    width: usize,
    count: usize,
) -> bool
    requires filled { Filled tags strings.now section.now }
    requires by_index { (k : ℕ) → k < count → at + width * k + 3 < length s.now }
    ensures { Tells (EachNamed tags strings.now section.now s.now at width count) result }
{
    for k in 0..count {
        let i = at + width * k;
        let one = layout::word_at(s, i);
        let two = layout::word_at(s, i + 2);
        if !both_named(section, tags, strings, one, two) {
            return false;
        }
    }
    true
}

// Whether programs fill their section, and each field of a production and of a node names one, or none.
pub fn programs_fit(s: &[u8], l: Layout) -> bool
    requires { LaidOut s.now l }
    ensures { Tells (Programs s.now) result }
{
    let from = l.programs_at;
    let to = from + l.programs;
    let section = &s[from..to];
    let first = l.strings_at;
    let end = first + l.strings;
    let strings = &s[first..end];
    let tags = l.tags;
    if !programs::programs_fill(section, tags, strings) {
        return false;
    }
    if !each_named(
        section,
        tags,
        strings,
        s,
        l.productions_at + 6,
        12,
        l.productions,
    ) {
        return false;
    }
    each_named(section, tags, strings, s, l.nodes_at + 2, 6, l.nodes)
}
