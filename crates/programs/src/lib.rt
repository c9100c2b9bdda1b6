// Attribution programs in a sheet's bytes: whether a section is filled by programs, and whether a field names one.

#![tactic(auto)]

ghost use Rattle.std.specs.Prelude.{◌≡◌, ◌&&◌, ◌+◌, ◌*◌, ◌≤◌, ◌<◌, min, length, get_or};
ghost use Rattle.text.specs.Characters.{WholeCharacters};
ghost use Rattle.programs.specs.Limits.{Printable};
ghost use Rattle.tells.specs.Tells.{Tells};
ghost use Rattle.programs.specs.Parsed.{OperandAt, ConditionAt, PlainAt, StatementAt, ListAt, ProgramAt, Filled, ForBoth, InTurn, StartNamed, FieldTold};

// The most bytes of a program, and how deep if, not, and, or nest.
const LONGEST: usize = 256;

const DEEPEST: usize = 8;

// The highest attribute and value, and how many there are of each.
pub const HIGHEST_ATTRIBUTE: u8 = 7;

pub const HIGHEST_VALUE: u8 = 63;

pub const ATTRIBUTES: usize = HIGHEST_ATTRIBUTE as usize + 1;

pub const VALUES: usize = HIGHEST_VALUE as usize + 1;

// What was read: the byte past it, and whether a first and a second visit may hold it.
#[derive(Clone, Copy)]
pub struct Parsed {
    pub next: usize,
    pub first: bool,
    pub second: bool,
}

// What either visit may hold.
fn for_both(next: usize) -> Parsed
    ensures { ForBoth next result }
{
    Parsed {
        next: next,
        first: true,
        second: true,
    }
}

// One thing and the one behind it: a visit may hold them where it may hold each.
fn in_turn(one: Parsed, two: Parsed) -> Parsed
    ensures { InTurn one two result }
{
    Parsed {
        next: two.next,
        first: one.first & two.first,
        second: one.second & two.second,
    }
}

// Here and below: what lies at i and fits, or none.
fn operand(s: &[u8], i: usize) -> Option<Parsed>
    ensures { OperandAt s.now i result }
{
    if s.len() <= i {
        return None;
    }
    if s.len() - i < 2 {
        return None;
    }
    let k = s[i];
    let v = s[i + 1];
    match k {
        0 => {
            if v <= HIGHEST_VALUE {
                Some(for_both(i + 2))
            } else {
                None
            }
        }
        1 => {
            if v <= HIGHEST_ATTRIBUTE {
                Some(for_both(i + 2))
            } else {
                None
            }
        }
        2 => {
            if v <= HIGHEST_ATTRIBUTE {
                Some(Parsed {
                    next: i + 2,
                    first: false,
                    second: true,
                })
            } else {
                None
            }
        }
        _ => None,
    }
}

fn comparison(s: &[u8], i: usize, room: usize) -> Option<Parsed>
    requires { (i < length s.now) × (get_or s.now i 0 ≡ 0) }
    ensures { ConditionAt room s.now i result }
{
    let one = operand(s, i + 1)?;
    let two = operand(s, one.next)?;
    Some(in_turn(one, two))
}

fn condition(s: &[u8], i: usize, room: usize) -> Option<Parsed>
    ensures { ConditionAt room s.now i result }
{
    if s.len() <= i {
        return None;
    }
    let k = s[i];
    if k == 0 {
        return comparison(s, i, room);
    }
    if 3 < k {
        return None;
    }
    if room == 0 {
        return None;
    }
    let one = condition(s, i + 1, room - 1)?;
    if k == 1 {
        return Some(one);
    }
    let two = condition(s, one.next, room - 1)?;
    Some(in_turn(one, two))
}

fn whole_characters(f: &[u8]) -> bool
    ensures { Tells (WholeCharacters f.now) result }
{
    // A while: each step goes on past the character that it read, which no range gives.
    let mut rest = f;
    while !rest.is_empty() {
        let text::Decoded::Whole(_, n) = text::decode(rest) else {
            return false;
        };
        rest = &rest[n..];
    }
    true
}

fn printable(strings: &[u8], o: usize, n: usize) -> bool
    ensures { Tells (Printable strings.now o n) result }
{
    if strings.len() < o {
        return false;
    }
    if strings.len() - o < n {
        return false;
    }
    let e = o + n;
    whole_characters(&strings[o..e])
}

// The two numbers after the first byte are there, and at most a and b.
fn two_numbers(s: &[u8], i: usize, a: u8, b: u8) -> bool
    requires { i < length s.now }
    ensures { Tells ((i + 2 < length s.now) × (get_or s.now (i + 1) 0 ≤ a) × (get_or s.now (i + 2) 0 ≤ b)) result }
{
    if s.len() - i < 3 {
        return false;
    }
    if a < s[i + 1] {
        return false;
    }
    if b < s[i + 2] {
        return false;
    }
    true
}

// The number after the first byte is there, and the number of a tag.
fn tag_number(s: &[u8], i: usize, tags: usize) -> bool
    requires { i < length s.now }
    ensures { Tells ((i + 1 < length s.now) × (get_or s.now (i + 1) 0 < tags)) result }
{
    if s.len() - i < 2 {
        return false;
    }
    if tags <= usize::from(s[i + 1]) {
        return false;
    }
    true
}

// The offset and the number after the first byte are there, and a range that may be printed.
fn text_range(s: &[u8], i: usize, strings: &[u8]) -> bool
    requires { i < length s.now }
    ensures { Tells ((i + 3 < length s.now) × Printable strings.now (get_or s.now (i + 1) 0 + 256 * get_or s.now (i + 2) 0) (get_or s.now (i + 3) 0)) result }
{
    if s.len() - i < 4 {
        return false;
    }
    let low = usize::from(s[i + 1]);
    let high = usize::from(s[i + 2]);
    let n = usize::from(s[i + 3]);
    printable(strings, low + 256 * high, n)
}

// A statement that assigns, 1 to 3.
fn assignment(s: &[u8], i: usize, tags: usize, strings: &[u8]) -> Option<Parsed>
    requires { (i < length s.now) × (get_or s.now i 0 < 4) }
    ensures { PlainAt tags strings.now s.now i result }
{
    let k = s[i];
    match k {
        1 => {
            if two_numbers(s, i, HIGHEST_ATTRIBUTE, HIGHEST_VALUE) {
                Some(for_both(i + 3))
            } else {
                None
            }
        }
        2 => {
            if two_numbers(s, i, HIGHEST_ATTRIBUTE, HIGHEST_ATTRIBUTE) {
                Some(for_both(i + 3))
            } else {
                None
            }
        }
        3 => {
            if two_numbers(s, i, HIGHEST_ATTRIBUTE, HIGHEST_ATTRIBUTE) {
                Some(Parsed {
                    next: i + 3,
                    first: false,
                    second: true,
                })
            } else {
                None
            }
        }
        _ => None,
    }
}

// A statement other than a branch.
fn plain(s: &[u8], i: usize, tags: usize, strings: &[u8]) -> Option<Parsed>
    requires { (i < length s.now) × (get_or s.now i 0 ≡ 10 → ⊥) }
    ensures { PlainAt tags strings.now s.now i result }
{
    let k = s[i];
    if k < 4 {
        return assignment(s, i, tags, strings);
    }
    match k {
        4 => Some(for_both(i + 1)),
        5 | 6 => {
            if tag_number(s, i, tags) {
                Some(for_both(i + 2))
            } else {
                None
            }
        }
        7 => {
            if text_range(s, i, strings) {
                Some(for_both(i + 4))
            } else {
                None
            }
        }
        8 | 9 => Some(Parsed {
            next: i + 1,
            first: true,
            second: false,
        }),
        _ => None,
    }
}

// A statement; what a branch holds lies one deeper.
#[cycle(list_statement)]
fn statement(s: &[u8], i: usize, tags: usize, strings: &[u8], room: usize) -> Option<Parsed>
    requires { i < length s.now }
    ensures { StatementAt tags strings.now room s.now i result }
{
    if s[i] != 10 {
        return plain(s, i, tags, strings);
    }
    if room == 0 {
        return None;
    }
    let test = condition(s, i + 1, room - 1)?;
    let met = list(s, test.next, tags, strings, room - 1)?;
    let unmet = list(s, met.next, tags, strings, room - 1)?;
    Some(in_turn(test, in_turn(met, unmet)))
}

// The statements from i on with the 0 that ends them.
#[cycle(list_statement)]
fn list(s: &[u8], i: usize, tags: usize, strings: &[u8], room: usize) -> Option<Parsed>
    ensures { ListAt tags strings.now room s.now i result }
{
    if s.len() <= i {
        return None;
    }
    if s[i] == 0 {
        return Some(for_both(i + 1));
    }
    let one = statement(s, i, tags, strings, room)?;
    let rest = list(s, one.next, tags, strings, room)?;
    Some(in_turn(one, rest))
}

// The program that lies at i. Only as many bytes are read as a program may have.
pub fn program(section: &[u8], i: usize, tags: usize, strings: &[u8]) -> Option<Parsed>
    ensures { ProgramAt tags strings.now section.now i result }
{
    if section.len() <= i {
        return None;
    }
    let e = i + (section.len() - i).min(LONGEST);
    list(&section[0..e], i, tags, strings, DEEPEST)
}

// Whether the section is programs back to back.
pub fn programs_fill(section: &[u8], tags: usize, strings: &[u8]) -> bool
    ensures { Tells (Filled tags strings.now section.now) result }
{
    // A while: each step goes on past the program that it read, which no range gives.
    let mut i = 0;
    while i < section.len() {
        let Some(read) = program(section, i, tags, strings) else {
            return false;
        };
        i = read.next;
    }
    true
}

// Where the program that a field names starts: FFFF names none.
pub fn start_named(field: usize) -> Option<usize>
    ensures { StartNamed field result }
{
    if field == 65535 { None } else { Some(field) }
}

// Whether a field of a node or a production, for a first or a second visit, is as it should be: FFFF, or the start of a program that this visit
// may hold. The programs are walked from the first one, so that a field into the middle of one is refused.
pub fn field_fits(section: &[u8], tags: usize, strings: &[u8], field: usize, second: bool) -> bool
    requires { Filled tags strings.now section.now }
    ensures { FieldTold tags strings.now section.now field second result }
{
    let Some(start) = start_named(field) else {
        return true;
    };
    // A while: each step goes on past the program that it read, which no range gives.
    let mut i = 0;
    while i < start {
        let Some(read) = program(section, i, tags, strings) else {
            return false;
        };
        i = read.next;
    }
    if i != start {
        return false;
    }
    let Some(read) = program(section, i, tags, strings) else {
        return false;
    };
    if second { read.second } else { read.first }
}
