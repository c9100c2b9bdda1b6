// The checker: a rule sheet's bytes and a lent list in; a number of the table, the count of the faults and the list of them out.

#![tactic(auto)]

ghost use Rattle.std.specs.Prelude.{◌≡◌, [], ◌∷◌, ◌+◌, ◌<◌, ◌≤◌, ◌^◌};
ghost use Rattle.expressions.specs.Grammar.{nonterminals, content_of, only_if, tags_of};
ghost use Rattle.expressions.specs.FaultList.{list_bytes};
ghost use Rattle.expressions.specs.Listed.{t_faults_of, t_faults, s_faults_at, s_faults_of, s_faults_from};
ghost use Rattle.lent.specs.Put.{PutAs};
ghost use Rattle.layout.specs.Layout.{tag_count};
ghost use Rattle.layout.specs.LaidOut.{LaidOut};
ghost use Rattle.trees.specs.Sums.{AllAlike};
ghost use Rattle.sheet.specs.Defect.{WellFormed};
ghost use Rattle.faults.specs.Part.{s_by_tag, SumsAre, PartPut, AllPut, NumberBy};
ghost use Rattle.faults.specs.Checked.{CheckedAs};
ghost use Rattle.faults.specs.Verdict.{VerdictIs};

use layout::{Layout, layout_of};
use lent::put_bytes;
use sheet::defect;
use trees::{all_alike, atoms_of, count_from, is_many};

// The number of the table, and how many faults there are.
#[derive(Clone, Copy)]
pub struct Checked {
    pub number: u8,
    pub count: usize,
}

// Nonterminals are 0 to 63.
const NONTERMINALS: usize = 64;

// An entry of the list is four bytes.
const ENTRY: usize = 4;

// Puts one entry where there is such a fault. Each function below that puts entries writes none of them in a dry run, and answers where the next
// byte goes.
fn put_entry(
    list: &mut [u8],
    at: usize,
    rule: u8,
    first: usize,
    second: usize,
    third: usize,
    fault: bool,
    write: bool,
) -> usize
    requires at_bound { at + 4 < 2 ^ 64 }
    requires first_bound { first < 256 }
    requires second_bound { second < 256 }
    requires third_bound { third < 256 }
    ensures put_as { PutAs write list.old at (list_bytes (only_if fault (rule ∷ first ∷ second ∷ third ∷ []))) list.new result }
    ensures upper_bound { result ≤ at + 4 }
{
    if !fault {
        return at;
    }
    let entry = [rule, first as u8, second as u8, third as u8];
    put_bytes(list, at, &entry, write)
}

// The T faults of nonterminal m: the tags that two productions of it share.
fn t_faults_of(
    s: &[u8],
    l: Layout,
    known: &[u8],
    list: &mut [u8],
    at: usize,
    m: usize,
    write: bool,
) -> usize
    requires laid_out { LaidOut s.now l }
    requires all_alike { AllAlike s.now known.now }
    requires at_bound { at + 256 < 2 ^ 64 }
    requires m_lt_nonterminals { m < nonterminals }
    ensures { PartPut s.now (λ g. t_faults_of (tag_count s.now) g m) 256 write list.old at list.new result }
{
    let mut n = at;
    for t in 0..l.tags {
        let alike = known[64 * m + t];
        n = put_entry(list, n, 8, m, t, 0, alike > 1, write);
    }
    n
}

// All T faults.
fn t_faults(s: &[u8], l: Layout, known: &[u8], list: &mut [u8], at: usize, write: bool) -> usize
    requires laid_out { LaidOut s.now l }
    requires all_alike { AllAlike s.now known.now }
    requires at_bound { at + 16384 < 2 ^ 64 }
    ensures { PartPut s.now (λ g. t_faults (tag_count s.now) g) 16384 write list.old at list.new result }
{
    let mut n = at;
    for m in 0..NONTERMINALS {
        n = t_faults_of(s, l, known, list, n, m, write);
    }
    n
}

// The S faults at a place with a tag next, by the sums of that place.
fn s_faults_by_tag(
    s: &[u8],
    l: Layout,
    sums: &[u8],
    list: &mut [u8],
    at: usize,
    q: usize,
    p: usize,
    write: bool,
) -> usize
    requires laid_out { LaidOut s.now l }
    requires sums_are { SumsAre s.now q p sums.now }
    requires at_bound { at + 256 < 2 ^ 64 }
    requires q_bound { q < 256 }
    requires p_bound { p < 256 }
    ensures { PartPut s.now (λ g. s_by_tag (tag_count s.now) (tags_of g) (content_of g q) q p) 256 write list.old at list.new result }
{
    let mut n = at;
    for t in 0..l.tags {
        let sum = sums[t];
        n = put_entry(list, n, 9, q, p, t, sum > 1, write);
    }
    n
}

// The S faults at a place: a tag, a character or the end is next. One walk counts for all of them.
fn s_faults_at(
    s: &[u8],
    l: Layout,
    known: &[u8],
    list: &mut [u8],
    at: usize,
    q: usize,
    p: usize,
    write: bool,
) -> usize
    requires laid_out { LaidOut s.now l }
    requires well_formed { WellFormed s.now }
    requires all_alike { AllAlike s.now known.now }
    requires at_bound { at + 264 < 2 ^ 64 }
    requires q_lt_productions { q < l.productions }
    requires p_bound { p < 256 }
    ensures { PartPut s.now (λ g. s_faults_at (tag_count s.now) (tags_of g) (content_of g q) q p) 264 write list.old at list.new result }
{
    let mut sums = [0; 65];
    let ends = count_from(s, l, known, &mut sums, q, p);
    let tags = s_faults_by_tag(s, l, &sums, list, at, q, p, write);
    let sum = sums[64];
    let character = put_entry(list, tags, 9, q, p, 254, sum > 1, write);
    let many = is_many(ends);
    put_entry(list, character, 9, q, p, 255, many, write)
}

// The S faults of production q.
fn s_faults_of(
    s: &[u8],
    l: Layout,
    known: &[u8],
    list: &mut [u8],
    at: usize,
    q: usize,
    write: bool,
) -> usize
    requires laid_out { LaidOut s.now l }
    requires well_formed { WellFormed s.now }
    requires all_alike { AllAlike s.now known.now }
    requires at_bound { at + 8712 < 2 ^ 64 }
    requires q_lt_productions { q < l.productions }
    ensures { PartPut s.now (λ g. s_faults_of (tag_count s.now) (tags_of g) q (content_of g q)) 8712 write list.old at list.new result }
{
    let atoms = atoms_of(s, l, q);
    let mut n = at;
    for p in 0..atoms + 1 {
        n = s_faults_at(s, l, known, list, n, q, p, write);
    }
    n
}

// All S faults.
fn s_faults(s: &[u8], l: Layout, known: &[u8], list: &mut [u8], at: usize, write: bool) -> usize
    requires laid_out { LaidOut s.now l }
    requires well_formed { WellFormed s.now }
    requires all_alike { AllAlike s.now known.now }
    requires at_bound { at + 557568 < 2 ^ 64 }
    ensures { PartPut s.now (λ g. s_faults_from (tag_count s.now) (tags_of g) 0 g) 557568 write list.old at list.new result }
{
    let mut n = at;
    for q in 0..l.productions {
        n = s_faults_of(s, l, known, list, n, q, write);
    }
    n
}

// Where the T faults end in the list, and where all faults do.
#[derive(Clone, Copy)]
struct Ends {
    t: usize,
    all: usize,
}

// All faults, those of rule T first.
fn list_faults(s: &[u8], l: Layout, list: &mut [u8], write: bool) -> Ends
    requires laid_out { LaidOut s.now l }
    requires well_formed { WellFormed s.now }
    ensures { AllPut s.now write list.old list.new result }
{
    let mut known = [0; 4096];
    all_alike(s, l, &mut known);
    let t = t_faults(s, l, &known, list, 0, write);
    let all = s_faults(s, l, &known, list, t, write);
    Ends { t: t, all: all }
}

// The number that the faults give: 8 where there is a T fault, 9 where there are S faults only, 0 where there is none.
fn fault_number(ends: Ends) -> u8
    ensures { NumberBy ends result }
{
    if ends.t > 0 {
        return 8;
    }
    if ends.all > 0 {
        return 9;
    }
    0
}

// The faults of a well-formed sheet: a dry pass counts them, and they are listed only where the lent list holds them all.
fn check_faults(s: &[u8], l: Layout, list: &mut [u8]) -> Checked
    requires laid_out { LaidOut s.now l }
    requires well_formed { WellFormed s.now }
    ensures { CheckedAs s.now list.old list.new result }
{
    let ends = list_faults(s, l, list, false);
    let number = fault_number(ends);
    let count = ends.all / ENTRY;
    if number == 0 {
        return Checked {
            number: 0,
            count: count,
        };
    }
    if list.len() < ends.all {
        return Checked {
            number: 10,
            count: count,
        };
    }
    list_faults(s, l, list, true);
    Checked {
        number: number,
        count: count,
    }
}

// Tests a sheet: numbers 0 to 10. With 8 and 9 the list's faults stand at its start; with any other number it is as lent.
pub fn check(sheet: &[u8], list: &mut [u8]) -> Checked
    ensures { CheckedAs sheet.now list.old list.new result }
{
    let number = defect(sheet);
    if number > 0 {
        return Checked {
            number: number,
            count: 0,
        };
    }
    let l = layout_of(sheet);
    check_faults(sheet, l, list)
}

// The sheet's number where no list is lent: 0, or 1 to 9. The dry pass writes nothing, so any memory will do.
pub fn verdict(sheet: &[u8]) -> usize
    ensures { VerdictIs sheet.now result }
{
    let number = defect(sheet);
    if number > 0 {
        return number as usize;
    }
    let l = layout_of(sheet);
    let mut unwritten = [0; 1];
    let ends = list_faults(sheet, l, &mut unwritten, false);
    fault_number(ends) as usize
}
