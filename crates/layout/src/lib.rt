// Where the parts of a rule sheet lie in its bytes, and what its records hold: numbers 1 and 2.

#![tactic(auto)]

ghost use Rattle.std.specs.Prelude.{◌+◌, ◌<◌, ◌≤◌, length};
ghost use Rattle.tells.specs.Tells.{Tells};
ghost use Rattle.layout.specs.Layout.{byte_at, word_at, trailer_word, Sections};
ghost use Rattle.layout.specs.Records.{production_at, nonterminal_of, tag_number_of, first_node_of, node_count_of, first_program_of, second_program_of, node_at, kind_of, argument_of, first_program_of_node, second_program_of_node};
ghost use Rattle.layout.specs.LaidOut.{NumberRead, Follows, LayoutIs, LaidOut};

// The trailer's twelve numbers.
#[derive(Clone, Copy)]
pub struct Layout {
    pub tags_at: usize,
    pub tags: usize,
    pub productions_at: usize,
    pub productions: usize,
    pub nodes_at: usize,
    pub nodes: usize,
    pub programs_at: usize,
    pub programs: usize,
    pub strings_at: usize,
    pub strings: usize,
    pub start: usize,
    pub mark: usize,
}

// The byte at i, as a number that indices can be reckoned with.
pub fn byte_at(s: &[u8], i: usize) -> usize
    requires { i < length s.now }
    ensures { NumberRead 256 (byte_at s.now i) result }
{
    usize::from(s[i])
}

// The number of two bytes, little-endian, at i.
pub fn word_at(s: &[u8], i: usize) -> usize
    requires { i + 1 < length s.now }
    ensures { NumberRead 65536 (word_at s.now i) result }
{
    let low = byte_at(s, i);
    let high = byte_at(s, i + 1);
    low + 256 * high
}

// The trailer is the last 24 bytes: twelve numbers.
fn trailer_word(s: &[u8], k: usize) -> usize
    requires in_bounds { 24 ≤ length s.now }
    requires k_bound { k < 12 }
    ensures { NumberRead 65536 (trailer_word s.now k) result }
{
    word_at(s, s.len() - 24 + 2 * k)
}

// Where the trailer says that the parts lie.
pub fn layout_of(s: &[u8]) -> Layout
    requires { 24 ≤ length s.now }
    ensures { LayoutIs s.now result }
{
    Layout {
        tags_at: trailer_word(s, 0),
        tags: trailer_word(s, 1),
        productions_at: trailer_word(s, 2),
        productions: trailer_word(s, 3),
        nodes_at: trailer_word(s, 4),
        nodes: trailer_word(s, 5),
        programs_at: trailer_word(s, 6),
        programs: trailer_word(s, 7),
        strings_at: trailer_word(s, 8),
        strings: trailer_word(s, 9),
        start: trailer_word(s, 10),
        mark: trailer_word(s, 11),
    }
}

// Number 2 of one section: it starts where the one before it ends, and its count is within its limits.
fn follows(at: usize, end: usize, count: usize, least: usize, most: usize) -> bool
    ensures { Tells (Follows at end count least most) result }
{
    (at == end) & ((least <= count) & (count <= most))
}

// Whether the sections lie back to back before the trailer, with counts within their limits, and the mark is there.
pub fn keeps_sections(s: &[u8], l: Layout) -> bool
    requires { LayoutIs s.now l }
    ensures { Tells (Sections s.now) result }
{
    let tags = follows(l.tags_at, 0, l.tags, 1, 64);
    let productions = follows(
        l.productions_at,
        l.tags_at + 16 * l.tags,
        l.productions,
        1,
        64,
    );
    let nodes = follows(
        l.nodes_at,
        l.productions_at + 12 * l.productions,
        l.nodes,
        0,
        256,
    );
    let programs = follows(
        l.programs_at,
        l.nodes_at + 6 * l.nodes,
        l.programs,
        0,
        16384,
    );
    let strings = follows(l.strings_at, l.programs_at + l.programs, l.strings, 0, 8192);
    let trailer = s.len() == l.strings_at + l.strings + 24;
    let mark = l.mark == 0x5358;
    (tags & productions) & ((nodes & programs) & (strings & (trailer & mark)))
}

// A byte and a number of production q's record, and of node i's.
pub fn production_byte(s: &[u8], l: Layout, q: usize, k: usize) -> usize
    requires laid_out { LaidOut s.now l }
    requires q_lt_productions { q < l.productions }
    requires k_bound { k < 12 }
    ensures { NumberRead 256 (byte_at s.now (production_at s.now q + k)) result }
{
    byte_at(s, l.productions_at + 12 * q + k)
}

fn production_word(s: &[u8], l: Layout, q: usize, k: usize) -> usize
    requires laid_out { LaidOut s.now l }
    requires q_lt_productions { q < l.productions }
    requires k_bound { k < 11 }
    ensures { NumberRead 65536 (word_at s.now (production_at s.now q + k)) result }
{
    word_at(s, l.productions_at + 12 * q + k)
}

fn node_byte(s: &[u8], l: Layout, i: usize, k: usize) -> usize
    requires laid_out { LaidOut s.now l }
    requires i_lt_nodes { i < l.nodes }
    requires k_bound { k < 6 }
    ensures { NumberRead 256 (byte_at s.now (node_at s.now i + k)) result }
{
    byte_at(s, l.nodes_at + 6 * i + k)
}

fn node_word(s: &[u8], l: Layout, i: usize, k: usize) -> usize
    requires laid_out { LaidOut s.now l }
    requires i_lt_nodes { i < l.nodes }
    requires k_bound { k < 5 }
    ensures { NumberRead 65536 (word_at s.now (node_at s.now i + k)) result }
{
    word_at(s, l.nodes_at + 6 * i + k)
}

// What the record of production q holds; every reader of the grammar asks by these.
pub fn nonterminal_of(s: &[u8], l: Layout, q: usize) -> usize
    requires laid_out { LaidOut s.now l }
    requires q_lt_productions { q < l.productions }
    ensures { NumberRead 256 (nonterminal_of s.now q) result }
{
    production_byte(s, l, q, 0)
}

pub fn tag_number_of(s: &[u8], l: Layout, q: usize) -> usize
    requires laid_out { LaidOut s.now l }
    requires q_lt_productions { q < l.productions }
    ensures { NumberRead 256 (tag_number_of s.now q) result }
{
    production_byte(s, l, q, 1)
}

pub fn first_node_of(s: &[u8], l: Layout, q: usize) -> usize
    requires laid_out { LaidOut s.now l }
    requires q_lt_productions { q < l.productions }
    ensures { NumberRead 65536 (first_node_of s.now q) result }
{
    production_word(s, l, q, 2)
}

pub fn node_count_of(s: &[u8], l: Layout, q: usize) -> usize
    requires laid_out { LaidOut s.now l }
    requires q_lt_productions { q < l.productions }
    ensures { NumberRead 256 (node_count_of s.now q) result }
{
    production_byte(s, l, q, 4)
}

pub fn first_program_of(s: &[u8], l: Layout, q: usize) -> usize
    requires laid_out { LaidOut s.now l }
    requires q_lt_productions { q < l.productions }
    ensures { NumberRead 65536 (first_program_of s.now q) result }
{
    production_word(s, l, q, 6)
}

pub fn second_program_of(s: &[u8], l: Layout, q: usize) -> usize
    requires laid_out { LaidOut s.now l }
    requires q_lt_productions { q < l.productions }
    ensures { NumberRead 65536 (second_program_of s.now q) result }
{
    production_word(s, l, q, 8)
}

// What the record of node i holds.
pub fn kind_of(s: &[u8], l: Layout, i: usize) -> usize
    requires laid_out { LaidOut s.now l }
    requires i_lt_nodes { i < l.nodes }
    ensures { NumberRead 256 (kind_of s.now i) result }
{
    node_byte(s, l, i, 0)
}

pub fn argument_of(s: &[u8], l: Layout, i: usize) -> usize
    requires laid_out { LaidOut s.now l }
    requires i_lt_nodes { i < l.nodes }
    ensures { NumberRead 256 (argument_of s.now i) result }
{
    node_byte(s, l, i, 1)
}

pub fn first_program_of_node(s: &[u8], l: Layout, i: usize) -> usize
    requires laid_out { LaidOut s.now l }
    requires i_lt_nodes { i < l.nodes }
    ensures { NumberRead 65536 (first_program_of_node s.now i) result }
{
    node_word(s, l, i, 2)
}

pub fn second_program_of_node(s: &[u8], l: Layout, i: usize) -> usize
    requires laid_out { LaidOut s.now l }
    requires i_lt_nodes { i < l.nodes }
    ensures { NumberRead 65536 (second_program_of_node s.now i) result }
{
    node_word(s, l, i, 4)
}
