// A reader of declarations, one byte further: between declarations, and in one.

#![tactic(auto)]

ghost use Rattle.std.specs.Prelude.{◌≡◌, false};
ghost use Rattle.scans.specs.Scans.{limit_by, content_in, ScanFresh, WeighedIs, BetweenIs, InText, ByteIs};

use dockets::Docket;
use entries::Tally;
use levels::ModelSize;
use rosters::Roster;
use stages::{Fate, Headway, Station};

// Where a reader stands: whether between declarations, or how far one is read; what is kept beside it; and the number of the byte that was not
// taken.
#[derive(Clone, Copy)]
pub struct Scan {
    pub out: bool,
    pub halt: Option<usize>,
    pub headway: Headway,
    pub docket: Docket,
}

// In front of the text.
pub fn fresh() -> Scan
    ensures { ScanFresh result }
{
    let none = Roster {
        count: 0,
        full: false,
        number: 0,
    };
    let tally = Tally {
        productions: 0,
        nodes: 0,
    };
    let docket = Docket {
        names: none,
        tags: none,
        element: 0,
        tally: tally,
        passed: None,
    };
    Scan {
        out: true,
        halt: None,
        headway: Headway::begun(),
        docket: docket,
    }
}

// Where a reader stands behind a byte, or in front of one that it did not take.
fn standing(out: bool, halt: Option<usize>, headway: Headway, docket: Docket) -> Scan
    ensures { result ≡ record { out = out; halt = halt; headway = headway; docket = docket } }
{
    Scan {
        out: out,
        halt: halt,
        headway: headway,
        docket: docket,
    }
}

// Whether a content may begin here.
fn wants_content(h: Headway) -> bool
    ensures { result ≡ content_in h.station }
{
    matches!(h.station, Station::Contents)
}

// The number of a size that is over a model's limits.
fn limit(size: ModelSize) -> Option<usize>
    ensures { result ≡ limit_by size }
{
    if 32 < size.nodes {
        return Some(53);
    }
    if 12 < size.deep {
        return Some(54);
    }
    None
}

// A declaration goes on, where its model keeps its limits.
fn weigh(next: Headway, k: Docket) -> Scan
    ensures { WeighedIs next k result }
{
    let size = strata::measure(next);
    let halt = limit(size);
    standing(false, halt, next, k)
}

// A byte between declarations.
pub fn between(text: &[u8], at: usize, b: u8, s: Scan) -> Scan
    ensures { BetweenIs text.now at b s result }
{
    if text::blank(b) {
        return s;
    }
    let h = s.headway;
    let k = s.docket;
    if b == 60 {
        return standing(false, None, Headway::begun(), k);
    }
    let number = judging::number_at(text, at, false);
    standing(true, Some(number), h, k)
}

// A byte in a declaration.
pub fn amid(
    text: &[u8],
    at: usize,
    b: u8,
    s: Scan,
    names: &mut [u8],
    nameends: &mut [usize],
    tags: &mut [u8],
    tagends: &mut [usize],
    productions: &mut [u8],
    nodes: &mut [u8],
) -> Scan
    requires in_text { InText text.now at b s names.old nameends.old tags.old tagends.old productions.old nodes.old }
    requires out_value { s.out ≡ false }
    ensures { ByteIs text.now at names.new nameends.new tags.new tagends.new productions.new nodes.new result }
{
    let h = s.headway;
    let docket = s.docket;
    let end = h.name_end(b);
    let k = dockets::note(text, at, end, docket, names, nameends, tags, tagends);
    let filed = k.names;
    let moved = strata::step(h, b, filed.number as u8);
    let next = moved.headway;
    let fate = moved.fate;
    match fate {
        Fate::On => {
            return weigh(next, k);
        }
        Fate::Over => {
            let row = next.row;
            let more = dockets::conclude(k, at, row, productions, nodes);
            return standing(true, None, h, more);
        }
        Fate::Refused => {
            let content = wants_content(h);
            let number = judging::number_at(text, at, content);
            return standing(false, Some(number), h, k);
        }
        Fate::Deep => {
            return standing(false, Some(54), h, k);
        }
    }
}
