// One step of a call of the salvage run: a token that is taken or refused, the end of the part, or the bytes passed over behind a refused record.

#![tactic(auto)]

ghost use Rattle.std.specs.Prelude.{◌≡◌, not, cond, ◌+◌, ◌-◌, ◌/◌, ◌≤◌, ◌<◌, ◌^◌, eqb, length};
ghost use Rattle.layout.specs.LaidOut.{LaidOut};
ghost use Rattle.steps.specs.Taken.{EventIn};
ghost use Rattle.turns.specs.Stands.{between_in, inside_in, skipping_in, going, stopping, MayTake, Ready};
ghost use Rattle.turns.specs.Turned.{ToldAs, BrokenAs, NamedAs, BeginsAs, RecordTokenAs, OtherTokenAs, ResumesAs, RanOutAs, SkippedAs, NoTokenAs, TurnedAs};

use converter::{number_without_token, read_on};
use layout::Layout;
use live::Live;
use lookups::tag_named;
use salvaging::{Resumed, resumption};
use state::bytes::put_number;
use steps::Run;
use tokens::{Answer, Cursor, Event};

// An entry of the report: first byte, last byte and number.
const ENTRY: usize = 24;

// Where a salvage run stands. In a record there is also what returns when it is dropped, and how many bytes wait; behind a refused one the number that refused it.
#[derive(Clone, Copy)]
pub struct Stand {
    pub mode: usize,
    pub live: Live,
    pub before: Live,
    pub first: usize,
    pub number: usize,
    pub waits: usize,
}

// Where a call has come to: the place in the part, where the next byte of output goes, and the entries of the report.
#[derive(Clone, Copy)]
pub struct Place {
    pub at: usize,
    pub put: usize,
    pub told: usize,
}

// The records' tag, the bytes of the stream that were taken before the call, and whether the stream ends with the part.
#[derive(Clone, Copy)]
pub struct Given {
    pub tag: usize,
    pub base: usize,
    pub ended: bool,
}

// What a step came to: whether the run goes on, else the number that it stops with; the place, the bytes that waited meanwhile, and where the run then stands.
#[derive(Clone, Copy)]
pub struct Turn {
    pub goes: bool,
    pub number: usize,
    pub place: Place,
    pub deep: usize,
    pub stand: Stand,
}

impl Stand {
    // The modes: between records, in one, and passing over what is left of a refused one.
    pub const BETWEEN: usize = 0;

    pub const INSIDE: usize = 1;

    pub const SKIPPING: usize = 2;

    pub fn between(live: Live) -> Stand
        ensures { result ≡ between_in live }
    {
        Stand {
            mode: Stand::BETWEEN,
            live: live,
            before: live,
            first: 0,
            number: 0,
            waits: 0,
        }
    }

    pub fn inside(before: Live, live: Live, first: usize, waits: usize) -> Stand
        ensures { result ≡ inside_in before live first waits }
    {
        Stand {
            mode: Stand::INSIDE,
            live: live,
            before: before,
            first: first,
            number: 0,
            waits: waits,
        }
    }

    // The run is again as it was before the record.
    pub fn skipping(before: Live, first: usize, number: usize) -> Stand
        ensures { result ≡ skipping_in before first number }
    {
        Stand {
            mode: Stand::SKIPPING,
            live: before,
            before: before,
            first: first,
            number: number,
            waits: 0,
        }
    }

    fn goes(self, at: usize, put: usize, told: usize, deep: usize) -> Turn
        ensures { result ≡ going self at put told deep }
    {
        let place = Place {
            at: at,
            put: put,
            told: told,
        };
        Turn {
            goes: true,
            number: 0,
            place: place,
            deep: deep,
            stand: self,
        }
    }

    fn stops(self, number: usize, at: usize, put: usize, told: usize, deep: usize) -> Turn
        ensures { result ≡ stopping self number at put told deep }
    {
        let place = Place {
            at: at,
            put: put,
            told: told,
        };
        Turn {
            goes: false,
            number: number,
            place: place,
            deep: deep,
            stand: self,
        }
    }
}

// Writes an entry of the report, and says whether there was room for it.
fn tell(report: &mut [u8], told: usize, first: usize, last: usize, number: usize) -> bool
    ensures { ToldAs report.old told first last number report.new result }
{
    if report.len() / ENTRY <= told {
        return false;
    }
    let at = ENTRY * told;
    let second = put_number(report, at, first as u64);
    let third = put_number(report, second, last as u64);
    put_number(report, third, number as u64);
    true
}

// The byte before a place.
fn byte_before(place: usize) -> usize
    ensures { result ≡ place - 1 }
{
    if place == 0 { 0 } else { place - 1 }
}

// Where a record that is dropped for good ends: with the stream, or before the token that the count stopped.
fn stretch_end(number: usize, end: usize, token: usize) -> usize
    ensures { result ≡ cond (eqb number 27) end token }
{
    if number == 27 { end } else { token }
}

impl Stand {
    // A record that began at `first`, where the run was as it was before, stops with a number at a place: 16 and 17 leave all as it is; 20 to 25 drop the record,
    // and what is left of it is passed over; 27 and 30 drop it and close.
    fn breaks(
        self,
        before: Live,
        first: usize,
        number: usize,
        base: usize,
        len: usize,
        p: Place,
        report: &mut [u8],
    ) -> Turn
        requires len_bound { base + len ≤ 2 ^ 62 }
        requires at_le_len { p.at ≤ len }
        ensures { BrokenAs self before first number base len p report.old report.new result }
    {
        if number == 16 {
            return self.stops(number, p.at, p.put, p.told, self.waits);
        }
        if number == 17 {
            return self.stops(number, p.at, p.put, p.told, self.waits);
        }
        if (20 <= number) & (number <= 25) {
            let skips = Stand::skipping(before, first, number);
            if first < base + p.at {
                return skips.goes(p.at, p.put, p.told, self.waits);
            }
            return skips.goes(p.at + 1, p.put, p.told, self.waits);
        }
        let left = Stand::between(before);
        if (number != 27) & (base + p.at <= first) {
            return left.stops(number, p.at, p.put, p.told, self.waits);
        }
        let last = byte_before(stretch_end(number, base + len, base + p.at));
        if !tell(report, p.told, first, last, number) {
            return self.stops(17, p.at, p.put, p.told, self.waits);
        }
        left.stops(number, p.at, p.put, p.told + 1, self.waits)
    }
}

// Whether a tag of this name is the records'.
fn named(s: &[u8], l: Layout, part: &[u8], from: usize, len: usize, tag: usize) -> bool
    requires laid_out { LaidOut s.now l }
    requires len_in_bounds { from + len ≤ length part.now }
    ensures { NamedAs s.now part.now from len tag result }
{
    let end = from + len;
    tag_named(s, l, &part[from..end]) == Some(tag)
}

// Whether a token begins a record: the records' tag, started or empty, where only the root is open.
fn begins_record(s: &[u8], l: Layout, part: &[u8], e: Event, tag: usize, depth: usize) -> bool
    requires laid_out { LaidOut s.now l }
    requires event_in { EventIn part.now e }
    ensures { BeginsAs s.now part.now e tag depth result }
{
    if depth != 1 {
        return false;
    }
    match e {
        Event::Start { from, len } => named(s, l, part, from, len, tag),
        Event::End { from, len } => false,
        Event::Empty { from, len } => named(s, l, part, from, len, tag),
        Event::Character(c, literal) => false,
    }
}

impl Stand {
    // A token of a record: it is put behind the bytes that wait. With the record's last token all of it is written, where the output has room.
    fn record_token(
        self,
        s: &[u8],
        l: Layout,
        base: usize,
        before: Live,
        first: usize,
        part: &[u8],
        e: Event,
        next: usize,
        p: Place,
        stack: &mut [u8],
        out: &mut [u8],
        area: &mut [u8],
        report: &mut [u8],
    ) -> Turn
        requires laid_out { LaidOut s.now l }
        requires may_take { MayTake s.now self.live stack.old part.now e }
        requires waits_in_bounds { self.waits ≤ length area.old }
        requires put_in_bounds { p.put ≤ length out.old }
        requires part_bound { base + length part.now ≤ 2 ^ 62 }
        requires at_in_bounds { p.at ≤ length part.now }
        ensures { RecordTokenAs s.now base before first part.now e next p self stack.old stack.new out.old out.new area.old area.new report.old report.new result }
    {
        let live = self.live;
        let run = Run {
            at: self.waits,
            live: live,
        };
        let stepped = run.take(s, l, part, e, stack, area);
        if stepped.number != 0 {
            return self.breaks(before, first, stepped.number, base, part.len(), p, report);
        }
        let all = stepped.at;
        let after = stepped.live;
        if after.depth != 1 {
            let within = Stand::inside(before, after, first, all);
            return within.goes(next, p.put, p.told, all);
        }
        let put = p.put;
        if out.len() - put < all {
            return self.stops(17, p.at, put, p.told, all);
        }
        lent::put_bytes(out, put, &area[..all], true);
        let whole = Stand::between(after);
        whole.goes(next, put + all, p.told, all)
    }

    // A token outside a record.
    fn other_token(
        self,
        s: &[u8],
        l: Layout,
        part: &[u8],
        e: Event,
        next: usize,
        p: Place,
        stack: &mut [u8],
        out: &mut [u8],
    ) -> Turn
        requires laid_out { LaidOut s.now l }
        requires may_take { MayTake s.now self.live stack.old part.now e }
        requires put_in_bounds { p.put ≤ length out.old }
        ensures { OtherTokenAs s.now part.now e next p self stack.old stack.new out.old out.new result }
    {
        let live = self.live;
        let run = Run {
            at: p.put,
            live: live,
        };
        let stepped = run.take(s, l, part, e, stack, out);
        if stepped.number != 0 {
            return self.stops(stepped.number, p.at, p.put, p.told, self.waits);
        }
        let after = stepped.live;
        let left = Stand::between(after);
        left.goes(next, stepped.at, p.told, 0)
    }

    // Reading resumes at a place: the stretch is complete.
    fn resumes(self, to: usize, base: usize, p: Place, report: &mut [u8]) -> Turn
        requires { base + to ≤ 2 ^ 62 }
        ensures { ResumesAs self to base p report.old report.new result }
    {
        let last = byte_before(base + to);
        if !tell(report, p.told, self.first, last, self.number) {
            return self.stops(17, to, p.put, p.told, self.waits);
        }
        let live = self.live;
        let left = Stand::between(live);
        left.goes(to, p.put, p.told + 1, 0)
    }

    // It does not in this part: the rest is passed over while more is to come, but for what begins a place where it may; else the stream ends in 27.
    fn ran_out(self, to: usize, len: usize, g: Given, p: Place, report: &mut [u8]) -> Turn
        requires { g.base + len ≤ 2 ^ 62 }
        ensures { RanOutAs self to len g p report.old report.new result }
    {
        if !g.ended {
            return self.stops(16, to, p.put, p.told, self.waits);
        }
        let last = byte_before(g.base + len);
        if !tell(report, p.told, self.first, last, self.number) {
            return self.stops(17, len, p.put, p.told, self.waits);
        }
        let live = self.live;
        let left = Stand::between(live);
        left.stops(27, len, p.put, p.told + 1, 0)
    }

    // Bytes are passed over, up to where reading resumes.
    fn skip(
        self,
        g: Given,
        part: &[u8],
        start: &[u8],
        end: &[u8],
        p: Place,
        report: &mut [u8],
    ) -> Turn
        requires { g.base + length part.now ≤ 2 ^ 62 }
        ensures { SkippedAs self g part.now start.now end.now p report.old report.new result }
    {
        let found = resumption(part, p.at, start, end);
        match found {
            Resumed::Here(to) => self.resumes(to, g.base, p, report),
            Resumed::Waits(to) => self.ran_out(to, part.len(), g, p, report),
            Resumed::Nowhere => self.ran_out(part.len(), part.len(), g, p, report),
        }
    }

    // No whole token comes next, and that has a number.
    fn no_token(self, number: usize, base: usize, len: usize, p: Place, report: &mut [u8]) -> Turn
        requires len_bound { base + len ≤ 2 ^ 62 }
        requires at_le_len { p.at ≤ len }
        ensures { NoTokenAs self number base len p report.old report.new result }
    {
        if self.mode == Stand::BETWEEN {
            return self.stops(number, p.at, p.put, p.told, self.waits);
        }
        let before = self.before;
        self.breaks(before, self.first, number, base, len, p, report)
    }

    // One step, at a place of the part.
    pub fn turn(
        self,
        s: &[u8],
        l: Layout,
        g: Given,
        part: &[u8],
        start: &[u8],
        end: &[u8],
        p: Place,
        stack: &mut [u8],
        out: &mut [u8],
        area: &mut [u8],
        report: &mut [u8],
    ) -> Turn
        requires laid_out { LaidOut s.now l }
        requires ready { Ready s.now g part.now p self stack.old out.old area.old }
        ensures { TurnedAs s.now g part.now start.now end.now p self stack.old stack.new out.old out.new area.old area.new report.old report.new result }
    {
        if self.mode == Stand::SKIPPING {
            return self.skip(g, part, start, end, p, report);
        }
        let cursor = Cursor { at: p.at };
        let live = self.live;
        let answer = read_on(cursor, part, g.ended);
        let Answer::Token(e, next) = answer else {
            let number = number_without_token(answer, g.ended, part.len() - p.at, live);
            return self.no_token(number, g.base, part.len(), p, report);
        };
        if self.mode == Stand::INSIDE {
            let before = self.before;
            return self.record_token(
                s, l, g.base, before, self.first, part, e, next.at, p, stack, out, area, report,
            );
        }
        if begins_record(s, l, part, e, g.tag, live.depth) {
            return self.record_token(
                s,
                l,
                g.base,
                live,
                g.base + p.at,
                part,
                e,
                next.at,
                p,
                stack,
                out,
                area,
                report,
            );
        }
        self.other_token(s, l, part, e, next.at, p, stack, out)
    }
}
