// The first wrong production.
ghost use Rattle.std.specs.Prelude.{◌<◌};
ghost use Rattle.wrong.specs.Read.{RecordIs};

use crate::{field_of, say_record, say_then, small, word};
use words::say;

// A production's record.
const WIDTH: usize = 12;

// The first byte of production q's record.
pub(crate) fn record_of(s: &[u8], q: usize) -> usize
    requires { q < 65536 }
    ensures { RecordIs s.now q result }
{
    field_of(s, 2) + WIDTH * q
}

// The nodes of production q: the first one's number, and how many.
pub(crate) fn first_node(s: &[u8], q: usize) -> usize
    requires { q < 65536 }
    ensures { result < 65536 }
{
    word(s, record_of(s, q) + 2)
}

pub(crate) fn node_count(s: &[u8], q: usize) -> usize
    requires { q < 65536 }
    ensures { result < 256 }
{
    small(s, record_of(s, q) + 4)
}

// Whether production q's record is as it should be, where those before it have so many nodes.
fn fits(s: &[u8], q: usize, before: usize) -> bool
    requires { q < 65536 }
{
    let at = record_of(s, q);
    let names = (small(s, at) < 64) & (small(s, at + 1) < field_of(s, 1));
    let run = (first_node(s, q) == before) & (node_count(s, q) < 33);
    let zeros = (small(s, at + 5) == 0) & (word(s, at + 10) == 0);
    names & run & zeros
}

// No production by itself is wrong.
fn say_whole(s: &[u8], before: usize) {
    if before == field_of(s, 5) {
        let start = b"Each production is right: the start, in the trailer, is ";
        say_then(start, field_of(s, 10));
        say(b", and has to be 63 at most.\n");
        return;
    }
    let together = b"Each production is right by itself, but together they have ";
    say_then(together, before);
    say_then(b" nodes, and the trailer counts ", field_of(s, 5));
    say(b".\n");
}

pub(crate) fn say_production(s: &[u8]) {
    let count = field_of(s, 3);
    let mut before = 0;
    for q in 0..count {
        if !fits(s, q, before) {
            say_record(b"production", q, record_of(s, q));
            return;
        }
        before = (before + node_count(s, q)) % 65536;
    }
    say_whole(s, before);
}
