// What people are told of declarations that are refused: why, where, the line with a mark under the byte, and what may stand there.

#![tactic(auto)]

mod standing;

ghost use Rattle.std.specs.Prelude.{◌<◌, length};

use files::within;
use stages::{Headway, Station};
use standing::{Reached, complain, stand_behind, tell_instead};
use words::{STDERR_FILENO, tell_number};

// The longest name.
const LONGEST: usize = 15;

// Whether a name is being read.
fn is_in_name(station: Station) -> bool {
    matches!(
        station,
        Station::Named | Station::MixedName | Station::InName
    )
}

// Whether a name is being read, or may begin.
fn is_at_name(station: Station) -> bool {
    match station {
        Station::Naming | Station::Inside | Station::Barred | Station::Wants => true,
        _ => is_in_name(station),
    }
}

// What stands in a declaration where its byte b is refused, if it is one of those that a byte alone does not tell.
fn tell_cause_in(h: Headway, b: u8) {
    let station = h.station;
    if is_in_name(station) & text::name_byte(b) & (h.long == LONGEST) {
        complain(b"A name has at most 15 bytes. Shorten it, here and in the schedules.\n");
        return;
    }
    if is_at_name(station) & ((b == b':') | (b > 127)) {
        complain(
            b"A name has only the letters A to Z and a to z, digits, _ . and -: write it without this, here and in the schedules.\n",
        );
    }
}

// The same behind a <, where one byte more of a declaration, or none, was read.
fn tell_cause_of_opening(h: Headway, b: u8) {
    if (h.long == 1) & (b == b'-') {
        complain(b"This is a comment. Comments are not read: leave it out, from <!-- to -->.\n");
        return;
    }
    if (h.long == 0) & (b == b'?') {
        complain(
            b"This is an XML declaration or an instruction, which is not read: leave it out, from <? to ?>.\n",
        );
    }
}

// The same, wherever it is.
fn tell_cause(r: Reached, b: u8) {
    if r.between {
        return;
    }
    let h = r.headway;
    let station = h.station;
    match station {
        Station::Opening => tell_cause_of_opening(h, b),
        _ => tell_cause_in(h, b),
    }
}

// What there is to say of a byte that belongs to no declaration.
fn tell_unlike(text: &[u8], at: usize) {
    let end = within(at, text);
    let r = stand_behind(&text[..end]);
    if end < text.len() {
        tell_cause(r, text[end]);
    }
    tell_instead(r);
}

// Says why a text of declarations was refused, and where.
pub fn refuse(path: &[u8], text: &[u8], number: usize, place: usize) {
    complain(path);
    complain(b": number ");
    tell_number(STDERR_FILENO, number);
    complain(b".\n");
    words::tell_of_declarations(STDERR_FILENO, number);
    complain(b"\n");
    let at = within(place, text);
    places::tell_where(STDERR_FILENO, text, at);
    if number == 55 {
        tell_unlike(text, at);
    }
    complain(b"Nothing was printed.\n");
}
