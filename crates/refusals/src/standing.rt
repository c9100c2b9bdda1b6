// Where a reader of declarations stands behind a text that is right so far, and what may stand next.
ghost use Rattle.std.specs.Prelude.{◌≤◌, length};

use levels::ModelSize;
use stages::{Fate, Headway, Station};
use words::{STDERR_FILENO, tell};

// Whether it stands between declarations, whether there is one already, and how far one is read.
#[derive(Clone, Copy)]
pub(crate) struct Reached {
    pub between: bool,
    pub some: bool,
    pub headway: Headway,
}

// Behind the last < of some bytes; 0 where there is none.
fn behind_opening(bytes: &[u8]) -> usize
    ensures { result ≤ length bytes.now }
{
    match bytes.iter().rposition(|b| *b == b'<') {
        Some(i) => i + 1,
        None => 0,
    }
}

// One byte further in a declaration, or behind it.
fn passed(r: Reached, b: u8) -> Reached {
    if r.between {
        return r;
    }
    let h = r.headway;
    let moved = strata::step(h, b, 0);
    let fate = moved.fate;
    let next = moved.headway;
    match fate {
        Fate::Over => Reached {
            between: true,
            some: true,
            headway: next,
        },
        _ => Reached {
            between: false,
            some: r.some,
            headway: next,
        },
    }
}

// Some bytes further.
fn passed_all(from: Reached, bytes: &[u8]) -> Reached {
    bytes.iter().fold(from, |r, b| passed(r, *b))
}

// Behind a text that is right so far, in which < stands only where a declaration begins.
pub(crate) fn stand_behind(text: &[u8]) -> Reached {
    let from = behind_opening(text);
    if from == 0 {
        return Reached {
            between: true,
            some: false,
            headway: Headway::begun(),
        };
    }
    let opening = from - 1;
    let others = behind_opening(&text[0..opening]);
    let start = Reached {
        between: false,
        some: others > 0,
        headway: Headway::begun(),
    };
    passed_all(start, &text[from..])
}

// The most nodes of a model, and how deep they go.
const NODES: usize = 32;

const DEEP: usize = 12;

// Whether a byte may stand here, and the model keeps its limits.
fn takes(h: Headway, b: u8) -> bool {
    let moved = strata::step(h, b, 0);
    let fate = moved.fate;
    match fate {
        Fate::On => {
            let next = moved.headway;
            is_within(strata::measure(next))
        }
        Fate::Over => true,
        Fate::Refused | Fate::Deep => false,
    }
}

fn is_within(size: ModelSize) -> bool {
    (size.nodes <= NODES) & (size.deep <= DEEP)
}

pub(crate) fn complain(text: &[u8]) {
    tell(STDERR_FILENO, text);
}

fn tell_if(may: bool, word: &[u8]) {
    if may {
        complain(word);
    }
}

// What may stand behind a <.
fn tell_opening(long: usize) {
    if long < 8 {
        complain(b" <!ELEMENT");
    } else {
        complain(b" white space");
    }
}

// The words and names that may stand here. That white space may, is said only where nothing else can come.
fn tell_words(h: Headway) {
    let station = h.station;
    match station {
        Station::Opening => tell_opening(h.long),
        Station::Naming => complain(b" a name"),
        Station::Named => {
            tell_if(takes(h, b'a'), b" more of the name");
            complain(b" white space");
        }
        Station::Contents => complain(b" EMPTY"),
        Station::Emptying => tell_if(h.long < 4, b" EMPTY"),
        Station::Inside => complain(b" #PCDATA a name"),
        Station::Hashing => tell_if(h.long < 6, b" #PCDATA"),
        Station::Barred => complain(b" a name"),
        Station::MixedName => tell_if(takes(h, b'a'), b" more of the name"),
        Station::Wants => complain(b" a name"),
        Station::InName => tell_if(takes(h, b'a'), b" more of the name"),
        _ => {}
    }
}

// The signs ( ? * + , | ) > that may stand here.
fn tell_signs(h: Headway) {
    for sign in b"(?*+,|)>" {
        if takes(h, *sign) {
            complain(&[b' ', *sign]);
        }
    }
}

// Says what may stand where a reader of declarations stands.
pub(crate) fn tell_instead(r: Reached) {
    complain(b"There may stand:");
    if r.between {
        complain(b" <!ELEMENT");
        tell_if(r.some, b" (or the text may end)");
    } else {
        let h = r.headway;
        tell_words(h);
        tell_signs(h);
    }
    complain(b"\n");
}
