// Where a conversion of files stands between two calls, whatever it converts with: what is held, written and passed, and how far it tells that it is.

#![tactic(auto)]

ghost use Rattle.std.specs.Prelude.{◌≡◌};
ghost use Rattle.io.specs.Counts.{IsPrefixLen};
ghost use Rattle.standing.specs.Standings.{fresh_standing, standing_stopped, standing_forsaken, standing_answered, standing_holding, with_state};
ghost use Rattle.standing.specs.Standings.{is_broken, is_refused};

use behind::Behind;
use files::{Opened, STDERR_FILENO};
use places::Place;
use state::State;

// Where a conversion stands between two calls of the converter: the last number, how many bytes at the front of the lent memory are not
// taken yet, how many bytes were written in all, where it is, what is kept of what lies behind, whether the schedule could not be read or the output not written, whether whoever started
// it is gone, and whether it goes on.
#[derive(Clone, Copy)]
pub struct Standing {
    pub number: usize,
    pub held: usize,
    pub written: u64,
    pub place: Place,
    pub behind: Behind,
    pub unread: bool,
    pub unwritten: bool,
    pub left_alone: bool,
    pub going: bool,
    pub state: State,
}

// More is to come.
const MORE: usize = 16;

// The room is full.
const FULL: usize = 17;

// So many bytes between two lines of progress.
const STEP: u64 = 8388608;

impl Standing {
    pub fn fresh() -> Standing
        ensures { result ≡ fresh_standing }
    {
        let place = Place::start();
        let behind = Behind::start();
        let state = State::fresh();
        Standing {
            number: MORE,
            held: 0,
            written: 0,
            place: place,
            behind: behind,
            unread: false,
            unwritten: false,
            left_alone: false,
            going: true,
            state: state,
        }
    }

    // A file could not be read or written: nothing more is done.
    pub fn stopped(self, unread: bool) -> Standing
        ensures { result ≡ standing_stopped self unread }
    {
        let mut next = self;
        next.unread = unread;
        next.unwritten = !unread;
        next.going = false;
        next
    }

    // Whoever started it is gone: nobody waits for a listing any more.
    pub fn forsaken(self) -> Standing
        ensures { result ≡ standing_forsaken self }
    {
        let mut next = self;
        next.left_alone = true;
        next.going = false;
        next
    }

    // After a call that came to a number, and whose output of so many bytes was written out: the place past what was taken, and what is kept of it. Where some room
    // was full it goes on if anything came of the call.
    pub fn answered(
        self,
        number: usize,
        written: usize,
        moved: bool,
        place: Place,
        behind: Behind,
    ) -> Standing
        ensures { result ≡ standing_answered self number written moved place behind }
    {
        let state = self.state;
        Standing {
            number: number,
            held: self.held,
            written: std::num::wrapping_add_u64(self.written, written as u64),
            place: place,
            behind: behind,
            unread: false,
            unwritten: false,
            left_alone: false,
            going: (number == MORE) | ((number == FULL) & moved),
            state: state,
        }
    }

    // With so many bytes that are not taken yet.
    pub fn holding(self, held: usize) -> Standing
        ensures { result ≡ standing_holding self held }
    {
        let mut next = self;
        next.held = held;
        next
    }

    pub fn with_state(self, state: State) -> Standing
        ensures { result ≡ with_state self state }
    {
        let mut next = self;
        next.state = state;
        next
    }
}

// Whether the run came to an end with a file that failed, or with nobody there.
pub fn is_broken(s: Standing) -> bool
    ensures { result ≡ is_broken s }
{
    s.unread | s.unwritten | s.left_alone
}

// Whether it came to an end with a number other than 0.
pub fn is_refused(s: Standing) -> bool
    ensures { result ≡ is_refused s }
{
    (s.number > 0) & !is_broken(s)
}

// Writes output out; where there is no file for it, as in a trial, that is done at once.
pub fn write_out(to: &mut Opened, output: &[u8]) -> bool {
    if !to.is_open() {
        return true;
    }
    to.write(output)
}

// What is looked at of the bytes that were not taken: enough for what is shown.
const FRONT: usize = 64;

// Where something was refused, reads on behind the bytes that were not taken, so that what is shown does not depend on where a part ended. Answers how
// many bytes there are to look at.
pub fn top_up(from: &mut Opened, part: &mut [u8], held: usize, refused: bool) -> usize
    ensures { IsPrefixLen result part.new }
{
    if !refused {
        return files::within(held, part);
    }
    let n = files::within(FRONT, part);
    let filled = files::fill(from, &mut part[..n], held);
    files::within(filled.held, part)
}

// Says how far it is, at every step, to whoever watches.
pub fn tell_progress(watched: bool, before: u64, now: u64) {
    if !watched | (now / STEP == before / STEP) {
        return;
    }
    io::write_all(STDERR_FILENO, b"\r");
    io::print_decimal(STDERR_FILENO, now / 1048576);
    io::write_all(STDERR_FILENO, b" MB converted");
}

pub fn end_progress(watched: bool, now: u64) {
    if watched & (now >= STEP) {
        io::write_all(STDERR_FILENO, b"\n");
    }
}
