// The converter: one call over the bytes of a sheet and of a part of a stream, with a state handed in and handed back.

#![tactic(auto)]

ghost use Rattle.std.specs.Prelude.{◌≡◌, not, List, ℕ, ◌≤◌, length};
ghost use Rattle.std.proofs.Math.Option.{some};
ghost use Rattle.layout.specs.LaidOut.{LaidOut};
ghost use Rattle.tokens.specs.declared.Answer.TheVariants.{Begun};
ghost use Rattle.tokens.specs.Stream.{ReadAs};
ghost use Rattle.calls.specs.Call.{again, number_at};
ghost use Rattle.state.specs.Meaning.{meaning_of, Shaped};
ghost use Rattle.state.specs.Bounds.{stack_width, state_width};
ghost use Rattle.state.specs.Bytes.{state_from};
ghost use Rattle.converter.specs.Answered.{AnsweredAs};
ghost use Rattle.converter.specs.Bytes.{state_in, BytesAnsweredAs};
ghost use Rattle.live.specs.Live.{full, env_in};
ghost use Rattle.converter.specs.Inner.{MayRun, Entered, NumberedAs, left_live, StopsLive, RanLive};

use ahead::onward;
use apart::{live_in, put_back};
use faults::verdict;
use fit::state_fits;
use layout::{Layout, layout_of};
use live::Live;
use state::State;
use state::bytes::{from_bytes, heading_at, to_bytes};
use steps::Run;
use stretches::Stretch;
use tokens::{Answer, Cursor};

// What a call answers: the number, the bytes taken of the part, the bytes written, the count of visits, and the state handed back.
#[derive(Clone, Copy)]
pub struct Reply {
    pub number: usize,
    pub taken: usize,
    pub written: usize,
    pub visits: u64,
    pub state: State,
}

// The same of a call whose state is bytes, which are changed where they lie.
#[derive(Clone, Copy)]
pub struct Counts {
    pub number: usize,
    pub taken: usize,
    pub written: usize,
    pub visits: u64,
}

// What a run comes to, with the live part of the state that is left.
#[derive(Clone, Copy)]
pub struct LiveReply {
    pub number: usize,
    pub taken: usize,
    pub written: usize,
    pub visits: u64,
    pub live: Live,
}

// The number of bytes that are no state, or one that does not fit the sheet.
const UNFIT: usize = 29;

// A closed state answers its number again, and 28 after 0.
pub fn repeated(number: u8) -> usize
    ensures { result ≡ again number }
{
    if number == 0 {
        return 28;
    }
    number as usize
}

// The number with which the state is given back, or 0 where the call runs. The sheet is tested first, then whether the bytes are a state, of a state's length,
// that fits it, then whether it is closed.
fn given_back(sheet: &[u8], state: &[u8]) -> usize
    ensures { Entered sheet.now (state_in state.now) result }
{
    let number = verdict(sheet);
    if number != 0 {
        return number;
    }
    if state.len() != State::BYTES {
        return UNFIT;
    }
    let l = layout_of(sheet);
    if !state_fits(sheet, l, state) {
        return UNFIT;
    }
    let h = heading_at(state);
    let closed = h.closed;
    if closed != State::OPEN {
        return repeated(closed);
    }
    0
}

// The number where the next token is only begun, or nothing is left.
fn number_begun(ended: bool, left: usize, z: Live) -> usize
    ensures { (b : List ℕ) → Shaped (full z b) → number_at (not ended) left (meaning_of (full z b)).control Begun ≡ some result }
{
    if ended {
        if left > 0 {
            return 27;
        }
        if z.depth > 0 {
            return 27;
        }
        if z.rooted { 0 } else { 27 }
    } else {
        16
    }
}

// What is read at a cursor, once it is known whether the stream has ended: a carriage return that is the last byte is whole only then.
pub fn read_on(cursor: Cursor, part: &[u8], ended: bool) -> Answer
    ensures { ReadAs (not ended) part.now cursor.at result }
{
    let answer = cursor.read(part);
    let Answer::Waiting(event, next) = answer else {
        return answer;
    };
    if ended {
        return Answer::Token(event, next);
    }
    Answer::Begun
}

// The number where no whole token comes next.
pub fn number_without_token(answer: Answer, ended: bool, left: usize, z: Live) -> usize
    ensures { (b : List ℕ) → Shaped (full z b) → NumberedAs (not ended) left (meaning_of (full z b)).control answer result }
{
    match answer {
        Answer::Token(_, _) => 0,
        Answer::Waiting(_, _) => 0,
        Answer::Begun => number_begun(ended, left, z),
        Answer::Bad => 20,
        Answer::Long => 21,
    }
}

// 16 and 17 leave the state open, any other number closes it.
pub fn left_with(number: usize, z: Live) -> Live
    requires { number ≤ 30 }
    ensures { result ≡ left_live number z }
{
    if number == 16 {
        return z;
    }
    if number == 17 {
        return z;
    }
    let mut next = z;
    next.closed = number as u8;
    next
}

// What a run comes to that stops with a number at a place.
fn stop(number: usize, taken: usize, run: Run) -> LiveReply
    requires { number ≤ 30 }
    ensures { StopsLive number taken run.at run.live result }
{
    let z = run.live;
    let left = left_with(number, z);
    LiveReply {
        number: number,
        taken: taken,
        written: run.at,
        visits: left.count,
        live: left,
    }
}

// The run behind a stretch that leaves all as it is but for the count and what is written.
fn behind(z: Live, far: Stretch) -> Run
    ensures { result ≡ record { at = far.put; live = env_in z z.values z.echo far.count } }
{
    let values = z.values;
    let y = z.with_env(values, z.echo, far.count);
    Run {
        at: far.put,
        live: y,
    }
}

// Takes the part's tokens one after another, until one is refused or has no room, or no whole one comes next.
fn run_live(
    s: &[u8],
    l: Layout,
    live: Live,
    part: &[u8],
    ended: bool,
    stack: &mut [u8],
    out: &mut [u8],
) -> LiveReply
    requires laid_out { LaidOut s.now l }
    requires may_run { MayRun s.now (full live stack.old) }
    requires stack_width_in_bounds { stack_width ≤ length stack.old }
    ensures { RanLive s.now (full live stack.old) part.now ended out.old out.new result stack.new }
{
    let mut at = 0;
    let mut run = Run { at: 0, live: live };
    // A loop: each step goes on by the token that was read, which no range gives.
    loop {
        let cursor = Cursor { at: at };
        let answer = read_on(cursor, part, ended);
        let Answer::Token(event, next) = answer else {
            let z = run.live;
            let number = number_without_token(answer, ended, part.len() - at, z);
            return stop(number, at, run);
        };
        let stepped = run.take(s, l, part, event, stack, out);
        if stepped.number != 0 {
            return stop(stepped.number, at, run);
        }
        let z = stepped.live;
        let here = Run {
            at: stepped.at,
            live: z,
        };
        let far = onward(s, l, here, part, next.at, stack, out);
        at = far.at;
        run = behind(z, far);
    }
}

// The same over the bytes of a state: the live part is read from them and put back, and the frames are the stack of the run, where they lie.
fn run_tokens(
    s: &[u8],
    l: Layout,
    state: &mut [u8],
    part: &[u8],
    ended: bool,
    out: &mut [u8],
) -> Counts
    requires laid_out { LaidOut s.now l }
    requires may_run { MayRun s.now (state_from state.old) }
    requires state_len { length state.old ≡ state_width }
    ensures { BytesAnsweredAs s.now state.old state.new part.now ended out.old out.new result }
{
    let live = live_in(state);
    let frames = State::HEAD;
    let reply = run_live(s, l, live, part, ended, &mut state[frames..], out);
    let left = reply.live;
    put_back(left, state);
    Counts {
        number: reply.number,
        taken: reply.taken,
        written: reply.written,
        visits: reply.visits,
    }
}

// One call: a sheet's bytes, the bytes of a state, the next part of a stream and whether it ends there, and lent memory for the output. The state is changed
// where it lies where the call runs, and else untouched.
pub fn convert_bytes(
    sheet: &[u8],
    state: &mut [u8],
    part: &[u8],
    ended: bool,
    out: &mut [u8],
) -> Counts
    ensures bytes_answered_as { BytesAnsweredAs sheet.now state.old state.new part.now ended out.old out.new result }
    ensures taken_in_bounds { result.taken ≤ length part.now }
    ensures written_in_bounds { result.written ≤ length out.old }
{
    let number = given_back(sheet, state);
    if number != 0 {
        let h = heading_at(state);
        return Counts {
            number: number,
            taken: 0,
            written: 0,
            visits: h.count,
        };
    }
    let l = layout_of(sheet);
    run_tokens(sheet, l, state, part, ended, out)
}

// The same with the state as a value: it is put into bytes for the call, and read back.
pub fn convert(sheet: &[u8], state: State, part: &[u8], ended: bool, out: &mut [u8]) -> Reply
    ensures answered_as { AnsweredAs sheet.now state part.now ended out.old out.new result }
    ensures taken_in_bounds { result.taken ≤ length part.now }
    ensures written_in_bounds { result.written ≤ length out.old }
{
    let mut bytes = [0u8; State::BYTES];
    to_bytes(state, &mut bytes);
    let counts = convert_bytes(sheet, &mut bytes, part, ended, out);
    let left = from_bytes(&bytes);
    Reply {
        number: counts.number,
        taken: counts.taken,
        written: counts.written,
        visits: counts.visits,
        state: left,
    }
}
