// The bytes of a salvage run's state: what returns when a record is dropped, as the bytes of a state of its own; where the run stands; and whether they fit a sheet (29).

#![tactic(auto)]

ghost use Rattle.std.specs.Prelude.{◌≡◌, ◌<◌, length, replicate};
ghost use Rattle.layout.specs.LaidOut.{LaidOut};
ghost use Rattle.sheet.specs.Defect.{WellFormed};
ghost use Rattle.fit.specs.Tests.{FitTold};
ghost use Rattle.state.specs.Bounds.{state_width};
ghost use Rattle.state.specs.Bytes.{state_from};
ghost use Rattle.state.specs.Meaning.{Shaped};
ghost use Rattle.layout.specs.Layout.{byte_at};
ghost use Rattle.rescued.specs.Bytes.{mode_at, salvage_width, returning_bytes, returning_in};
ghost use Rattle.holding.specs.Told.{ReturnsAs, StandAs, ModeTold, SalvageTold};

use apart::live_in;
use fit::state_fits;
use layout::Layout;
use live::Live;
use state::bytes::{byte_at, heading_at, number_at};
use state::{Frame, State};
use turns::Stand;

// Where the parts stand behind the bytes of the run's own state: the mode, the bytes taken so far, the record's first byte, the number that refused it, how many
// bytes wait, and what returns: attributes, echo and count, and the root's frame.
pub const MODE_AT: usize = State::BYTES;

pub const PASSED_AT: usize = MODE_AT + 1;

pub const FIRST_AT: usize = PASSED_AT + 8;

pub const REFUSED_AT: usize = FIRST_AT + 8;

pub const WAITING_AT: usize = REFUSED_AT + 1;

pub const RETURNS_AT: usize = WAITING_AT + 8;

pub const ROOT_AT: usize = RETURNS_AT + State::ROOTED_AT;

pub const BYTES: usize = ROOT_AT + Frame::BYTES;

// The most bytes of a stream.
const MOST: usize = 4611686018427387904;

// Writes what returns as the bytes of a state in which the root alone is open.
fn put_returning(state: &[u8], bytes: &mut [u8; State::BYTES])
    requires state_len { length state.now ≡ salvage_width }
    requires bytes_value { bytes.old ≡ replicate state_width 0 }
    ensures { bytes.new ≡ returning_bytes state.now }
{
    let from = RETURNS_AT;
    let root = ROOT_AT;
    let end = BYTES;
    let middle = [0u8, 255, 1, 0, 0, 0, 0, 0, 0, 0];
    let second = lent::put_bytes(bytes, 0, &state[from..root], true);
    let third = lent::put_bytes(bytes, second, &middle, true);
    lent::put_bytes(bytes, third, &state[root..end], true);
}

// Whether what returns fits the sheet.
fn returns_fit(s: &[u8], l: Layout, state: &[u8]) -> bool
    requires laid_out { LaidOut s.now l }
    requires well_formed { WellFormed s.now }
    requires state_len { length state.now ≡ salvage_width }
    ensures { FitTold s.now (returning_in state.now) result }
{
    let mut bytes = [0u8; State::BYTES];
    put_returning(state, &mut bytes);
    state_fits(s, l, &bytes)
}

// What returns.
fn returning(state: &[u8]) -> Live
    requires state_len { length state.now ≡ salvage_width }
    requires shaped { Shaped (returning_in state.now) }
    ensures { ReturnsAs state.now result }
{
    let mut bytes = [0u8; State::BYTES];
    put_returning(state, &mut bytes);
    live_in(&bytes)
}

// Whether the state fits in its mode.
fn mode_fits(s: &[u8], l: Layout, state: &[u8], area: usize) -> bool
    requires laid_out { LaidOut s.now l }
    requires well_formed { WellFormed s.now }
    requires state_len { length state.now ≡ salvage_width }
    ensures { ModeTold s.now state.now area result }
{
    let h = heading_at(state);
    let depth = h.depth;
    let mode = byte_at(state, MODE_AT);
    if mode == 0 {
        return depth <= 1;
    }
    if 2 < mode {
        return false;
    }
    let passed = number_at(state, PASSED_AT);
    if passed <= number_at(state, FIRST_AT) {
        return false;
    }
    if mode == 2 {
        let number = byte_at(state, REFUSED_AT);
        return (depth == 1) & ((20 <= number) & (number <= 25));
    }
    if depth < 2 {
        return false;
    }
    if (area as u64) < number_at(state, WAITING_AT) {
        return false;
    }
    returns_fit(s, l, state)
}

// Number 29 of a salvage run: whether the bytes fit a well-formed sheet, with an area of so many bytes and a part of so many.
pub fn salvage_fits(s: &[u8], l: Layout, state: &[u8], area: usize, part: usize) -> bool
    requires laid_out { LaidOut s.now l }
    requires well_formed { WellFormed s.now }
    ensures { SalvageTold s.now state.now area part result }
{
    if state.len() != BYTES {
        return false;
    }
    if !state_fits(s, l, state) {
        return false;
    }
    let passed = number_at(state, PASSED_AT) as usize;
    if MOST < passed {
        return false;
    }
    if MOST - passed < part {
        return false;
    }
    mode_fits(s, l, state, area)
}

// Where the run stands.
pub fn stand_in(state: &[u8]) -> Stand
    requires state_len { length state.now ≡ salvage_width }
    requires shaped { Shaped (state_from state.now) }
    requires shaped_2 { byte_at state.now mode_at ≡ 1 → Shaped (returning_in state.now) }
    ensures { StandAs state.now result }
{
    let live = live_in(state);
    let mode = byte_at(state, MODE_AT);
    if mode == 0 {
        return Stand::between(live);
    }
    let first = number_at(state, FIRST_AT) as usize;
    if mode == 1 {
        let before = returning(state);
        let waits = number_at(state, WAITING_AT) as usize;
        return Stand::inside(before, live, first, waits);
    }
    let number = byte_at(state, REFUSED_AT) as usize;
    Stand::skipping(live, first, number)
}
