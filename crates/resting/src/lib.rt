// The bytes in which a salvage run hands its state back: the run's own state, and behind it where the salvage run stands and what returns.

#![tactic(auto)]

ghost use Rattle.std.specs.Prelude.{◌≡◌, true, ◌-◌, ◌≤◌, ◌<◌, length, replicate};
ghost use Rattle.lent.specs.Put.{put};
ghost use Rattle.runs.specs.Machine.{most};
ghost use Rattle.rescued.specs.Bytes.{mode_at, salvage_width};
ghost use Rattle.resting.specs.Laid.{RunPut, tail_of, ReturnsPut, StandPut};

use apart::put_back;
use live::Live;
use state::State;
use state::bytes::{put_number, put_one};
use turns::Stand;

// Nothing is left from one place up to another.
pub fn clear(memory: &mut [u8], from: usize, to: usize)
    ensures { memory.new ≡ put true memory.old from (replicate (to - from) 0) }
{
    for i in from..to {
        lent::put_byte(memory, i, 0, true);
    }
}

// The run's own state.
fn put_run(live: Live, state: &mut [u8])
    requires depth_le_most { live.depth ≤ most }
    requires state_len { length state.old ≡ salvage_width }
    ensures { RunPut live state.old state.new }
{
    let wide = State::BYTES;
    put_back(live, &mut state[..wide]);
}

// Where the salvage run stands, behind it.
fn put_tail(state: &mut [u8], mode: u8, passed: usize, first: usize, number: u8, waits: usize)
    ensures { state.new ≡ put true state.old mode_at (tail_of mode passed first number waits) }
{
    let at = put_one(state, holding::MODE_AT, mode);
    let second = put_number(state, at, passed as u64);
    let third = put_number(state, second, first as u64);
    let fourth = put_one(state, third, number);
    put_number(state, fourth, waits as u64);
}

// What returns.
fn put_returns(state: &mut [u8], before: Live)
    requires { before.depth ≤ most }
    ensures { ReturnsPut before state.old state.new }
{
    let mut bytes = [0u8; State::BYTES];
    put_back(before, &mut bytes);
    let head = State::ROOTED_AT;
    let from = State::HEAD;
    let to = State::HEAD + state::Frame::BYTES;
    let next = lent::put_bytes(state, holding::RETURNS_AT, &bytes[..head], true);
    lent::put_bytes(state, next, &bytes[from..to], true);
}

// All of it: the live part as it is handed back, with its closing number, and the bytes of the stream that were taken so far.
pub fn put_stand(state: &mut [u8], stand: Stand, live: Live, passed: usize)
    requires state_len { length state.old ≡ salvage_width }
    requires depth_le_most { live.depth ≤ most }
    requires depth_le_most_2 { stand.mode ≡ 1 → stand.before.depth ≤ most }
    requires number_bound { (stand.mode ≡ 0 → ⊥) → (stand.mode ≡ 1 → ⊥) → stand.number < 256 }
    ensures { StandPut stand live passed state.old state.new }
{
    put_run(live, state);
    if stand.mode == Stand::BETWEEN {
        put_tail(state, 0, passed, 0, 0, 0);
        clear(state, holding::RETURNS_AT, holding::BYTES);
        return;
    }
    if stand.mode == Stand::INSIDE {
        put_tail(state, 1, passed, stand.first, 0, stand.waits);
        let before = stand.before;
        put_returns(state, before);
        return;
    }
    put_tail(state, 2, passed, stand.first, stand.number as u8, 0);
    clear(state, holding::RETURNS_AT, holding::BYTES);
}
