// A call of the salvage run over bytes (§12): a sheet's bytes, the bytes of a state, the next part of a stream, and lent memory for the output, for what waits
// and for the report.

#![tactic(auto)]

ghost use Rattle.std.specs.Prelude.{◌≡◌, Some, length};
ghost use Rattle.layout.specs.LaidOut.{LaidOut};
ghost use Rattle.state.specs.Bytes.{long_at};
ghost use Rattle.shapes.specs.Told.{ShapeTold};
ghost use Rattle.turns.specs.Stands.{Grounds};
ghost use Rattle.holding.specs.Told.{StandAs};
ghost use Rattle.rescuer.specs.Ran.{ResumptionIs};
ghost use Rattle.rescued.specs.Bytes.{passed_at};
ghost use Rattle.rescued.specs.Salvaged.{SalvageRan, SalvagedAs};
ghost use Rattle.salvager.specs.Entered.{MaySalvage};
ghost use Rattle.salvages.specs.Lending.{lending, untouched_with};
ghost use Rattle.salvages.specs.Started.{SalvageStarted};

use converter::left_with;
use holding::stand_in;
use layout::{Layout, layout_of};
use rescued::SalvageCounts;
use rescuer::run_steps;
use resting::{clear, put_stand};
use salvager::given_back;
use shapes::{put_mark, shape_of};
use state::State;
use state::bytes::{heading_at, number_at, to_bytes};
use turns::{Given, Stand};

// Writes a fresh state at the start of the area and answers how many bytes it has; 0, and nothing is written, where the area is too short.
pub fn salvage_fresh(area: &mut [u8]) -> usize
    ensures { SalvageStarted area.old area.new result }
{
    if area.len() < holding::BYTES {
        return 0;
    }
    let fresh = State::fresh();
    to_bytes(fresh, area);
    clear(area, State::BYTES, holding::BYTES);
    holding::BYTES
}

// Runs over the part from where the state stands, with the two byte strings at which reading resumes. The frames of the state's bytes are the stack of the run,
// where they lie; then nothing is left of what waited and does not any more, and the state is put back.
fn run_from(
    s: &[u8],
    l: Layout,
    g: Given,
    stand: Stand,
    start: &[u8],
    end: &[u8],
    state: &mut [u8],
    part: &[u8],
    out: &mut [u8],
    waiting: &mut [u8],
    report: &mut [u8],
) -> SalvageCounts
    requires laid_out { LaidOut s.now l }
    requires may_salvage { MaySalvage s.now state.old waiting.old part.now }
    requires grounds { Grounds s.now g.tag }
    requires resumption_is { ResumptionIs s.now g.tag start.now end.now }
    requires base_value { g.base ≡ long_at state.old passed_at }
    requires stand_as { StandAs state.old stand }
    ensures { SalvageRan s.now part.now g.ended (lending state.old out.old waiting.old report.old) (lending state.new out.new waiting.new report.new) result }
{
    let frames = State::HEAD;
    let ending = run_steps(
        s,
        l,
        g,
        stand,
        part,
        start,
        end,
        &mut state[frames..],
        out,
        waiting,
        report,
    );
    let place = ending.place;
    let here = ending.stand;
    clear(waiting, here.waits, ending.deep);
    let live = here.live;
    let left = left_with(ending.number, live);
    put_stand(state, here, left, g.base + place.at);
    let h = heading_at(state);
    SalvageCounts {
        number: ending.number,
        taken: place.at,
        written: place.put,
        reported: place.told,
        waited: ending.deep,
        visits: h.count,
    }
}

// The same of a sheet with these tags for its root and its records: the two byte strings are written, and where the run stands is read.
fn run_bytes(
    s: &[u8],
    l: Layout,
    root: usize,
    tag: usize,
    state: &mut [u8],
    part: &[u8],
    ended: bool,
    out: &mut [u8],
    waiting: &mut [u8],
    report: &mut [u8],
) -> SalvageCounts
    requires laid_out { LaidOut s.now l }
    requires may_salvage { MaySalvage s.now state.old waiting.old part.now }
    requires shape_told { ShapeTold s.now (Some (record { root_tag = root; record_tag = tag })) }
    ensures { SalvageRan s.now part.now ended (lending state.old out.old waiting.old report.old) (lending state.new out.new waiting.new report.new) result }
{
    let mut start = [0u8; shapes::MARK];
    let mut end = [0u8; shapes::MARK];
    let long = put_mark(s, l, tag, false, &mut start);
    let wide = put_mark(s, l, root, true, &mut end);
    let stand = stand_in(state);
    let passed = number_at(state, holding::PASSED_AT) as usize;
    let g = Given {
        tag: tag,
        base: passed,
        ended: ended,
    };
    run_from(
        s,
        l,
        g,
        stand,
        &start[..long],
        &end[..wide],
        state,
        part,
        out,
        waiting,
        report,
    )
}

// Nothing is taken, written or reported; the visits are those that the state's bytes count.
fn untouched(number: usize, state: &[u8]) -> SalvageCounts
    ensures { result ≡ untouched_with number state.now }
{
    let h = heading_at(state);
    SalvageCounts {
        number: number,
        taken: 0,
        written: 0,
        reported: 0,
        waited: 0,
        visits: h.count,
    }
}

// One call, whatever the bytes are. The state and the lent memory are changed where the call runs, and else untouched.
pub fn salvage_bytes(
    sheet: &[u8],
    state: &mut [u8],
    part: &[u8],
    ended: bool,
    out: &mut [u8],
    waiting: &mut [u8],
    report: &mut [u8],
) -> SalvageCounts
    ensures salvaged_as { SalvagedAs sheet.now part.now ended (lending state.old out.old waiting.old report.old) (lending state.new out.new waiting.new report.new) result }
    ensures state_len_unchanged { length state.new ≡ length state.old }
    ensures out_len_unchanged { length out.new ≡ length out.old }
    ensures waiting_len_unchanged { length waiting.new ≡ length waiting.old }
    ensures report_len_unchanged { length report.new ≡ length report.old }
{
    let number = given_back(sheet, state, waiting, part);
    if number != 0 {
        return untouched(number, state);
    }
    let l = layout_of(sheet);
    let Some(shape) = shape_of(sheet, l) else {
        // No sheet that came so far is of another shape.
        return untouched(number, state);
    };
    run_bytes(
        sheet,
        l,
        shape.root_tag,
        shape.record_tag,
        state,
        part,
        ended,
        out,
        waiting,
        report,
    )
}
