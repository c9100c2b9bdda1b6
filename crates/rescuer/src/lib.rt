// A call of the salvage run over its parts: step after step, until it stops.

#![tactic(auto)]

ghost use Rattle.std.specs.Prelude.{◌≡◌, length};
ghost use Rattle.layout.specs.LaidOut.{LaidOut};
ghost use Rattle.rescue.specs.Call.{larger};
ghost use Rattle.turns.specs.Stands.{Ready};
ghost use Rattle.rescuer.specs.Ran.{at_start, ResumptionIs, StepsRanAs};

use layout::Layout;
use turns::{Given, Place, Stand};

// What a run comes to: the number that it stops with, the places that it came to, the most bytes that waited at once, and where it stands.
#[derive(Clone, Copy)]
pub struct Ending {
    pub number: usize,
    pub place: Place,
    pub deep: usize,
    pub stand: Stand,
}

// The larger of two.
fn most_of(one: usize, other: usize) -> usize
    ensures { result ≡ larger one other }
{
    if one < other { other } else { one }
}

// Takes the part step after step, from a stand that may begin, with the two byte strings at which reading resumes.
pub fn run_steps(
    s: &[u8],
    l: Layout,
    g: Given,
    stand: Stand,
    part: &[u8],
    start: &[u8],
    end: &[u8],
    stack: &mut [u8],
    out: &mut [u8],
    area: &mut [u8],
    report: &mut [u8],
) -> Ending
    requires laid_out { LaidOut s.now l }
    requires ready { Ready s.now g part.now at_start stand stack.old out.old area.old }
    requires resumption_is { ResumptionIs s.now g.tag start.now end.now }
    ensures { StepsRanAs s.now g part.now stand stack.old stack.new out.old out.new area.old area.new report.old report.new result }
{
    let mut p = Place {
        at: 0,
        put: 0,
        told: 0,
    };
    let mut here = stand;
    let mut deep = 0;
    // A loop: each step goes on by what its turn read, which no range gives.
    loop {
        let turn = here.turn(s, l, g, part, start, end, p, stack, out, area, report);
        let place = turn.place;
        let next = turn.stand;
        let most = most_of(deep, turn.deep);
        if !turn.goes {
            return Ending {
                number: turn.number,
                place: place,
                deep: most,
                stand: next,
            };
        }
        deep = most;
        p = place;
        here = next;
    }
}
