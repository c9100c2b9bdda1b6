// Before the first byte of a salvage call: the tests of the sheet, of its shape and of the state, one after another.

#![tactic(auto)]

ghost use Rattle.salvager.specs.Entered.{SalvageEntered};

use converter::repeated;
use faults::verdict;
use holding::salvage_fits;
use layout::layout_of;
use shapes::shape_of;
use state::State;
use state::bytes::heading_at;

// The number of a sheet that is not of the shape, and that of bytes that do not fit.
const OTHER_SHAPE: usize = 34;

const UNFIT: usize = 29;

// The number with which all is handed back as it was, or 0 where the call runs.
pub fn given_back(sheet: &[u8], state: &[u8], area: &[u8], part: &[u8]) -> usize
    ensures { SalvageEntered sheet.now state.now area.now part.now result }
{
    let number = verdict(sheet);
    if number != 0 {
        return number;
    }
    let l = layout_of(sheet);
    let Some(_) = shape_of(sheet, l) else {
        return OTHER_SHAPE;
    };
    if !salvage_fits(sheet, l, state, area.len(), part.len()) {
        return UNFIT;
    }
    let h = heading_at(state);
    let closed = h.closed;
    if closed != State::OPEN {
        return repeated(closed);
    }
    0
}
