// The end of a rule text that has room in a sheet: its sections bound together, or the length that they need.

#![tactic(auto)]

ghost use Rattle.binding.specs.Bound.{TagRows, SectionsFit};
ghost use Rattle.sealing.specs.Sealed.{SealedIs};

// A number of the writer, and the count that goes with it.
#[derive(Clone, Copy)]
pub struct Outcome {
    pub number: usize,
    pub count: usize,
}

// 43 and the length needed, with the area as lent; or 0 and the length written.
pub fn seal(
    area: &mut [u8],
    bytes: &[u8],
    ends: &[usize],
    count: usize,
    productions: &[u8],
    nodes: &[u8],
    programs: &[u8],
    strings: &[u8],
    start: usize,
) -> Outcome
    requires tag_rows { TagRows bytes.now ends.now count }
    requires sections_fit { SectionsFit productions.now nodes.now programs.now strings.now start }
    ensures { SealedIs bytes.now ends.now count productions.now nodes.now programs.now strings.now start area.old area.new result }
{
    let need = 16 * count
        + (productions.len() + (nodes.len() + (programs.len() + (strings.len() + 24))));
    if area.len() < need {
        return Outcome {
            number: 43,
            count: need,
        };
    }
    let length = binding::bind(
        area,
        bytes,
        ends,
        count,
        productions,
        nodes,
        programs,
        strings,
        start,
    );
    Outcome {
        number: 0,
        count: length,
    }
}
