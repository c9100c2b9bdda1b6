// A rule sheet in its bytes: numbers 1 to 7.

#![tactic(auto)]

mod fields;
mod grounded;
mod productions;
mod tags;

ghost use Rattle.layout.specs.LaidOut.{LaidOut};
ghost use Rattle.sheet.specs.Defect.{DefectIs};

// The numbers 3 to 7, of a sheet that keeps 1 and 2.
fn defect_of_parts(s: &[u8], l: layout::Layout) -> u8
    requires { LaidOut s.now l }
    ensures { DefectIs s.now result }
{
    if !tags::tags_fit(s, l) {
        return 3;
    }
    if !productions::productions_fit(s, l) {
        return 4;
    }
    if !trees::trees_fit(s, l) {
        return 5;
    }
    if !fields::programs_fit(s, l) {
        return 6;
    }
    if !grounded::grounded(s, l) {
        return 7;
    }
    0
}

// The number of the first test that the sheet does not keep; 0 where it keeps all.
pub fn defect(s: &[u8]) -> u8
    ensures { DefectIs s.now result }
{
    if s.len() < 24 {
        return 1;
    }
    if 27928 < s.len() {
        return 1;
    }
    let l = layout::layout_of(s);
    if !layout::keeps_sections(s, l) {
        return 2;
    }
    defect_of_parts(s, l)
}
