// The checker, the converter, the salvage run, the writer, the printer and the reader of declarations for hosts in C: include/wickpollen.h.

#![tactic(auto)]

ghost use Rattle.std.specs.Prelude.{◌≡◌, ◌+◌, ◌*◌, ◌%◌, ◌≤◌, ◌<◌};
ghost use Rattle.writing.specs.Written.{WrittenAs};
ghost use Rattle.printing.specs.Printed.{PrintedAs};
ghost use Rattle.declaring.specs.Declares.{DeclaredAs};
ghost use Rattle.capi.specs.Counted.{counts, CountedAs};
ghost use Rattle.salvages.specs.Started.{SalvageStarted};
ghost use Rattle.capi.specs.Salvaging.{SalvageRunAs};
ghost use Rattle.capi.specs.Packed.{PackedAs};
ghost use Rattle.capi.specs.Started.{StartedAs};
ghost use Rattle.capi.specs.RunAnswer.{RunAs};

use converter::convert_bytes;
use faults::{Checked, check};
use salvages::{salvage_bytes, salvage_fresh};
use state::State;
use state::bytes::to_bytes;

// Number and count in one answer: the count times 256, and the number.
fn pack(r: Checked) -> u64
    requires { r.count ≤ 16384 }
    ensures { result ≡ 256 * r.count + r.number }
{
    256 * (r.count as u64) + (r.number as u64)
}

// Tests a sheet and lists its faults, as faults::check does.
pub fn wickpollen_check(sheet: &[u8], list: &mut [u8]) -> u64
    ensures { PackedAs sheet.now list.old list.new result }
{
    let r = check(sheet, list);
    pack(r)
}

// Writes a fresh state at the start of the area and answers how many bytes it has; 0, and nothing is written, where the area is too short.
pub fn wickpollen_fresh(area: &mut [u8]) -> u64
    ensures { StartedAs area.old area.new result }
{
    if area.len() < State::BYTES {
        return 0;
    }
    let fresh = State::fresh();
    let n = to_bytes(fresh, area);
    n as u64
}

// Takes a part of a stream, as converter::convert_bytes does. Any number but 0 says that the stream has ended.
pub fn wickpollen_run(
    sheet: &[u8],
    area: &mut [u8],
    part: &[u8],
    ended: u64,
    out: &mut [u8],
    counts: &mut [u64; 3],
) -> u64
    ensures { RunAs sheet.now area.old area.new part.now ended out.old out.new counts.new result }
{
    let r = convert_bytes(sheet, area, part, ended != 0, out);
    *counts = [r.taken as u64, r.written as u64, r.visits];
    r.number as u64
}

// Counts in an answer stay below this.
const COUNTS: usize = 72057594037927936;

// A number and a count in one answer.
fn counted(number: usize, count: usize) -> u64
    requires { number < 256 }
    ensures { result ≡ 256 * (count % counts) + number }
{
    let few = count % COUNTS;
    256 * (few as u64) + (number as u64)
}

// Writes rules typed as text as a sheet, as writer::write does.
pub fn wickpollen_write(text: &[u8], sheet: &mut [u8]) -> u64
    ensures { CountedAs (WrittenAs text.now sheet.old) sheet.new result }
{
    let o = writer::write(text, sheet);
    counted(o.number, o.count)
}

// Prints a sheet as text, as prints::print does.
pub fn wickpollen_print(sheet: &[u8], text: &mut [u8]) -> u64
    ensures { CountedAs (PrintedAs sheet.now text.old) text.new result }
{
    let p = prints::print(sheet, text);
    counted(p.number as usize, p.count)
}

// Writes the content models of a DTD as a sheet, as dtds::declare does.
pub fn wickpollen_models(dtd: &[u8], sheet: &mut [u8]) -> u64
    ensures { CountedAs (DeclaredAs dtd.now sheet.old) sheet.new result }
{
    let d = dtds::declare(dtd, sheet);
    counted(d.number, d.count)
}

// Writes a fresh state of a salvage run at the start of the area and answers how many bytes it has; 0, and nothing is written, where the area is too short.
pub fn wickpollen_salvage_fresh(area: &mut [u8]) -> u64
    ensures { SalvageStarted area.old area.new result }
{
    let n = salvage_fresh(area);
    n as u64
}

// Takes a part of a stream and drops the records that are damaged, as salvages::salvage_bytes does. Any number but 0 says that the stream has ended.
pub fn wickpollen_salvage(
    sheet: &[u8],
    state: &mut [u8],
    part: &[u8],
    ended: u64,
    out: &mut [u8],
    waiting: &mut [u8],
    report: &mut [u8],
    counts: &mut [u64; 5],
) -> u64
    ensures { SalvageRunAs sheet.now part.now ended (record { state = state.entry.now; output = out.old; area = waiting.old; report = report.old }) (record { state = state.exit.now; output = out.new; area = waiting.new; report = report.new }) counts.new result }
{
    let r = salvage_bytes(sheet, state, part, ended != 0, out, waiting, report);
    *counts = [
        r.taken as u64,
        r.written as u64,
        r.reported as u64,
        r.waited as u64,
        r.visits,
    ];
    r.number as u64
}
