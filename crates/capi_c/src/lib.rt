// What hosts in C link, include/wickpollen.h: the functions of capi, exported under their names.

#![tactic(auto)]

ghost use Rattle.writing.specs.Written.{WrittenAs};
ghost use Rattle.printing.specs.Printed.{PrintedAs};
ghost use Rattle.declaring.specs.Declares.{DeclaredAs};
ghost use Rattle.capi.specs.Counted.{CountedAs};
ghost use Rattle.salvages.specs.Started.{SalvageStarted};
ghost use Rattle.capi.specs.Salvaging.{SalvageRunAs};
ghost use Rattle.capi.specs.Packed.{PackedAs};
ghost use Rattle.capi.specs.Started.{StartedAs};
ghost use Rattle.capi.specs.RunAnswer.{RunAs};

// Tests a sheet and lists its faults, as faults::check does.
#[unsafe(no_mangle)]
pub extern "C" fn wickpollen_check(sheet: &[u8], list: &mut [u8]) -> u64
    ensures { PackedAs sheet.now list.old list.new result }
{
    capi::wickpollen_check(sheet, list)
}

// Writes a fresh state at the start of the area and answers how many bytes it has; 0, and nothing is written, where the area is too short.
#[unsafe(no_mangle)]
pub extern "C" fn wickpollen_fresh(area: &mut [u8]) -> u64
    ensures { StartedAs area.old area.new result }
{
    capi::wickpollen_fresh(area)
}

// Takes a part of a stream, as converter::convert_bytes does. Any number but 0 says that the stream has ended.
#[unsafe(no_mangle)]
pub extern "C" fn wickpollen_run(
    sheet: &[u8],
    area: &mut [u8],
    part: &[u8],
    ended: u64,
    out: &mut [u8],
    counts: &mut [u64; 3],
) -> u64
    ensures { RunAs sheet.now area.old area.new part.now ended out.old out.new counts.new result }
{
    capi::wickpollen_run(sheet, area, part, ended, out, counts)
}

// Writes rules typed as text as a sheet, as writer::write does.
#[unsafe(no_mangle)]
pub extern "C" fn wickpollen_write(text: &[u8], sheet: &mut [u8]) -> u64
    ensures { CountedAs (WrittenAs text.now sheet.old) sheet.new result }
{
    capi::wickpollen_write(text, sheet)
}

// Prints a sheet as text, as prints::print does.
#[unsafe(no_mangle)]
pub extern "C" fn wickpollen_print(sheet: &[u8], text: &mut [u8]) -> u64
    ensures { CountedAs (PrintedAs sheet.now text.old) text.new result }
{
    capi::wickpollen_print(sheet, text)
}

// Writes the content models of a DTD as a sheet, as dtds::declare does.
#[unsafe(no_mangle)]
pub extern "C" fn wickpollen_models(dtd: &[u8], sheet: &mut [u8]) -> u64
    ensures { CountedAs (DeclaredAs dtd.now sheet.old) sheet.new result }
{
    capi::wickpollen_models(dtd, sheet)
}

// Writes a fresh state of a salvage run at the start of the area and answers how many bytes it has; 0, and nothing is written, where the area is too short.
#[unsafe(no_mangle)]
pub extern "C" fn wickpollen_salvage_fresh(area: &mut [u8]) -> u64
    ensures { SalvageStarted area.old area.new result }
{
    capi::wickpollen_salvage_fresh(area)
}

// Takes a part of a stream and drops the records that are damaged, as salvages::salvage_bytes does. Any number but 0 says that the stream has ended.
#[unsafe(no_mangle)]
pub extern "C" fn wickpollen_salvage(
    sheet: &[u8],
    state: &mut [u8],
    part: &[u8],
    ended: u64,
    out: &mut [u8],
    waiting: &mut [u8],
    report: &mut [u8],
    counts: &mut [u64; 5],
) -> u64
    ensures { SalvageRunAs sheet.now part.now ended (record { state = state.entry.now; output = out.old; area = waiting.old; report = report.old }) (record { state = state.exit.now; output = out.new; area = waiting.new; report = report.new }) counts.new result }
{
    capi::wickpollen_salvage(sheet, state, part, ended, out, waiting, report, counts)
}
