// Rules from a file: a sheet as it stands there, or a text, which is written as a sheet. What is wrong with a text, and with rules, is told.
ghost use Rattle.std.specs.Prelude.{◌≡◌, length};
ghost use Rattle.io.specs.Counts.{IsPrefixLen};

use files::within;
use words::{say, say_meaning, say_number};

// A file could not be read: a number that the paper's table has not.
pub const FILE: u64 = 102;

// The longest text that is read from a file.
pub(crate) const LONGEST: usize = 262144;

// Rules that were read: how many bytes the sheet has, and how many the text that it was written from, none where the file holds a sheet. Where there are none, the
// number that was told stands in its place.
#[derive(Clone, Copy)]
struct Loaded {
    length: usize,
    text: usize,
}

// Whether some bytes are a text: no sheet past number 2 is without a byte 0, and no text of rules holds one.
pub(crate) fn is_text(bytes: &[u8]) -> bool {
    !bytes.is_empty() && !bytes.contains(&0)
}

// Says why a text of rules has no sheet.
fn tell(path: &[u8], text: &[u8], number: usize, at: usize) {
    say(path);
    say(b": number ");
    say_number(number);
    say(b".\n");
    say_meaning(number);
    say(b"\n");
    if number == 40 {
        mending::say_refused(text, at);
        return;
    }
    mending::say_where(text, at);
}

// A text written as a sheet.
fn write(path: &[u8], text: &[u8], sheet: &mut [u8]) -> Result<Loaded, u64> {
    let w = writer::write(text, sheet);
    if w.number > 0 {
        tell(path, text, w.number, w.count);
        return Err(w.number as u64);
    }
    Ok(Loaded {
        length: within(w.count, sheet),
        text: text.len(),
    })
}

// The sheet that a file's bytes are, or that its text is written as.
fn sheet_of(path: &[u8], bytes: &[u8], sheet: &mut [u8]) -> Result<Loaded, u64> {
    if !is_text(bytes) {
        let n = within(sheet.len(), bytes);
        return Ok(Loaded {
            length: lent::put_bytes(sheet, 0, &bytes[..n], true),
            text: 0,
        });
    }
    if bytes.len() > LONGEST {
        say(path);
        say(b": this is too long for rules: at most 262144 bytes are read.\n");
        return Err(FILE);
    }
    write(path, bytes, sheet)
}

// The rules of a file as a sheet, read into lent memory.
fn load_into(
    rt: HostRuntime,
    path: &[u8],
    bytes: &mut [u8],
    sheet: &mut [u8],
) -> Result<Loaded, u64> {
    let whole = files::read_whole(rt, path, bytes);
    if whole.failed {
        return Err(FILE);
    }
    let n = whole.held;
    sheet_of(path, &bytes[..n], sheet)
}

// Memory for the longest text, and a byte more.
pub(crate) fn memory() -> [u8; 262145]
    ensures { 262145 ≡ length result }
{
    [0; 262145]
}

// The rules of a file as a sheet, and how many bytes it has.
pub(crate) fn load(rt: HostRuntime, path: &[u8], sheet: &mut [u8]) -> Result<usize, u64> {
    let mut bytes = memory();
    let loaded = load_into(rt, path, &mut bytes, sheet)?;
    Ok(loaded.length)
}

// Checks the rules of a file, which is read once into lent memory, and says what was found. Where they pass, it answers how many bytes their sheet has.
pub(crate) fn check(
    rt: HostRuntime,
    path: &[u8],
    bytes: &mut [u8],
    sheet: &mut [u8],
) -> Result<usize, u64> {
    let loaded = load_into(rt, path, bytes, sheet)?;
    let n = within(loaded.length, sheet);
    let m = within(loaded.text, bytes);
    match report::report(path, &sheet[..n], &bytes[..m]) {
        0 => Ok(n),
        number => Err(u64::from(number)),
    }
}

// The rules of a file as a sheet that passes, read once into lent memory; of any others it is told what was found.
fn pass_into(
    rt: HostRuntime,
    path: &[u8],
    bytes: &mut [u8],
    sheet: &mut [u8],
) -> Result<usize, u64> {
    let loaded = load_into(rt, path, bytes, sheet)?;
    let n = within(loaded.length, sheet);
    let number = faults::verdict(&sheet[..n]);
    if number > 0 {
        let m = within(loaded.text, bytes);
        report::report(path, &sheet[..n], &bytes[..m]);
        return Err(number as u64);
    }
    Ok(n)
}

// The rules of a file as a sheet that passes, and how many bytes it has.
pub(crate) fn load_passing(rt: HostRuntime, path: &[u8], sheet: &mut [u8]) -> Result<usize, u64> {
    let mut bytes = memory();
    pass_into(rt, path, &mut bytes, sheet)
}
