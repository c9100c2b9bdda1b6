// Files by name: one read whole, one read on into what is there already, and a new one made beside another to take its place.
#![tactic(auto)]

ghost use Rattle.std.specs.Prelude.{◌≡◌, ◌≤◌, min, length, false, is_some, is_ok, IfSome, IfOk};
ghost use Rattle.io.specs.Counts.{IsPrefixLen};
ghost use Rattle.files.specs.Moved.{MovedAs};

use std::fs;
use std::fs::{File, OpenOptions, Permissions};
use std::io::{Error, ErrorKind, Read, Result, Seek, SeekFrom, Write};
use std::os::unix::fs::{FileExt, OpenOptionsExt, PermissionsExt};
use std::random::RandomSource;

// What reading came to: how many bytes of the memory are in use, whether the file has no more, and whether a read failed.
// A flag, and no Result: what was read before a read failed is used too, as where the bytes behind a refusal are shown.
#[derive(Clone, Copy)]
pub struct Filled {
    pub held: usize,
    pub ended: bool,
    pub failed: bool,
}

// A file that is open, or none; and why the last opening, read, write or sync that failed did.
#[derive(Drop)]
pub struct Opened {
    file: Option<File>,
    error: Option<Error>,
}

// A new file, and how long its name is.
#[derive(Drop)]
pub struct New {
    pub file: Opened,
    pub length: usize,
}

// The mode of a new file: written by its owner, read by all. Until it is set, a new file is its owner's alone.
const MODE: u32 = 0o644;

const OWNERS: u32 = 0o600;

// Standard error, as io numbers it.
pub const STDERR_FILENO: i32 = 2;

// What the system says of a file that is not open, of a name that a file has, of a name that is none, and of a listener who is gone. Numbers: what users are told
// is the text of an error that is made from one.
const NOT_OPEN: i32 = 9;

const TAKEN: i32 = 17;

const NO_NAME: i32 = 22;

const NO_LISTENER: i32 = 32;

// Where in an error's text the system's own number begins, which is left out.
fn is_numbered(text: &[u8]) -> bool {
    text.starts_with(b" (os error ")
}

// How many bytes of a text with zeros behind it come before those, and before the number.
fn reason_end(text: &[u8]) -> usize
    ensures { IsPrefixLen result text.now }
{
    for (i, b) in text.iter().enumerate() {
        if *b == 0 || is_numbered(&text[i..]) {
            return within(i, text);
        }
    }
    within(text.len(), text)
}

// Puts an error's text into memory of zeros, as far as it fits.
fn put_reason(text: &mut [u8], why: Error) {
    let mut rest = text;
    let _ = write!(rest, "{why}");
}

// Writes a line to standard error: what failed, as the caller names it, a colon and why.
pub fn fail(what: &[u8], why: Error) {
    let mut text = [0u8; 128];
    put_reason(&mut text, why);
    let n = reason_end(&text);
    io::write_all(STDERR_FILENO, what);
    io::write_all(STDERR_FILENO, b": ");
    io::write_all(STDERR_FILENO, &text[..n]);
    io::write_all(STDERR_FILENO, b"\n");
}

// A file's name as text. One that is no UTF-8 names no file here.
fn name_text(path: &[u8]) -> Result<&str> {
    std::str::from_utf8(path).map_err(|_| Error::from_raw_os_error(NO_NAME))
}

fn open_file(rt: HostRuntime, path: &[u8]) -> Result<File> {
    File::open(&rt, name_text(path)?)
}

fn overwrite_file(rt: HostRuntime, path: &[u8]) -> Result<File> {
    File::create(&rt, name_text(path)?)
}

// Opens a file to be read.
pub fn open(rt: HostRuntime, path: &[u8]) -> Opened {
    Opened::made(open_file(rt, path))
}

// Makes a file, or empties the one that is there, and opens it for writing.
pub fn overwrite(rt: HostRuntime, path: &[u8]) -> Opened {
    Opened::made(overwrite_file(rt, path))
}

impl Opened {
    // There is no file.
    pub fn nothing() -> Opened
        ensures { is_some result.file ≡ false }
    {
        Opened {
            file: None,
            error: None,
        }
    }

    fn made(opened: Result<File>) -> Opened {
        match opened {
            Ok(file) => Opened {
                file: Some(file),
                error: None,
            },
            Err(why) => Opened {
                file: None,
                error: Some(why),
            },
        }
    }

    pub fn is_open(&self) -> bool
        ensures { result ≡ is_some self.now.file }
    {
        self.file.is_some()
    }

    // Tells on standard error why the last call that failed did. Where none failed, it was whoever listens that could not be told.
    pub fn fail(&self, what: &[u8]) {
        match self.error {
            Some(why) => fail(what, why),
            None => fail(what, Error::from_raw_os_error(NO_LISTENER)),
        }
    }

    // Reads once, and answers how many bytes: 0 at the file's end, and none where that fails.
    fn read(&mut self, memory: &mut [u8]) -> Option<usize>
        ensures { IfSome result (λ n. IsPrefixLen n memory.new) }
    {
        let got = match &mut self.file {
            Some(file) => file.read(memory),
            None => Err(Error::from_raw_os_error(NOT_OPEN)),
        };
        match got {
            Ok(n) => Some(n),
            Err(why) => {
                self.error = Some(why);
                None
            }
        }
    }

    // Reads once, from the byte behind so many on, and answers how many bytes: 0 where that fails, too. What is read next stays as it is.
    pub fn read_from(&self, memory: &mut [u8], at: u64) -> usize
        ensures { IsPrefixLen result memory.new }
    {
        let got = match &self.file {
            Some(file) => file.read_at(memory, at),
            None => Err(Error::from_raw_os_error(NOT_OPEN)),
        };
        within(got.unwrap_or(0), memory)
    }

    // Goes back to the file's start, and answers whether that was done: never where there is no file.
    pub fn go_back(&mut self) -> bool
        ensures { is_some self.old.file ≡ false → result ≡ false }
    {
        match &mut self.file {
            Some(file) => file.seek(SeekFrom::Start(0)).is_ok(),
            None => false,
        }
    }

    // Writes all of some bytes, and answers whether that was done: never where there is no file.
    pub fn write(&mut self, bytes: &[u8]) -> bool
        ensures { is_some self.old.file ≡ false → result ≡ false }
    {
        let put = match &mut self.file {
            Some(file) => file.write_all(bytes),
            None => Err(Error::from_raw_os_error(NOT_OPEN)),
        };
        self.remember(put)
    }

    // Waits until what was written has reached the disk, and answers whether it has.
    fn sync(&mut self) -> bool {
        let put = match &self.file {
            Some(file) => file.sync_all(),
            None => Err(Error::from_raw_os_error(NOT_OPEN)),
        };
        self.remember(put)
    }

    // Whether a call was done; else why not is kept.
    fn remember(&mut self, done: Result<()>) -> bool
        ensures { result ≡ is_ok done }
    {
        match done {
            Ok(()) => true,
            Err(why) => {
                self.error = Some(why);
                false
            }
        }
    }

    fn close(&mut self) {
        self.file = None;
    }
}

// Reads on from the memory's byte `from`, until it is full, the file ends or a read fails. Where the memory has no such byte nothing is read.
pub fn fill(file: &mut Opened, memory: &mut [u8], from: usize) -> Filled
    ensures { IsPrefixLen result.held memory.new }
{
    let mut held = from;
    // A while: each turn goes on by as much as was read, which no range gives.
    while held < memory.len() {
        let got = file.read(&mut memory[held..]);
        let more = got.unwrap_or(0);
        if more == 0 {
            return Filled {
                held: held,
                ended: got.is_some(),
                failed: got.is_none(),
            };
        }
        held += more;
    }
    Filled {
        held: memory.len(),
        ended: false,
        failed: false,
    }
}

// Moves what stands from one byte on, before another, to the memory's start, and answers how much that is.
pub fn move_to_front(memory: &mut [u8], from: usize, end: usize) -> usize
    ensures { MovedAs from end memory.old memory.new result }
{
    if end > memory.len() {
        return 0;
    }
    if end < from {
        return 0;
    }
    memory.copy_within(from..end, 0);
    end - from
}

// A number of bytes at the start of the memory: n, or all of them where there are not so many.
pub fn within(n: usize, memory: &[u8]) -> usize
    ensures prefix_len { IsPrefixLen result memory.now }
    ensures value { result ≡ min n (length memory.now) }
{
    n.min(memory.len())
}

// The whole of a file, as far as the memory has room for it: how many bytes. A file that cannot be read is told on standard error.
pub fn read_whole(rt: HostRuntime, path: &[u8], memory: &mut [u8]) -> Filled
    ensures { IsPrefixLen result.held memory.new }
{
    let mut file = open(rt, path);
    if !file.is_open() {
        file.fail(path);
        return Filled {
            held: 0,
            ended: false,
            failed: true,
        };
    }
    let filled = fill(&mut file, memory, 0);
    if filled.failed {
        file.fail(path);
    }
    filled
}

// A name for a new file beside the one at path: the same with a dot and six letters, which are drawn so that no file has it.
// Answers how long it is, 0 where it does not fit.
fn name_beside(path: &[u8], name: &mut [u8]) -> usize
    ensures { IsPrefixLen result name.new }
{
    let dot = lent::put_bytes(name, 0, path, true);
    let end = lent::put_bytes(name, dot, b".XXXXXX", true);
    if end > name.len() {
        return 0;
    }
    end
}

fn letter(b: u8) -> u8 {
    b'a' + b % 26
}

// Puts letters in place of a name's last six bytes.
fn put_letters(name: &mut [u8], drawn: &[u8]) {
    for (place, b) in name.iter_mut().rev().zip(drawn) {
        *place = letter(*b);
    }
}

// Draws a name's last six letters by lot, and makes a file that has it, unless there is one.
fn try_name(rt: HostRuntime, name: &mut [u8]) -> Result<File> {
    let mut drawn = [0u8; 6];
    rt.fill_bytes(&mut drawn)?;
    put_letters(name, &drawn);
    let mut how = OpenOptions::new();
    how.read(true).write(true).create_new(true).mode(OWNERS);
    how.open(&rt, name_text(name)?)
}

// How many names are tried.
const TRIES: usize = 100;

// Makes a file with a name that no file has.
fn create_temp(rt: HostRuntime, name: &mut [u8]) -> Result<File> {
    if name.len() == 0 {
        return Err(Error::from_raw_os_error(NO_NAME));
    }
    for _ in 0..TRIES {
        match try_name(rt, name) {
            Ok(file) => return Ok(file),
            Err(why) => {
                if why.kind() != ErrorKind::AlreadyExists {
                    return Err(why);
                }
            }
        }
    }
    Err(Error::from_raw_os_error(TAKEN))
}

// As create_temp, for all to read. A file whose mode cannot be set is made all the same.
fn create_readable(rt: HostRuntime, name: &mut [u8]) -> Result<File> {
    let file = create_temp(rt, name)?;
    let _ = file.set_permissions(Permissions::from_mode(MODE));
    Ok(file)
}

// Makes a new, empty file beside the one at path, puts its name at the start of the memory, and opens it for writing.
pub fn new_beside(rt: HostRuntime, path: &[u8], name: &mut [u8]) -> Result<New>
    ensures { IfOk result (λ made. IsPrefixLen made.length name.new) }
{
    let n = name_beside(path, name);
    let file = create_readable(rt, &mut name[..n])?;
    Ok(New {
        file: Opened {
            file: Some(file),
            error: None,
        },
        length: within(n, name),
    })
}

// How many of a path's bytes name a folder: those up to its last slash, none where it has none.
fn folder(path: &[u8]) -> usize
    ensures { IsPrefixLen result path.now }
{
    match path.iter().rposition(|b| *b == b'/') {
        Some(i) => i + 1,
        None => 0,
    }
}

// Opens the folder of what has the name `path`, as a file that can only be synced.
fn open_folder(rt: HostRuntime, path: &[u8]) -> Opened {
    let n = folder(path);
    if n == 0 {
        return open(rt, b".");
    }
    open(rt, &path[..n])
}

// Waits until the folder's own record of its names has reached the disk. Where the folder cannot be read, or the disk has no such wait,
// the new name stands all the same: so nothing is told.
fn sync_folder(rt: HostRuntime, path: &[u8]) {
    let mut folder = open_folder(rt, path);
    if folder.is_open() {
        folder.sync();
    }
}

fn rename(rt: HostRuntime, from: &[u8], to: &[u8]) -> Result<()> {
    fs::rename(&rt, name_text(from)?, name_text(to)?)
}

fn remove(rt: HostRuntime, name: &[u8]) -> Result<()> {
    fs::remove_file(&rt, name_text(name)?)
}

// Ends the new file and gives it the name `path`, so that whoever opens that finds the old file or the new one, whole. Answers whether
// that was done; else the new file is taken away, and it is told why on standard error.
pub fn put_in_place(rt: HostRuntime, file: &mut Opened, name: &[u8], path: &[u8]) -> bool {
    if !file.sync() {
        take_away(rt, file, name);
        file.fail(path);
        return false;
    }
    file.close();
    if let Err(why) = rename(rt, name, path) {
        let _ = remove(rt, name);
        fail(path, why);
        return false;
    }
    sync_folder(rt, path);
    true
}

// Closes the new file and takes it away.
pub fn take_away(rt: HostRuntime, file: &mut Opened, name: &[u8]) {
    file.close();
    if let Err(why) = remove(rt, name) {
        fail(name, why);
    }
}
