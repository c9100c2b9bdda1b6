// Bytes into lent memory from an offset on, or dry: only counted.

#![tactic(auto)]

ghost use Rattle.std.specs.Prelude.{◌≡◌, [], ◌∷◌, ◌+◌, ◌<◌, ◌^◌, length};
ghost use Rattle.lent.specs.Put.{put, PutAs};

// Stores one byte, where there is room and this is no dry run.
pub fn put_byte(memory: &mut [u8], at: usize, b: u8, write: bool)
    ensures { memory.new ≡ put write memory.old at (b ∷ []) }
{
    if write {
        if at < memory.len() {
            memory[at] = b;
        }
    }
}

// Stores some bytes, and answers where the next one goes. Only the offset's own sum is asked to fit.
pub fn put_bytes(memory: &mut [u8], at: usize, new: &[u8], write: bool) -> usize
    requires { at + length new.now < 2 ^ 64 }
    ensures { PutAs write memory.old at new.now memory.new result }
{
    let mut n = at;
    for b in new {
        put_byte(memory, n, *b, write);
        n += 1;
    }
    n
}
