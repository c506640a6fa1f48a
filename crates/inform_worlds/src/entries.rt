//! The entries of one array.
ghost use Rattle.std.specs.Prelude.{◌≡◌, ◌≤◌, ◌+◌, true, false, unsigned_abs, length, take, drop, ◌++◌, map, pos, set};
ghost use Rattle.adv_io.specs.declared.lines.TheConstants.{LINE_LIMIT};
ghost use Rattle.inform_meaning.specs.Worlds.{entry_at, kept, capacity, has_room, filled};

/// An entry by its index, if the array has it.
pub fn entry(entries: &[i32], index: i32) -> Option<i32>
    ensures { result ≡ entry_at entries.now index }
{
    if index < 0 {
        return None;
    }
    entries.get(index as usize).copied()
}

/// What an entry keeps of a word: all of it, or its low 8 bits in an array of bytes.
pub fn kept(words: bool, value: i32) -> i32
    ensures { result ≡ kept words value }
{
    if words {
        return value;
    }
    value.rem_euclid(256)
}

/// Another value of an entry, if the array has it.
pub fn put(entries: &mut Vec<i32>, index: i32, value: i32)
    ensures { entries.new.items ≡ set entries.old.items (unsigned_abs index) value }
{
    let at = index.unsigned_abs() as usize;
    if at < entries.len() {
        entries[at] = value;
    }
}

// For how many bytes a line buffer has room: its first entry says so.
fn capacity(entries: &[i32]) -> usize
    ensures value { result ≡ capacity entries.now }
    ensures few { result ≤ 2147483648 }
{
    match entries.get(0) {
        Some(capacity) => capacity.unsigned_abs() as usize,
        None => 0,
    }
}

/// Whether a line buffer has room for as many bytes as its first entry says.
pub fn has_room(entries: &[i32]) -> bool
    ensures { result ≡ has_room entries.now }
{
    capacity(entries) + 2 <= entries.len()
}

// Each of these bytes in its entry, from the entry of this number on.
fn put_bytes(entries: &mut Vec<i32>, from: usize, bytes: &[u8])
    requires { from + length bytes.now ≤ length entries.old.items }
    ensures { entries.new.items ≡ take from entries.old.items ++ map pos bytes.now
        ++ drop (from + length bytes.now) entries.old.items }
{
    for (i, byte) in bytes.iter().enumerate() {
        entries[from + i] = i32::from(*byte);
    }
}

/// A line in its buffer, if that has room for as many bytes as its first entry says.
pub fn fill(entries: &mut Vec<i32>, line: &[u8])
    requires { length line.now ≤ LINE_LIMIT }
    ensures room { has_room entries.old.items ≡ true
        → entries.new.items ≡ filled entries.old.items line.now }
    ensures no_room { has_room entries.old.items ≡ false
        → entries.new.items ≡ entries.old.items }
{
    if !has_room(entries) {
        return;
    }
    let count = line.len().min(capacity(entries));
    entries[1] = count as i32;
    put_bytes(entries, 2, &line[..count]);
}
