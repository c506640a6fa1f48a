//! How a file of the system is read part by part: it stays open from one part to the next.
ghost use Rattle.std.specs.Prelude.{◌≡◌, ◌+◌, ◌≤◌, IfOk, length, drop};

use arrayvec::ArrayVec;
use std::io::{ErrorKind, Read, Seek, SeekFrom};
use std::rt::Files;
use std::{fs, io};

// How many bytes are asked of the system at a time.
const CHUNK: usize = 16_384;

/// A file that is open, its name of at most 255 bytes, and the place from which it is read on.
#[derive(Drop)]
pub struct OpenPart<F> {
    name: ArrayVec<u8, 255>,
    at: usize,
    file: F,
}

impl<F> OpenPart<F> {
    /// The file of this name, which is read on from this place. There is none where the name is
    /// too long to be kept.
    pub fn of(name: &str, at: usize, file: F) -> Option<OpenPart<F>>
    where
        F: Drop,
    {
        let mut kept = ArrayVec::new();
        kept.try_extend_from_slice(name.as_bytes()).ok()?;
        Some(OpenPart {
            name: kept,
            at,
            file,
        })
    }

    /// Whether it is the file of this name, and is read on from this place.
    pub fn goes_on(&self, name: &str, at: usize) -> bool {
        self.at == at && self.name.as_slice() == name.as_bytes()
    }

    /// The open file.
    pub fn into_file(self) -> F {
        let OpenPart {
            name: _,
            at: _,
            file,
        } = self;
        file
    }
}

/// Opens a file and goes to a place in it. What can't be gone through, as a pipe, can be read from
/// its beginning.
pub fn open_at<R: Files>(rt: &R, name: &str, at: usize) -> io::Result<R::File> {
    let mut file = fs::open(rt, name)?;
    if at > 0 {
        let _ = file.seek(SeekFrom::Start(at as u64))?;
    }
    Ok(file)
}

// Copies bytes to a place.
fn copy_to(out: &mut [u8], at: usize, bytes: &[u8])
    requires { at + length bytes.now ≤ length out.old }
    ensures { drop (at + length bytes.now) out.new ≡ drop (at + length bytes.now) out.old }
{
    out[at..at + bytes.len()].copy_from_slice(bytes);
}

/// Fills `out` from the file, up to the file's end, and answers how many bytes that are.
pub fn fill_part<F: Read>(file: &mut F, out: &mut [u8]) -> io::Result<usize>
    ensures within { IfOk result (λ n. n ≤ length out.old) }
    ensures others_stay { IfOk result (λ n. drop n out.new ≡ drop n out.old) }
{
    let mut chunk = [0; CHUNK];
    let mut count = 0;
    for _ in 0..u64::MAX {
        let room = CHUNK.min(out.len() - count);
        if room == 0 {
            break;
        }
        match file.read(&mut chunk[..room]) {
            Ok(0) => break,
            Ok(size) => {
                copy_to(out, count, &chunk[..size]);
                count += size;
            }
            Err(fault) if fault.kind() == ErrorKind::Interrupted => {}
            Err(fault) => return Err(fault),
        }
    }
    Ok(count)
}
