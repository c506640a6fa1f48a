//! Shelves in memory and on a disk: what they keep, and how they fail.
use crate::answers::are_bytes;
use crate::expect;
use crate::failing_files::{Call, FailingFiles};
use adv_io::{DiskShelf, MemoryShelf, Shelf, ShelfFault};
use std::alloc::Global;
use std::fs;
use std::io::ErrorKind;
use std::os::unix::fs::symlink;
use std::process::Abort;
use std::rt::Files;
use std::test::Fail;

// What is done with a file, and what that answers: bytes are stored, or at most so many are loaded,
// or its part from a place on is loaded into dots, which then are these bytes.
enum Step {
    Store(&'static [u8], Result<(), ShelfFault>),
    Load(usize, Result<&'static [u8], ShelfFault>),
    Part(usize, &'static [u8], Result<usize, ShelfFault>),
}

// Does this with the file of this name.
fn expect_step<S: Shelf>(rt: &impl Abort, alloc: Global, shelf: &mut S, name: &str, step: &Step) {
    match step {
        Step::Store(bytes, want) => expect!(rt; shelf.store(alloc, name, bytes) == *want, name),
        Step::Load(limit, want) => {
            expect!(rt; are_bytes(shelf.load(alloc, name, *limit), *want), name)
        }
        Step::Part(at, bytes, want) => {
            let mut dots = [b'.'; 8];
            let out = &mut dots[..bytes.len().max(1).min(8)];
            expect!(rt; shelf.load_part(name, *at, out) == *want, name);
            expect!(rt; *out == **bytes, name);
        }
    }
}

// Takes these steps, each with the file of a name.
fn expect_steps<S: Shelf>(rt: &impl Abort, alloc: Global, shelf: &mut S, steps: &[(&str, Step)]) {
    for (name, step) in steps {
        expect_step(rt, alloc, shelf, name, step);
    }
}

const IN_MEMORY: &[(&str, Step)] = &[
    ("t.dat", Step::Store(b"first", Ok(()))),
    ("t.dat", Step::Store(b"new", Ok(()))),
    ("t.dat", Step::Load(3, Ok(b"new"))),
    ("u.dat", Step::Load(3, Err(ShelfFault::Absent))),
    // A part that fills what it is given, the last one, and none behind it.
    ("t.dat", Step::Part(0, b"ne", Ok(2))),
    ("t.dat", Step::Part(2, b"w...", Ok(1))),
    ("t.dat", Step::Part(0, b"new", Ok(3))),
    ("t.dat", Step::Part(3, b"..", Ok(0))),
    ("t.dat", Step::Part(9, b"..", Ok(0))),
    ("u.dat", Step::Part(0, b"..", Err(ShelfFault::Absent))),
];

// The second and the fourth call fail.
const AT_TIMES: &[(&str, Step)] = &[
    ("t.dat", Step::Store(b"new", Ok(()))),
    ("t.dat", Step::Part(0, b"...", Err(ShelfFault::Failed))),
    ("t.dat", Step::Part(0, b"new", Ok(3))),
    ("u.dat", Step::Part(0, b"...", Err(ShelfFault::Failed))),
    ("u.dat", Step::Part(0, b"...", Err(ShelfFault::Absent))),
    ("t.dat", Step::Load(3, Ok(b"new"))),
];

#[test]
fn a_shelf_in_memory_keeps_its_files(rt: HostRuntime) {
    let alloc = rt.alloc();
    let mut shelf = MemoryShelf::new(Vec::new(alloc), Vec::new(alloc));
    expect_steps(&rt, alloc, &mut shelf, IN_MEMORY);
    expect!(rt; shelf.file("t.dat") == Some(b"new".as_slice()));
}

#[test]
fn a_shelf_in_memory_fails_at_the_calls_that_are_given(rt: HostRuntime) -> Result<(), Fail> {
    let alloc = rt.alloc();
    let mut shelf = MemoryShelf::new(Vec::new(alloc), vec![in alloc; 2, 4]?);
    expect_steps(&rt, alloc, &mut shelf, AT_TIMES);
    Ok(())
}

const NAME: &str = "shelf_test.tmp";

const ON_DISK: &[(&str, Step)] = &[
    (NAME, Step::Load(9, Err(ShelfFault::Failed))),
    (NAME, Step::Store(b"first and longer", Ok(()))),
    (NAME, Step::Store(b"second", Ok(()))),
    (NAME, Step::Load(6, Ok(b"second"))),
    (NAME, Step::Load(5, Err(ShelfFault::TooLong(6)))),
    // Parts one after another, from anywhere, the last one, and none behind it.
    (NAME, Step::Part(0, b"sec", Ok(3))),
    (NAME, Step::Part(3, b"ond", Ok(3))),
    (NAME, Step::Part(6, b"..", Ok(0))),
    (NAME, Step::Part(4, b"nd..", Ok(2))),
    (NAME, Step::Part(1, b"ec", Ok(2))),
    (NAME, Step::Part(9, b"..", Ok(0))),
    // A part goes on in the file that is there now.
    (NAME, Step::Part(0, b"se", Ok(2))),
    (NAME, Step::Store(b"other", Ok(()))),
    (NAME, Step::Part(2, b"her.", Ok(3))),
    (
        "no_such_folder/a.tmp",
        Step::Store(b"", Err(ShelfFault::Failed)),
    ),
    // A file that can be opened and not read, a folder, and a disk that is full.
    ("/proc/self/mem", Step::Load(9, Err(ShelfFault::Failed))),
    (".", Step::Load(9, Err(ShelfFault::Failed))),
    (
        "/proc/self/mem",
        Step::Part(0, b"..", Err(ShelfFault::Failed)),
    ),
    (".", Step::Part(0, b"..", Err(ShelfFault::Failed))),
    ("no_such.tmp", Step::Part(0, b"..", Err(ShelfFault::Failed))),
    ("/dev/full", Step::Store(b"lost", Err(ShelfFault::Failed))),
];

#[test]
fn a_shelf_of_real_files_stores_and_loads(rt: HostRuntime) {
    let _ = fs::remove_file(&rt, NAME);
    expect_steps(&rt, rt.alloc(), &mut DiskShelf::new(&rt), ON_DISK);
    expect!(rt; fs::remove_file(&rt, NAME).is_ok());
}

const LONG: &str = "shelf_long.tmp";

// A part is filled also where the system has to be asked for it more than once.
#[test]
fn a_part_may_be_long(rt: HostRuntime) -> Result<(), Fail> {
    let bytes = vec![in rt.alloc(); b'x'; 40_000]?;
    let mut out = vec![in rt.alloc(); b'.'; 30_000]?;
    expect!(rt; fs::write(&rt, LONG, bytes.as_slice()).is_ok());
    let mut shelf = DiskShelf::new(&rt);
    expect!(rt; shelf.load_part(LONG, 0, &mut out) == Ok(30_000));
    expect!(rt; out.as_slice() == &bytes[..30_000]);
    expect!(rt; shelf.load_part(LONG, 30_000, &mut out) == Ok(10_000));
    expect!(rt; fs::remove_file(&rt, LONG).is_ok());
    Ok(())
}

const PARTED: &str = "shelf_parted.tmp";

// A call that fails, and what a part from a place on answers then. Want of memory is a fault too.
const PART_FAILURES: &[(Call, ErrorKind, usize, Result<usize, ShelfFault>)] = &[
    (Call::Read, ErrorKind::Other, 0, Err(ShelfFault::Failed)),
    (
        Call::Read,
        ErrorKind::OutOfMemory,
        0,
        Err(ShelfFault::Failed),
    ),
    (Call::Seek, ErrorKind::Other, 1, Err(ShelfFault::Failed)),
    // What can't be gone through can be read from its beginning.
    (Call::Seek, ErrorKind::Other, 0, Ok(2)),
];

#[test]
fn a_part_that_cant_be_read_is_a_fault(rt: HostRuntime) {
    expect!(rt; fs::write(&rt, PARTED, b"part").is_ok());
    for (call, kind, at, want) in PART_FAILURES {
        let failing = FailingFiles {
            rt: &rt,
            call: *call,
            kind: *kind,
        };
        let mut out = [b'.'; 2];
        expect!(rt; DiskShelf::new(&failing).load_part(PARTED, *at, &mut out) == *want);
    }
    expect!(rt; fs::remove_file(&rt, PARTED).is_ok());
}

const OLD: &str = "shelf_old.tmp";

const LINK: &str = "shelf_link.tmp";

// What a link leads to is replaced, and the link stays.
const BEHIND_A_LINK: &[(&str, Step)] = &[
    (OLD, Step::Store(b"old", Ok(()))),
    (LINK, Step::Store(b"new", Ok(()))),
    (OLD, Step::Load(3, Ok(b"new"))),
];

#[test]
fn a_link_is_followed_when_a_file_is_stored(rt: HostRuntime) {
    let _ = fs::remove_file(&rt, LINK);
    expect!(rt; symlink(&rt, OLD, LINK).is_ok());
    expect_steps(&rt, rt.alloc(), &mut DiskShelf::new(&rt), BEHIND_A_LINK);
    expect!(rt; fs::read_link(&rt, LINK).is_ok_and(|path| path.as_str() == OLD));
    expect!(rt; fs::remove_file(&rt, LINK).is_ok());
    expect!(rt; fs::remove_file(&rt, OLD).is_ok());
}

// A call that fails, and what storing a file answers then in the place of an old one and anew.
type Failure = (
    Call,
    ErrorKind,
    Result<(), ShelfFault>,
    Result<(), ShelfFault>,
);

const FAILURES: &[Failure] = &[
    (
        Call::Write,
        ErrorKind::StorageFull,
        Err(ShelfFault::Failed),
        Err(ShelfFault::Failed),
    ),
    // Want of memory is a fault once a file was opened.
    (
        Call::Write,
        ErrorKind::OutOfMemory,
        Err(ShelfFault::Failed),
        Err(ShelfFault::Failed),
    ),
    (
        Call::Sync,
        ErrorKind::QuotaExceeded,
        Err(ShelfFault::Failed),
        Err(ShelfFault::Failed),
    ),
    // A pipe or a device keeps nothing.
    (Call::Sync, ErrorKind::InvalidInput, Ok(()), Ok(())),
    (Call::Sync, ErrorKind::Unsupported, Ok(()), Ok(())),
    (Call::Sync, ErrorKind::ReadOnlyFilesystem, Ok(()), Ok(())),
    // Where no file can be made beside the old one, or put in its place, it is written into.
    (
        Call::CreateNew,
        ErrorKind::PermissionDenied,
        Ok(()),
        Err(ShelfFault::Failed),
    ),
    (
        Call::CreateNew,
        ErrorKind::OutOfMemory,
        Ok(()),
        Err(ShelfFault::Memory),
    ),
    (Call::Rename, ErrorKind::ResourceBusy, Ok(()), Ok(())),
];

// Stores a file where a call fails, and expects it afterwards: new where it was stored, else as it
// was. No file stays beside it.
fn expect_failure<R: Files + Abort + AllocGlobal>(
    rt: &R,
    was: Option<&[u8]>,
    failure: &Failure,
    want: Result<(), ShelfFault>,
) {
    let failing = FailingFiles {
        rt,
        call: failure.0,
        kind: failure.1,
    };
    let stored = DiskShelf::new(&failing).store(rt.alloc(), OLD, b"new");
    let now = if want.is_ok() {
        Some(b"new".as_slice())
    } else {
        was
    };
    expect!(rt; stored == want);
    expect!(rt; fs::read(rt, OLD).ok().as_deref() == now);
    expect!(rt; !fs::exists(rt, "shelf_old.tmp.new0").unwrap_or(true));
}

#[test]
fn a_file_that_cant_be_stored_stays_as_it_was(rt: HostRuntime) {
    for failure in FAILURES {
        expect!(rt; fs::write(&rt, OLD, b"old").is_ok());
        expect_failure(&rt, Some(b"old"), failure, failure.2);
        expect!(rt; fs::remove_file(&rt, OLD).is_ok());
        expect_failure(&rt, None, failure, failure.3);
        let _ = fs::remove_file(&rt, OLD);
    }
}
