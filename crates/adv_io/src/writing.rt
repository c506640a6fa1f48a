//! How a file of the system is written: the old one stays until the new one is whole.
//!
//! A plain file is written beside the one that it replaces and then put in its place in one step.
//! What can't be replaced so is written into.
use std::alloc::Global;
use std::fs::{File, Metadata, OpenFile, OpenOptions};
use std::io::{ErrorKind, Write};
use std::os::unix::fs::MetadataExt;
use std::rt::Files;
use std::{fs, io};

/// A file that is open and empty, and what becomes of it.
#[derive(Drop)]
pub struct Target<F> {
    file: F,
    end: End,
}

// What becomes of a file when it was written, or couldn't be.
#[derive(Drop)]
enum End {
    // It takes the place of a file, or is removed.
    Replaces { beside: String, path: String },
    // It is new, and stays or is removed.
    IsNew,
    // It was there, and stays with what was written.
    Stays,
}

// What stands at a name.
#[derive(Drop)]
enum Found {
    Nothing,
    // A plain file: its path behind all links, and what is known of it.
    Plain { path: String, old: Metadata },
    Other,
}

/// Opens what is to be the file `name`. A failure leaves everything as it was.
pub fn open_target<R: Files>(rt: &R, alloc: Global, name: &str) -> io::Result<Target<R::File>> {
    match find(rt, alloc, name)? {
        Found::Nothing => {
            let file = File::create_new(rt, name)?;
            Ok(Target {
                file,
                end: End::IsNew,
            })
        }
        Found::Plain { path, old } => open_plain(rt, alloc, path, &old),
        Found::Other => open_over(rt, name),
    }
}

/// Makes `bytes` what the file `name` holds, for which the target was opened.
pub fn fill<R: Files>(rt: &R, name: &str, target: Target<R::File>, bytes: &[u8]) -> io::Result<()> {
    let Target { mut file, end } = target;
    let written = write_and_keep(&mut file, bytes);
    match end {
        End::Replaces { beside, path } => match written {
            Ok(()) => put_in_place(rt, &beside, &path, bytes),
            Err(fault) => removed_for(rt, &beside, fault),
        },
        End::IsNew => match written {
            Ok(()) => Ok(()),
            Err(fault) => removed_for(rt, name, fault),
        },
        End::Stays => written,
    }
}

// What stands at a name. What can't be looked at is nothing: then no file can be made there.
fn find<R: Files>(rt: &R, alloc: Global, name: &str) -> io::Result<Found> {
    let Ok(old) = rt.symlink_metadata(name) else {
        return Ok(Found::Nothing);
    };
    if old.is_symlink() {
        return find_behind(rt, alloc, name);
    }
    if old.is_file() {
        let path = String::from_str(alloc, name)?;
        return Ok(Found::Plain { path, old });
    }
    Ok(Found::Other)
}

// What a link leads to. One of the system's own links, as /dev/stdout, names an open file, and so
// that very file is written.
fn find_behind<R: Files>(rt: &R, alloc: Global, link: &str) -> io::Result<Found> {
    if link.starts_with("/dev/") || link.starts_with("/proc/") {
        return Ok(Found::Other);
    }
    let path = match rt.canonicalize(alloc, link) {
        Ok(path) => path.into_string(),
        Err(fault) if fault.kind() == ErrorKind::OutOfMemory => return Err(fault),
        Err(_) => return Ok(Found::Other),
    };
    match rt.metadata(&path) {
        Ok(old) if old.is_file() => Ok(Found::Plain { path, old }),
        _ => Ok(Found::Other),
    }
}

// Opens a file beside a plain one, or where there can be none, or the old one can't be written,
// the old one.
fn open_plain<R: Files>(
    rt: &R,
    alloc: Global,
    path: String,
    old: &Metadata,
) -> io::Result<Target<R::File>> {
    if OpenOptions::new().write(true).open(rt, &path).is_err() {
        return open_over(rt, &path);
    }
    match open_beside(rt, alloc, &path, old)? {
        Some((file, beside)) => Ok(Target {
            file,
            end: End::Replaces { beside, path },
        }),
        None => open_over(rt, &path),
    }
}

// Empties what is there, and makes it where a link leads to nothing.
fn open_over<R: Files>(rt: &R, name: &str) -> io::Result<Target<R::File>> {
    let file = fs::create(rt, name)?;
    Ok(Target {
        file,
        end: End::Stays,
    })
}

// How many names are tried for a file beside another one.
const TRIES: u32 = 10;

// A new file in the folder of an old one, with its owner and permissions, and its name, if there
// can be one.
fn open_beside<R: Files>(
    rt: &R,
    alloc: Global,
    path: &str,
    old: &Metadata,
) -> io::Result<Option<(R::File, String)>> {
    for n in 0..TRIES {
        let beside = format!(in alloc; "{path}.new{n}")?;
        match File::create_new(rt, &beside) {
            Ok(file) => {
                if take_over(rt, &file, &beside, old).is_ok() {
                    return Ok(Some((file, beside)));
                }
                let _ = fs::remove_file(rt, &beside);
                return Ok(None);
            }
            Err(fault) if fault.kind() == ErrorKind::AlreadyExists => {}
            Err(_) => return Ok(None),
        }
    }
    Ok(None)
}

// Gives a new file the owner, the group and the permissions of an old one.
fn take_over<R: Files>(rt: &R, file: &R::File, name: &str, old: &Metadata) -> io::Result<()> {
    let new = file.metadata()?;
    if new.uid() != old.uid() || new.gid() != old.gid() {
        rt.chown(name, Some(old.uid()), Some(old.gid()))?;
    }
    file.set_permissions(old.permissions())
}

// Writes the bytes, and has the system keep them.
fn write_and_keep<F: Write + OpenFile>(file: &mut F, bytes: &[u8]) -> io::Result<()> {
    file.write_all(bytes)?;
    match file.sync_all() {
        Err(fault) if keeps_nothing(fault.kind()) => Ok(()),
        kept => kept,
    }
}

// What is written to isn't kept by anyone: a pipe, a terminal or another device.
fn keeps_nothing(kind: ErrorKind) -> bool {
    matches!(
        kind,
        ErrorKind::InvalidInput | ErrorKind::Unsupported | ErrorKind::ReadOnlyFilesystem
    )
}

// Puts a whole file in the place of an old one. One that can't be replaced is written into.
fn put_in_place<R: Files>(rt: &R, beside: &str, path: &str, bytes: &[u8]) -> io::Result<()> {
    if fs::rename(rt, beside, path).is_ok() {
        return Ok(());
    }
    let _ = fs::remove_file(rt, beside);
    let mut file = fs::create(rt, path)?;
    write_and_keep(&mut file, bytes)
}

// Removes a file that this call made and couldn't write.
fn removed_for<R: Files>(rt: &R, name: &str, fault: io::Error) -> io::Result<()> {
    let _ = fs::remove_file(rt, name);
    Err(fault)
}
