//! Real files, of which one kind of call fails.
use std::alloc::Allocator;
use std::fs::{Metadata, OpenFile, OpenOptions, Permissions};
use std::io;
use std::io::{ErrorKind, Read, Seek, SeekFrom, Write};
use std::path::PathBuf;
use std::rt::Files;

/// The calls that can fail.
#[derive(Clone, Copy, PartialEq, Eq)]
pub enum Call {
    CreateNew,
    Seek,
    Read,
    Write,
    Sync,
    Rename,
}

/// The files of the system, where a call fails with a fault of this kind.
#[derive(Drop)]
pub struct FailingFiles<'a, R: Files> {
    pub rt: &'a R,
    pub call: Call,
    pub kind: ErrorKind,
}

impl<'a, R: Files> FailingFiles<'a, R> {
    fn pass(&self, call: Call) -> io::Result<()> {
        pass(self.call == call, self.kind)
    }
}

/// One of these files that is open.
#[derive(Drop)]
pub struct FailingFile<F> {
    file: F,
    call: Call,
    kind: ErrorKind,
}

impl<F> FailingFile<F> {
    fn pass(&self, call: Call) -> io::Result<()> {
        pass(self.call == call, self.kind)
    }
}

fn pass(fails: bool, kind: ErrorKind) -> io::Result<()> {
    if fails {
        Err(io::Error::from(kind))
    } else {
        Ok(())
    }
}

impl<F: Read> Read for FailingFile<F> {
    fn read(&mut self, buf: &mut [u8]) -> io::Result<usize> {
        self.pass(Call::Read)?;
        self.file.read(buf)
    }
}

impl<F: Write> Write for FailingFile<F> {
    fn write(&mut self, buf: &[u8]) -> io::Result<usize> {
        self.pass(Call::Write)?;
        self.file.write(buf)
    }

    fn flush(&mut self) -> io::Result<()> {
        self.file.flush()
    }
}

impl<F: Seek> Seek for FailingFile<F> {
    fn seek(&mut self, to: SeekFrom) -> io::Result<u64> {
        self.pass(Call::Seek)?;
        self.file.seek(to)
    }
}

impl<F: OpenFile> OpenFile for FailingFile<F> {
    fn metadata(&self) -> io::Result<Metadata> {
        self.file.metadata()
    }

    fn set_len(&self, size: u64) -> io::Result<()> {
        self.file.set_len(size)
    }

    fn sync_all(&self) -> io::Result<()> {
        self.pass(Call::Sync)?;
        self.file.sync_all()
    }

    fn sync_data(&self) -> io::Result<()> {
        self.file.sync_data()
    }

    fn set_permissions(&self, permissions: Permissions) -> io::Result<()> {
        self.file.set_permissions(permissions)
    }
}

impl<'a, R: Files> Files for FailingFiles<'a, R> {
    type File = FailingFile<R::File>;

    type Dir = R::Dir;

    fn open_file(&self, how: &OpenOptions, path: &str) -> io::Result<FailingFile<R::File>> {
        if how.asks_create_new() {
            self.pass(Call::CreateNew)?;
        }
        let file = self.rt.open_file(how, path)?;
        Ok(FailingFile {
            file,
            call: self.call,
            kind: self.kind,
        })
    }

    fn open_dir(&self, path: &str) -> io::Result<R::Dir> {
        self.rt.open_dir(path)
    }

    fn metadata(&self, path: &str) -> io::Result<Metadata> {
        self.rt.metadata(path)
    }

    fn symlink_metadata(&self, path: &str) -> io::Result<Metadata> {
        self.rt.symlink_metadata(path)
    }

    fn copy(&self, from: &str, to: &str) -> io::Result<u64> {
        self.rt.copy(from, to)
    }

    fn rename(&self, from: &str, to: &str) -> io::Result<()> {
        self.pass(Call::Rename)?;
        self.rt.rename(from, to)
    }

    fn remove_file(&self, path: &str) -> io::Result<()> {
        self.rt.remove_file(path)
    }

    fn create_dir(&self, path: &str) -> io::Result<()> {
        self.rt.create_dir(path)
    }

    fn remove_dir(&self, path: &str) -> io::Result<()> {
        self.rt.remove_dir(path)
    }

    fn remove_dir_all<B: Allocator>(&self, alloc: B, path: &str) -> io::Result<()> {
        self.rt.remove_dir_all(alloc, path)
    }

    fn canonicalize<B: Allocator>(&self, alloc: B, path: &str) -> io::Result<PathBuf<B>> {
        self.rt.canonicalize(alloc, path)
    }
}
