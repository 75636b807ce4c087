// A file system that stops after some steps, as at a crash or where a disk is full: from then on each call fails with
// the same fault. A write that is cut takes half of its bytes, and the next one fails. Each folder begins with some names
// more.
use std::alloc::Allocator;
use std::cell::Cell;
use std::fs::{Metadata, OpenFile, OpenOptions, Permissions};
use std::io::{self, ErrorKind, Read, Seek, SeekFrom, Write};
use std::rt::Files;

#[derive(Drop)]
pub struct Stopping<'a, R> {
    pub rt: &'a R,
    pub left: &'a Cell<u32>,
    pub fault: ErrorKind,
    // Each ended by a NUL.
    pub names: &'static [u8],
}

fn step(left: &Cell<u32>, fault: ErrorKind) -> io::Result<()> {
    let steps = left.get();
    if steps == 0 {
        return Err(io::Error::from(fault));
    }
    left.set(steps - 1);
    Ok(())
}

#[derive(Drop)]
pub struct StoppingFile<'a, F> {
    file: F,
    left: &'a Cell<u32>,
    fault: ErrorKind,
    // Whether a write of it was cut.
    cut: bool,
}

#[derive(Drop)]
pub struct LongerDir<D> {
    names: &'static [u8],
    dir: D,
}

impl<D: Read> Read for LongerDir<D> {
    fn read(&mut self, buf: &mut [u8]) -> io::Result<usize> {
        let count = self.names.len();
        if count == 0 || buf.len() < count {
            return self.dir.read(buf);
        }
        buf[..count].copy_from_slice(self.names);
        self.names = b"";
        Ok(count)
    }
}

impl<'a, F: Read> Read for StoppingFile<'a, F> {
    fn read(&mut self, buf: &mut [u8]) -> io::Result<usize> {
        step(self.left, self.fault)?;
        self.file.read(buf)
    }
}

impl<'a, F: Write> Write for StoppingFile<'a, F> {
    fn write(&mut self, buf: &[u8]) -> io::Result<usize> {
        let Err(error) = step(self.left, self.fault) else {
            return self.file.write(buf);
        };
        if self.cut || buf.len() < 2 {
            return Err(error);
        }
        self.cut = true;
        self.file.write(&buf[..buf.len() / 2])
    }

    fn flush(&mut self) -> io::Result<()> {
        self.file.flush()
    }
}

impl<'a, F: Seek> Seek for StoppingFile<'a, F> {
    fn seek(&mut self, to: SeekFrom) -> io::Result<u64> {
        self.file.seek(to)
    }
}

impl<'a, F: OpenFile> OpenFile for StoppingFile<'a, F> {
    fn metadata(&self) -> io::Result<Metadata> {
        self.file.metadata()
    }

    fn set_len(&self, size: u64) -> io::Result<()> {
        self.file.set_len(size)
    }

    fn sync_all(&self) -> io::Result<()> {
        step(self.left, self.fault)?;
        self.file.sync_all()
    }

    fn sync_data(&self) -> io::Result<()> {
        step(self.left, self.fault)?;
        self.file.sync_data()
    }

    fn set_permissions(&self, perm: Permissions) -> io::Result<()> {
        step(self.left, self.fault)?;
        self.file.set_permissions(perm)
    }
}

impl<'a, R: Files> Files for Stopping<'a, R> {
    type File = StoppingFile<'a, R::File>;

    type Dir = LongerDir<R::Dir>;

    fn open_file(&self, how: &OpenOptions, path: &str) -> io::Result<StoppingFile<'a, R::File>> {
        step(self.left, self.fault)?;
        Ok(StoppingFile {
            file: self.rt.open_file(how, path)?,
            left: self.left,
            fault: self.fault,
            cut: false,
        })
    }

    fn open_dir(&self, path: &str) -> io::Result<LongerDir<R::Dir>> {
        step(self.left, self.fault)?;
        Ok(LongerDir {
            names: self.names,
            dir: self.rt.open_dir(path)?,
        })
    }

    fn metadata(&self, path: &str) -> io::Result<Metadata> {
        self.rt.metadata(path)
    }

    fn symlink_metadata(&self, path: &str) -> io::Result<Metadata> {
        step(self.left, self.fault)?;
        self.rt.symlink_metadata(path)
    }

    fn copy(&self, from: &str, to: &str) -> io::Result<u64> {
        self.rt.copy(from, to)
    }

    fn rename(&self, from: &str, to: &str) -> io::Result<()> {
        step(self.left, self.fault)?;
        self.rt.rename(from, to)
    }

    fn remove_file(&self, path: &str) -> io::Result<()> {
        step(self.left, self.fault)?;
        self.rt.remove_file(path)
    }

    fn create_dir(&self, path: &str) -> io::Result<()> {
        self.rt.create_dir(path)
    }

    fn remove_dir(&self, path: &str) -> io::Result<()> {
        self.rt.remove_dir(path)
    }

    fn remove_dir_all<B: Allocator>(&self, alloc: B, path: &str) -> io::Result<()> {
        self.rt.remove_dir_all(alloc, path)
    }
}
