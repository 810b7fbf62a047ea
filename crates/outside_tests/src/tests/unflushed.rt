// A system whose files take all that is written, and fail to flush it.
use std::alloc::Allocator;
use std::fs::{Metadata, OpenFile, OpenOptions};
use std::io;
use std::io::{ErrorKind, Read, Seek, SeekFrom, Write};
use std::rt::Files;

/// A writer that takes all that is written, and fails to flush it.
#[derive(Drop)]
pub struct Unflushed;

/// A system that opens such a file under each name, and does nothing else.
pub struct Unflushing;

fn none<T>() -> io::Result<T> {
    Err(io::Error::from(ErrorKind::Unsupported))
}

impl Write for Unflushed {
    fn write(&mut self, piece: &[u8]) -> io::Result<usize> {
        Ok(piece.len())
    }

    fn flush(&mut self) -> io::Result<()> {
        Err(io::Error::from(ErrorKind::BrokenPipe))
    }
}

impl Read for Unflushed {
    fn read(&mut self, _buf: &mut [u8]) -> io::Result<usize> {
        Ok(0)
    }
}

impl Seek for Unflushed {
    fn seek(&mut self, _to: SeekFrom) -> io::Result<u64> {
        none()
    }
}

impl OpenFile for Unflushed {
    fn metadata(&self) -> io::Result<Metadata> {
        none()
    }

    fn set_len(&self, _size: u64) -> io::Result<()> {
        none()
    }

    fn sync_all(&self) -> io::Result<()> {
        none()
    }

    fn sync_data(&self) -> io::Result<()> {
        none()
    }
}

impl Files for Unflushing {
    type File = Unflushed;

    type Dir = Unflushed;

    fn open_file(&self, _how: &OpenOptions, _path: &str) -> io::Result<Unflushed> {
        Ok(Unflushed)
    }

    fn open_dir(&self, _path: &str) -> io::Result<Unflushed> {
        none()
    }

    fn metadata(&self, _path: &str) -> io::Result<Metadata> {
        none()
    }

    fn symlink_metadata(&self, _path: &str) -> io::Result<Metadata> {
        none()
    }

    fn copy(&self, _from: &str, _to: &str) -> io::Result<u64> {
        none()
    }

    fn rename(&self, _from: &str, _to: &str) -> io::Result<()> {
        none()
    }

    fn remove_file(&self, _path: &str) -> io::Result<()> {
        none()
    }

    fn create_dir(&self, _path: &str) -> io::Result<()> {
        none()
    }

    fn remove_dir(&self, _path: &str) -> io::Result<()> {
        none()
    }

    fn remove_dir_all<B: Allocator>(&self, _alloc: B, _path: &str) -> io::Result<()> {
        none()
    }
}
