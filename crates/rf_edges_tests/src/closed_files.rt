// Files that can't be opened.
use std::alloc::Allocator;
use std::fs::{Metadata, OpenOptions};
use std::io::{self, Error, ErrorKind};
use std::rt::Files;

// Files of the runtime's kind, each call on which fails with an error of this kind.
#[derive(Drop)]
pub(crate) struct ClosedFiles<'r, R: Files> {
    pub(crate) rt: &'r R,
    pub(crate) kind: ErrorKind,
}

impl<'r, R: Files> ClosedFiles<'r, R> {
    fn fails<T: Drop>(&self) -> io::Result<T> {
        Err(Error::from(self.kind))
    }
}

impl<'r, R: Files> Files for ClosedFiles<'r, R> {
    type File = R::File;

    type Dir = R::Dir;

    fn open_file(&self, _how: &OpenOptions, _path: &str) -> io::Result<R::File> {
        self.fails()
    }

    fn open_dir(&self, _path: &str) -> io::Result<R::Dir> {
        self.fails()
    }

    fn metadata(&self, _path: &str) -> io::Result<Metadata> {
        self.fails()
    }

    fn symlink_metadata(&self, _path: &str) -> io::Result<Metadata> {
        self.fails()
    }

    fn copy(&self, _from: &str, _to: &str) -> io::Result<u64> {
        self.fails()
    }

    fn rename(&self, _from: &str, _to: &str) -> io::Result<()> {
        self.fails()
    }

    fn remove_file(&self, _path: &str) -> io::Result<()> {
        self.fails()
    }

    fn create_dir(&self, _path: &str) -> io::Result<()> {
        self.fails()
    }

    fn remove_dir(&self, _path: &str) -> io::Result<()> {
        self.fails()
    }

    fn remove_dir_all<B: Allocator>(&self, _alloc: B, _path: &str) -> io::Result<()> {
        self.fails()
    }
}
