//! What is found of a program's file.
use base_streams::std_io::StdInlet;
use base_text::text::Text;
use cli_io::reading::read_all;
use cli_io::status::Status;
use dap_debugger::launch_text::{TEXT_SIZE, text_of};
use dap_launch::file::FileText;
use std::alloc::Global;
use std::io::{ErrorKind, Read};
use std::rt::Files;
use std::{fs, io};

/// What is looked up of a file.
#[derive(Clone, Copy)]
pub enum Target {
    Content,
    CanonicalPath,
}

/// What was found of a file.
#[derive(Drop)]
pub enum Found {
    Content(FileText),
    CanonicalPath(Text),
    Missing,
    Unreadable,
    OutOfMemory,
}

/// What has files.
pub trait FileSystem {
    /// Looks up the file at a path, however long that takes.
    fn look_up(&self, alloc: Global, path: &str, target: Target) -> Found;
}

// What an open file has. Of a file that is too long no more is read than shows that.
fn read_open<F: Read + Drop>(alloc: Global, path: &str, file: F) -> Found {
    let most = TEXT_SIZE as u64 + 1;
    match read_all(alloc, &mut StdInlet::new(file.take(most))) {
        Ok(bytes) => Found::Content(text_of(path, bytes)),
        Err(Status::OutOfMemory) => Found::OutOfMemory,
        Err(_) => Found::Unreadable,
    }
}

// What was found of a file that gave this error.
fn found_by_error(error: io::Error) -> Found {
    let kind = error.kind();
    drop(error);
    match kind {
        ErrorKind::OutOfMemory => Found::OutOfMemory,
        ErrorKind::NotFound => Found::Missing,
        _ => Found::Unreadable,
    }
}

// Folders, pipes and the like aren't read.
fn find_content<R: Files>(rt: &R, alloc: Global, path: &str) -> Found {
    match fs::metadata(rt, path) {
        Ok(metadata) if !metadata.is_file() => return Found::Unreadable,
        Ok(_) => {}
        Err(error) => return found_by_error(error),
    }
    match fs::open(rt, path) {
        Ok(file) => read_open(alloc, path, file),
        Err(error) => found_by_error(error),
    }
}

fn find_canonical<R: Files>(rt: &R, alloc: Global, path: &str) -> Found {
    match rt.canonicalize(alloc, path) {
        Ok(path) => Found::CanonicalPath(Text::from(path.into_string())),
        Err(error) => found_by_error(error),
    }
}

impl<R: Files> FileSystem for R {
    fn look_up(&self, alloc: Global, path: &str, target: Target) -> Found {
        match target {
            Target::Content => find_content(self, alloc, path),
            Target::CanonicalPath => find_canonical(self, alloc, path),
        }
    }
}
