//! Files.
use crate::refusal::{Refusal, refuse_with_line};
use std::alloc::Global;
use std::fs::{OpenFile, OpenOptions};
use std::io::{Read, Seek, SeekFrom, Write};
use std::os::unix::fs::OpenOptionsExt;
use std::rt::Files;
use std::{fs, io};

/// The text of the file. Refuses one that is absent, that can't be read, or that is not UTF-8.
pub(crate) fn file_text<R: Files + AllocGlobal>(rt: &R, name: &str) -> Result<String, Refusal> {
    match fs::read_to_string(rt, name) {
        Ok(text) => Ok(text),
        Err(error) => Err(unread(rt.alloc(), name, &error)),
    }
}

/// A file to which is written after what it has, from a line of its own on. It is made where it is absent, readable for
/// its owner alone. Refuses one that can't be opened, or whose last line, which has no end, can't be ended.
pub(crate) fn file_to_append<R: Files + AllocGlobal>(
    rt: &R,
    name: &str,
) -> Result<R::File, Refusal> {
    match open_to_append(rt, name) {
        Ok(file) => Ok(file),
        Err(error) => Err(unread(rt.alloc(), name, &error)),
    }
}

fn open_to_append<R: Files>(rt: &R, name: &str) -> io::Result<R::File> {
    let mut options = OpenOptions::new();
    options.append(true).create(true).mode(0o600);
    let mut file = options.open(rt, name)?;
    if is_within_line(rt, name, &file)? {
        file.write_all(b"\n")?;
        file.flush()?;
    }
    Ok(file)
}

// Whether what the file has ends within a line, as where a full disk cut it; so also where its end can't be read. What is
// no file of the disk, as a pipe, has no end.
fn is_within_line<R: Files>(rt: &R, name: &str, file: &R::File) -> io::Result<bool> {
    let found = file.metadata()?;
    if !found.is_file() || found.len() == 0 {
        return Ok(false);
    }
    match last_byte(rt, name) {
        Ok(byte) => Ok(byte != b'\n'),
        Err(error) => {
            drop(error);
            Ok(true)
        }
    }
}

fn last_byte<R: Files>(rt: &R, name: &str) -> io::Result<u8> {
    let mut file = fs::open(rt, name)?;
    file.seek(SeekFrom::End(-1))?;
    let mut last = [0u8; 1];
    file.read_exact(&mut last)?;
    Ok(last[0])
}

#[cold]
fn unread(alloc: Global, name: &str, error: &io::Error) -> Refusal {
    match error.kind() {
        io::ErrorKind::OutOfMemory => Refusal::Memory,
        io::ErrorKind::NotFound => {
            refuse_with_line(alloc, format!(in alloc; "{name}: no such file"))
        }
        io::ErrorKind::InvalidData => {
            refuse_with_line(alloc, format!(in alloc; "{name}: not UTF-8"))
        }
        _ => refuse_with_line(alloc, format!(in alloc; "{name}: {error}")),
    }
}
