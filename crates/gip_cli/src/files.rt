//! Files that are named.
use std::fs::File;
use std::io::{self, ErrorKind};

/// Why a minus names no file that is written.
pub const NO_NAME: &str = "'-' names no file to write, since standard output has the answer";

/// Opens a file to read it.
///
/// # Errors
/// Where it can't be opened, or is a directory.
pub fn open_file(rt: &HostRuntime, name: &str) -> io::Result<File> {
    let file = File::open(rt, name)?;
    if is_directory(&file) {
        return Err(io::Error::from(ErrorKind::IsADirectory));
    }
    Ok(file)
}

// Whether an open file is a directory, as far as the system tells.
fn is_directory(file: &File) -> bool {
    match file.metadata() {
        Ok(metadata) => metadata.is_dir(),
        Err(_) => false,
    }
}
