//! Files that appear when they are whole.
use crate::cause::Cause;
use std::fmt::{self, Display};
use std::fs::{self, File, Metadata};
use std::io::{self, ErrorKind, Write};
use std::os::unix::fs::MetadataExt;
use std::path::PathBuf;
use std::process;

// How many names are tried for the file that holds the bytes until it is whole.
const NAMES: u32 = 64;

// The most bytes of a name that the name of a part takes over. The system takes 255 in all.
const KEPT_BYTES: usize = 200;

/// What is done where something has the name already.
#[derive(Clone, Copy, PartialEq, Eq)]
pub enum Existing {
    /// The file is refused.
    Refuse,
    /// A file is replaced when the new one is whole. A device, a pipe and a link are written as they stand.
    Replace,
}

/// A file that appears under its name when it is whole.
///
/// Until then its bytes are in the file `NAME.NUMBER.part` beside it, which the first write makes; of a NAME of more than
/// 200 bytes it has the first ones. That file is removed where the new file is dropped before it is whole, and is left
/// where the program is killed.
pub struct NewFile<'a> {
    rt: HostRuntime,
    name: &'a str,
    // What a link of this name leads to. None where the name is no link.
    target: Option<PathBuf>,
    // The file that it replaces, if it replaces one. It stays open, so that no other file gets its inode.
    replaced: Option<File>,
    // None before the first write.
    part: Option<Part>,
}

// Where bytes are written.
#[derive(Drop)]
struct Part {
    file: File,
    // None for what is written as it stands.
    named: Option<Named>,
}

// The number in the name of a part, and that name, which is made once: a part that is to go away wants no memory.
#[derive(Drop)]
struct Named {
    number: u32,
    name: String,
}

impl Named {
    // The number of the part, if that is there.
    fn left(&self, rt: &HostRuntime) -> Option<u32> {
        match fs::symlink_metadata(rt, self.name.as_str()) {
            Ok(_) => Some(self.number),
            Err(_) => None,
        }
    }
}

// The name of a part: that of the new file, and the part's number.
#[derive(Clone, Copy)]
struct PartName<'a>(&'a str, u32);

impl Display for PartName<'_> {
    fn fmt<W: fmt::Write>(&self, f: &mut fmt::Formatter<W>) -> fmt::Result {
        let PartName(name, number) = *self;
        let base = match name.rfind('/') {
            Some(place) => place.saturating_add(1),
            None => 0,
        };
        let end = name.floor_char_boundary(base.saturating_add(KEPT_BYTES));
        write!(f, "{}.{number}.part", &name[..end])
    }
}

// Where the bytes are that are left of a new file, if they are: its name, and the number of its part.
#[derive(Clone, Copy)]
struct PartLeft<'a>(&'a str, Option<u32>);

impl Display for PartLeft<'_> {
    fn fmt<W: fmt::Write>(&self, f: &mut fmt::Formatter<W>) -> fmt::Result {
        let PartLeft(name, number) = *self;
        match number {
            Some(number) => write!(f, " (see {})", PartName(name, number)),
            None => Ok(()),
        }
    }
}

// By what the system tells files from each other.
#[derive(Clone, Copy, PartialEq, Eq)]
struct Identity {
    device: u64,
    inode: u64,
}

/// Why a file did not appear under its name.
#[derive(Clone, Copy)]
pub enum FinishError<'a> {
    /// Nothing was written to this name, and the system refused to make the file.
    Unmade(&'a str, io::Error),
    /// The file under this name was made or exchanged meanwhile, and stays. What was written is in the file with this
    /// number, if that is there.
    Taken(&'a str, Option<u32>),
    /// The system refused to write the rest, or to give the file this name. What was written is in the file with this
    /// number, if that is there.
    Refused(&'a str, Option<u32>, io::Error),
}

impl Display for FinishError<'_> {
    fn fmt<W: fmt::Write>(&self, f: &mut fmt::Formatter<W>) -> fmt::Result {
        match *self {
            FinishError::Unmade(name, error) => {
                write!(f, "{name}: cannot be written: {}", Cause(Some(error)))
            }
            FinishError::Taken(name, number) => write!(
                f,
                "{name}: another file came there meanwhile{}",
                PartLeft(name, number)
            ),
            FinishError::Refused(name, number, error) => write!(
                f,
                "{name}: cannot be written: {}{}",
                Cause(Some(error)),
                PartLeft(name, number)
            ),
        }
    }
}

impl<'a> NewFile<'a> {
    /// Prepares a file of this name. A file that is to be replaced stays as it is, also where a link leads to it in the
    /// same file system. In another one it is emptied.
    ///
    /// # Errors
    /// Where the name is empty, where something has it and is not to be replaced or may not be written, and where no
    /// file can be made in its folder.
    pub fn begin(rt: &HostRuntime, name: &'a str, existing: Existing) -> io::Result<Self> {
        let mut file = NewFile {
            rt: *rt,
            name,
            target: None,
            replaced: None,
            part: None,
        };
        if name.is_empty() {
            return Err(io::Error::from(ErrorKind::NotFound));
        }
        match fs::symlink_metadata(rt, name) {
            Err(error) if error.kind() == ErrorKind::NotFound => {}
            Err(error) => return Err(error),
            Ok(_) if existing == Existing::Refuse => {
                return Err(io::Error::from(ErrorKind::AlreadyExists));
            }
            Ok(metadata) if metadata.is_file() => {
                // A file that may not be written is not replaced.
                file.replaced = Some(File::options().append(true).open(rt, name)?);
            }
            Ok(metadata) if metadata.is_symlink() && file.follow(&metadata)? => {}
            Ok(_) => {
                file.part = Some(Part {
                    file: File::create(rt, name)?,
                    named: None,
                });
                return Ok(file);
            }
        }
        // A folder that can't be written is told now.
        remove(rt, &file.make_part()?);
        Ok(file)
    }

    // Whether the link of this name leads to a file that can be replaced from here. That one is to be replaced then.
    fn follow(&mut self, link: &Metadata) -> io::Result<bool> {
        let Ok(target) = fs::canonicalize(&self.rt, self.name) else {
            return Ok(false);
        };
        let metadata = fs::symlink_metadata(&self.rt, target.as_str())?;
        if !metadata.is_file() || metadata.dev() != link.dev() {
            return Ok(false);
        }
        self.replaced = Some(
            File::options()
                .append(true)
                .open(&self.rt, target.as_str())?,
        );
        self.target = Some(target);
        Ok(true)
    }

    // Where the file appears.
    fn place(&self) -> &str {
        match &self.target {
            Some(target) => target.as_str(),
            None => self.name,
        }
    }

    /// Its name.
    pub fn name(&self) -> &'a str {
        self.name
    }

    /// Gives the file its name. What has the name stays, but for the file that is to be replaced.
    ///
    /// # Errors
    /// Where something else has the name by now, and where the system refuses it. What was written stays then, in the
    /// file that the error names, unless that was removed meanwhile.
    pub fn finish(mut self) -> Result<(), FinishError<'a>> {
        let name = self.name;
        let part = match self.part.take() {
            Some(part) => part,
            None => match self.make_part() {
                Ok(part) => part,
                Err(error) => return Err(FinishError::Unmade(name, error)),
            },
        };
        let Part { file, named } = part;
        let Some(named) = named else {
            return Ok(());
        };
        match self.appear(&file, named.name.as_str()) {
            Ok(true) => Ok(()),
            Ok(false) => Err(FinishError::Taken(name, named.left(&self.rt))),
            Err(error) => Err(FinishError::Refused(name, named.left(&self.rt), error)),
        }
    }

    // Moves the part of this name to the file's own. Whether that was free, or is that of the replaced file.
    fn appear(&self, file: &File, part: &str) -> io::Result<bool> {
        // Some systems tell only here that a write failed.
        file.sync_all()?;
        match fs::symlink_metadata(&self.rt, self.place()) {
            Ok(metadata) => {
                if !self.replaces(Identity::of(&metadata))? {
                    return Ok(false);
                }
                fs::rename(&self.rt, part, self.place())?;
                return Ok(true);
            }
            Err(error) if error.kind() == ErrorKind::NotFound => {}
            Err(error) => return Err(error),
        }
        // A link is refused where the name was taken since, and a rename is not.
        match fs::hard_link(&self.rt, part, self.place()) {
            Ok(()) => {
                let _ = fs::remove_file(&self.rt, part);
                Ok(true)
            }
            Err(error) => match error.kind() {
                ErrorKind::AlreadyExists => Ok(false),
                // What file systems without links answer.
                ErrorKind::PermissionDenied | ErrorKind::Unsupported => {
                    fs::rename(&self.rt, part, self.place())?;
                    Ok(true)
                }
                _ => Err(error),
            },
        }
    }

    // Whether the file that is to be replaced is the one of this identity.
    fn replaces(&self, identity: Identity) -> io::Result<bool> {
        match &self.replaced {
            Some(file) => Ok(Identity::of(&file.metadata()?) == identity),
            None => Ok(false),
        }
    }

    // Makes the file that holds the bytes until it is whole. No other one is written over.
    fn make_part(&self) -> io::Result<Part> {
        let first = process::id(self.rt.process());
        for more in 0..NAMES {
            let number = first.wrapping_add(more);
            let name = part_name(&self.rt, self.name, number)?;
            match File::create_new(&self.rt, name.as_str()) {
                Ok(file) => {
                    return Ok(Part {
                        file,
                        named: Some(Named { number, name }),
                    });
                }
                Err(error) if error.kind() == ErrorKind::AlreadyExists => {}
                Err(error) => return Err(error),
            }
        }
        Err(io::Error::from(ErrorKind::AlreadyExists))
    }
}

impl Drop for NewFile<'_> {
    fn drop(self) {
        let NewFile {
            rt,
            name: _,
            target: _,
            replaced: _,
            part,
        } = self;
        if let Some(part) = part {
            remove(&rt, &part);
        }
    }
}

impl Write for NewFile<'_> {
    fn write(&mut self, buf: &[u8]) -> io::Result<usize> {
        if self.part.is_none() {
            self.part = Some(self.make_part()?);
        }
        match &mut self.part {
            Some(part) => part.file.write(buf),
            None => Ok(0),
        }
    }

    fn flush(&mut self) -> io::Result<()> {
        Ok(())
    }
}

impl Identity {
    fn of(metadata: &Metadata) -> Self {
        Identity {
            device: metadata.dev(),
            inode: metadata.ino(),
        }
    }
}

// Removes the part of a new file, where it is one.
fn remove(rt: &HostRuntime, part: &Part) {
    if let Some(named) = &part.named {
        let _ = fs::remove_file(rt, named.name.as_str());
    }
}

// The name of a part.
fn part_name(rt: &HostRuntime, name: &str, number: u32) -> io::Result<String> {
    Ok(format!(in rt.alloc(); "{}", PartName(name, number))?)
}
