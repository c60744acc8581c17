//! Walks a directory, and the directories in it.
ghost use Rattle.std.specs.Prelude.{IfErr, IfOk, IfSome, OnOk};
ghost use Rattle.std.specs.Io.KnownBytes.{Consumes};
ghost use Rattle.cli_files.specs.Read.{IsReadIfLike, IsRefused, IsVisit};

use crate::{Input, LIMIT, signature_of};
use cli_faults::Failure;
use std::alloc::AllocError;
use std::fs::Metadata;
use std::io::{BufRead, BufReader, Read};
use std::rt::Files;
use std::{fs, io};

/// The number of bytes that are read of a file before it is known to be of the kind that is asked for.
const FIRST: usize = 1 << 14;

/// What a walk comes to.
#[derive(Clone, Copy)]
pub enum Visit<'a> {
    /// A file with this path, which had this number of bytes.
    File(&'a str, u64),
    /// What has this path is neither a file, a directory nor a link: a pipe, a socket or a device. To open it could block.
    Special(&'a str),
    /// What has this path, which need not be UTF-8, could not be read.
    Unread(&'a [u8], Failure<'a>),
    /// A link, which is not followed, or a directory, whose names are visited next.
    Passed,
}

/// A name in a directory, which is visited later.
#[derive(Drop)]
struct Pending {
    /// The length of the path of its directory, in bytes.
    parent_len: usize,
    /// The name, which need not be UTF-8.
    name: Vec<u8>,
}

/// A walk over what is in a directory, in the order of the bytes of the names. It stores one path, and the names that are
/// left in the directories on that path. No directory stays open.
#[derive(Drop)]
pub struct Walk {
    /// The path of what was visited last.
    path: Vec<u8>,
    /// The names that are left, the next one last.
    pending: Vec<Pending>,
}

impl Walk {
    /// A walk over what is in the directory with this path.
    ///
    /// # Errors
    ///
    /// The directory could not be read, or memory ran out.
    pub fn over<'a, R: Files + AllocGlobal>(rt: &R, root: &'a str) -> Result<Walk, Failure<'a>>
        ensures { IfErr result (IsRefused root.now) }
    {
        start(rt, root).map_err(|error| Failure::of_reading(&error, root))
    }

    /// Visits what comes next, if anything is left.
    pub fn next<R: Files + AllocGlobal>(&mut self, rt: &R) -> Option<Visit<'_>>
        ensures { IfSome result IsVisit }
    {
        let next = self.pending.pop()?;
        self.path.truncate(next.parent_len);
        match join(&mut self.path, next.name.as_slice()) {
            Ok(()) => Some(look_at(rt, self.path.as_slice(), &mut self.pending)),
            Err(AllocError) => Some(Visit::Unread(self.path.as_slice(), Failure::OutOfMemory)),
        }
    }
}

/// A walk over what is in the directory with this path, which may be a link to one.
fn start<R: Files + AllocGlobal>(rt: &R, root: &str) -> io::Result<Walk> {
    // With a slash after it a link is followed.
    let parent = root.strip_suffix('/').unwrap_or(root);
    let mut path = String::from_str(rt.alloc(), parent)?;
    path.push('/')?;
    let mut pending = Vec::new(rt.alloc());
    add_names(rt, path.as_str(), parent.len(), &mut pending)?;
    Ok(Walk {
        path: path.into_bytes(),
        pending,
    })
}

/// Adds a slash and a name to the path of a directory.
fn join(path: &mut Vec<u8>, name: &[u8]) -> Result<(), AllocError> {
    path.push(b'/')?;
    path.extend_from_slice(name)
}

/// Visits what has this path. The names in a directory are added to those that are left.
fn look_at<'a, R: Files + AllocGlobal>(
    rt: &R,
    path: &'a [u8],
    pending: &mut Vec<Pending>,
) -> Visit<'a>
    ensures { IsVisit result }
{
    let Ok(text) = str::from_utf8(path) else {
        return Visit::Unread(path, Failure::NotUtf8(path));
    };
    match enter(rt, text, pending) {
        Ok(found) if found.is_file() => Visit::File(text, found.len()),
        Ok(found) if found.is_dir() || found.is_symlink() => Visit::Passed,
        Ok(_) => Visit::Special(text),
        Err(error) => Visit::Unread(path, Failure::of_reading(&error, text)),
    }
}

/// What the file system says of a path, without following a link. The names in a directory are added to those that are left.
fn enter<R: Files + AllocGlobal>(
    rt: &R,
    path: &str,
    pending: &mut Vec<Pending>,
) -> io::Result<Metadata> {
    let found = fs::symlink_metadata(rt, path)?;
    if found.is_dir() {
        add_names(rt, path, path.len(), pending)?;
    }
    Ok(found)
}

/// Adds the names in a directory to those that are left, the first one last. `parent_len` is the length of the path that they
/// are added to.
fn add_names<R: Files + AllocGlobal>(
    rt: &R,
    directory: &str,
    parent_len: usize,
    pending: &mut Vec<Pending>,
) -> io::Result<()> {
    for name in names_in(rt, directory)? {
        pending.push(Pending { parent_len, name })?;
    }
    Ok(())
}

/// The names in a directory, from the last to the first in the order of their bytes.
fn names_in<R: Files + AllocGlobal>(rt: &R, directory: &str) -> io::Result<Vec<Vec<u8>>> {
    let mut names = Vec::new(rt.alloc());
    let listing = BufReader::new(rt.alloc(), rt.open_dir(directory)?)?;
    for name in listing.split(rt.alloc(), 0) {
        let name = name?;
        // Neither the directory itself nor the one above it.
        if !matches!(name.as_slice(), b"." | b"..") {
            names.push(name)?;
        }
    }
    names.sort_unstable_by(|left: &Vec<u8>, right: &Vec<u8>| right.cmp(left));
    Ok(names)
}

/// Reads a file into a buffer, or its first 2^30 + 1 bytes if it has more, if it begins like one of this kind. Otherwise the
/// buffer holds anything. Returns whether it begins so. It is opened once, and expected to have `reported` bytes.
///
/// # Errors
///
/// The file could not be read, or memory ran out. Then the buffer holds anything.
pub fn read_if_like<R: Files>(
    rt: &R,
    path: &str,
    reported: u64,
    input: Input,
    bytes: &mut Vec<u8>,
) -> io::Result<bool>
    ensures { IfOk result (λ begins. (file : R.File) × IsReadIfLike R.File.remaining file input begins bytes.new.items) }
{
    let signature = signature_of(input);
    let mut file = fs::open(rt, path)?.take(LIMIT + 1);
    read_once(&mut file, bytes)?;
    // If fewer bytes than the signature has were read, the rest decides.
    if bytes.len() >= signature.len() && !bytes.starts_with(signature) {
        return Ok(false);
    }
    // Room for the reported size and one byte more, to see the end.
    bytes.reserve_exact(reported.min(LIMIT) as usize + 1)?;
    file.read_to_end(bytes)?;
    Ok(bytes.starts_with(signature))
}

/// Replaces what a buffer holds by the bytes that one call reads. If the call fails, there are none: the next one fails too, or
/// reads them.
fn read_once<F: Read>(reader: &mut F, bytes: &mut Vec<u8>) -> Result<(), AllocError>
    ensures { OnOk result (Consumes (F.remaining reader.old) (F.remaining reader.new) bytes.new.items) }
{
    bytes.resize(FIRST, 0)?;
    let count = reader.read(bytes.as_mut_slice()).unwrap_or(0);
    bytes.truncate(count);
    Ok(())
}
