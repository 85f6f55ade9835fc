//! The directory that a run begins with.
use crate::text::{bytes_of, push_bytes};
use pt_host::{FileList, Image, Name};
use pt_memhost::MemHost;
use pt_plain::List;
use std::alloc::{AllocError, Global};

/// An empty directory.
pub fn no_files(alloc: Global) -> Result<Image, AllocError> {
    MemHost::empty(alloc, b"")?.image_pick(0)
}

/// The file that a word `NAME=BYTES` writes.
fn file_of(alloc: Global, word: &str) -> Result<Option<(Name, List<u8>)>, AllocError> {
    let Some((name, text)) = word.split_once('=') else {
        return Ok(None);
    };
    let bytes = List::of(bytes_of(alloc, text)?);
    match Name::of(name.as_bytes()) {
        None => Ok(None),
        Some(name) => Ok(Some((name, bytes))),
    }
}

/// The directory of the files that words write. `None` where a word writes none, or the names don't rise.
pub fn directory_of(alloc: Global, words: &str) -> Result<Option<Image>, AllocError> {
    let mut files = List::new(alloc);
    for word in words.split_whitespace() {
        match file_of(alloc, word)? {
            None => return Ok(None),
            Some(file) => files.push(file)?,
        }
    }
    Ok(Image::of(files))
}

/// The directory whose one file `whole.map` spells the map of the files that words write.
pub fn map_of(alloc: Global, words: &str) -> Result<Option<Image>, AllocError> {
    let spelled = List::of(spelled(alloc, words)?);
    let mut files = List::new(alloc);
    if let Some(name) = Name::of(b"whole.map") {
        files.push((name, spelled))?;
    }
    Ok(Image::of(files))
}

/// How a map is spelled: the number of its files in 8 bytes, and for each file the length of its name in one, its name,
/// its length in 8 and its bytes. The bytes of a number rise in weight.
fn spelled(alloc: Global, words: &str) -> Result<Vec<u8>, AllocError> {
    let count = words.split_whitespace().count();
    let mut bytes = Vec::from_slice(alloc, &(count as u64).to_le_bytes())?;
    for word in words.split_whitespace() {
        push_entry(alloc, &mut bytes, word)?;
    }
    Ok(bytes)
}

fn push_entry(alloc: Global, bytes: &mut Vec<u8>, word: &str) -> Result<(), AllocError> {
    let (name, text) = word.split_once('=').unwrap_or((word, ""));
    let file = bytes_of(alloc, text)?;
    bytes.push((name.len() & 255) as u8)?;
    bytes.extend_from_slice(name.as_bytes())?;
    bytes.extend_from_slice(&(file.len() as u64).to_le_bytes())?;
    bytes.extend_from_slice(&file)
}

/// The names of files, with their lengths.
pub fn files_text(alloc: Global, files: &[(Name, List<u8>)]) -> Result<String, AllocError> {
    let mut text = String::new(alloc);
    for (name, bytes) in files {
        if !text.is_empty() {
            text.push_str(", ")?;
        }
        push_bytes(&mut text, name.bytes())?;
        let length = bytes.items().len();
        write!(text, " {length}")?;
    }
    Ok(text)
}

/// Whether the directory is the one whose one file spells the map of the files that words write.
pub fn held_text(alloc: Global, directory: &Image, words: &str) -> Result<String, AllocError> {
    let held = match map_of(alloc, words)? {
        None => false,
        Some(map) => map.files == directory.files,
    };
    String::from_str(alloc, if held { "held" } else { "not held" })
}

/// The directory with one more file, a shadow as a run leaves it that is stopped.
pub fn shadowed(alloc: Global, directory: Image) -> Result<Image, AllocError> {
    let Image { files } = directory;
    match Image::of(with_shadow(alloc, files)?) {
        None => no_files(alloc),
        Some(directory) => Ok(directory),
    }
}

fn with_shadow(alloc: Global, mut files: FileList) -> Result<FileList, AllocError> {
    let bytes = List::from_slice(alloc, b"part")?;
    match Name::of(b"whole.map.new") {
        None => Ok(files),
        Some(name) => {
            files.push((name, bytes))?;
            Ok(files)
        }
    }
}

/// The length of the last file.
pub fn last_length(files: &FileList) -> usize {
    match files.items().last() {
        None => 0,
        Some((_, bytes)) => bytes.items().len(),
    }
}
