//! Why a call is refused.
ghost use Rattle.std.specs.Prelude.{◌≡◌};
ghost use Rattle.next_ids.specs.Errnos.{text_of, errno_named};

/// Why a call was refused (POSIX.1-2017, System Interfaces, 2.3 Error Numbers).
#[derive(Clone, Copy, Debug, PartialEq, Eq)]
pub enum Errno {
    /// A directory, a name or a file isn't there.
    Enoent,
    /// The name is there already.
    Eexist,
    /// A directory is needed, and this is a file.
    Enotdir,
    /// A file is needed, and this is a directory.
    Eisdir,
    /// The directory has names.
    Enotempty,
    /// A directory's name isn't taken away so.
    Eperm,
    /// A directory would come to lie below itself.
    Einval,
    /// A component of a path has over 255 bytes.
    Enametoolong,
    /// A directory has as many links as one may have.
    Emlink,
}

/// The name of the errno, as POSIX writes it.
pub fn errno_text(e: Errno) -> &'static str
    ensures { result.now ≡ text_of e }
{
    match e {
        Errno::Enoent => "ENOENT",
        Errno::Eexist => "EEXIST",
        Errno::Enotdir => "ENOTDIR",
        Errno::Eisdir => "EISDIR",
        Errno::Enotempty => "ENOTEMPTY",
        Errno::Eperm => "EPERM",
        Errno::Einval => "EINVAL",
        Errno::Enametoolong => "ENAMETOOLONG",
        Errno::Emlink => "EMLINK",
    }
}

/// The errno of this name. None comes exactly where the word is no errno's name.
pub fn errno_of(word: &[u8]) -> Option<Errno>
    ensures { result ≡ errno_named word.now }
{
    if word == b"ENOENT".as_slice() {
        Some(Errno::Enoent)
    } else if word == b"EEXIST".as_slice() {
        Some(Errno::Eexist)
    } else if word == b"ENOTDIR".as_slice() {
        Some(Errno::Enotdir)
    } else if word == b"EISDIR".as_slice() {
        Some(Errno::Eisdir)
    } else if word == b"ENOTEMPTY".as_slice() {
        Some(Errno::Enotempty)
    } else if word == b"EPERM".as_slice() {
        Some(Errno::Eperm)
    } else if word == b"EINVAL".as_slice() {
        Some(Errno::Einval)
    } else if word == b"ENAMETOOLONG".as_slice() {
        Some(Errno::Enametoolong)
    } else if word == b"EMLINK".as_slice() {
        Some(Errno::Emlink)
    } else {
        None
    }
}
