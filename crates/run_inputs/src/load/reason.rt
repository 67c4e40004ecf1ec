//! Why the system gives no file.

/// What the system says of a name under which it gives no file that can be read.
#[derive(Clone, Copy, PartialEq, Eq)]
pub enum Reason {
    /// No file has the name.
    Absent,
    /// The file, or a folder above it, may not be looked into.
    Denied,
    /// A folder has the name.
    Folder,
    /// The file has so many bytes, which are more than a layout or a manifest may have.
    Long(u64),
}
