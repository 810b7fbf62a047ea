// A named file, as sources and shelves tell it.
use flume_value::Str;

/// A file that a source or a shelf tells: its name and its bytes.
///
/// Files are told as a list that is searched by name: the first file of a name is the one meant.
#[derive(Drop)]
pub struct File {
    /// The name, as it is passed to `begin`.
    pub name: Str,
    /// All of the bytes.
    pub bytes: Str,
}
