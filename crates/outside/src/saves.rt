// Files written one after the other, each of them whole or cut short.
ghost use Rattle.std.specs.Prelude.{◌≤◌, ◌∷◌, [], IfErr, OnErr, OnOk, map};
ghost use Rattle.outside.specs.Saves.{FailsAt, HasFiles, output_file};

use crate::names::FileName;
use crate::{Failed, Shelf};

/// A file to write.
#[derive(Drop)]
pub struct Output {
    /// The name, as it is passed to `begin`.
    pub name: FileName,
    /// All of the bytes.
    pub text: Vec<u8>,
}

/// Writes files, one after the other, each of them ended before the next. It takes no memory.
///
/// At `Err(k)` the k-th output failed, counted from 0, and the shelf's count rose: the outputs
/// before it are whole, this one is cut short or as it was, and those behind it are as they were.
pub fn save_all<K: Shelf>(shelf: &mut K, outputs: &[Output]) -> Result<(), usize>
    ensures whole { OnOk result
        (HasFiles (map output_file outputs.now) (K.seen shelf.old) (K.seen shelf.new)) }
    ensures cut { IfErr result
        (λ k. FailsAt k (map output_file outputs.now) (K.seen shelf.old) (K.seen shelf.new)) }
    ensures later { (K.seen shelf.old).faults ≤ (K.seen shelf.new).faults }
{
    for (k, output) in outputs.iter().enumerate() {
        if save(shelf, output.name.as_str(), &output.text).is_err() {
            return Err(k);
        }
    }
    Ok(())
}

/// Writes a file, and ends it. It takes no memory.
///
/// Failed comes only where the shelf's count rose; then the file has a front of the text, or all
/// files are as they were.
pub fn save<K: Shelf>(shelf: &mut K, name: &str, text: &[u8]) -> Result<(), Failed>
    ensures whole { OnOk result (HasFiles (record { name = name.now; bytes = text.now } ∷ [])
        (K.seen shelf.old)
        (K.seen shelf.new)) }
    ensures cut { OnErr result (FailsAt 0 (record { name = name.now; bytes = text.now } ∷ [])
        (K.seen shelf.old)
        (K.seen shelf.new)) }
    ensures later { (K.seen shelf.old).faults ≤ (K.seen shelf.new).faults }
{
    shelf.begin(name)?;
    let mut done = 0;
    while done < text.len() {
        done += shelf.write(&text[done..])?;
    }
    shelf.end()
}
