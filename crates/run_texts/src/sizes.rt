// The lines of sizes.
ghost use Rattle.std.specs.Prelude.{◌≡◌, ◌++◌, OnOk};
ghost use Rattle.run_texts.specs.Texts.{size_line};

use itoa::Buffer;
use std::alloc::AllocError;

/// Adds the line of a collection's size to a text.
pub fn push_size(text: &mut Vec<u8>, name: &[u8], size: u64) -> Result<(), AllocError>
    ensures { OnOk result (text.new.items ≡ text.old.items ++ size_line name.now size) }
{
    let mut digits = Buffer::new();
    let size = digits.format(size).as_bytes();
    text.extend_from_slice(b"size ")?;
    text.extend_from_slice(name)?;
    text.extend_from_slice(b" ")?;
    text.extend_from_slice(size)?;
    text.extend_from_slice(b"\n")
}
