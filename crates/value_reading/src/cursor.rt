// The bytes that are left to read, and the parts that take no memory.
ghost use Rattle.std.specs.Prelude.{◌≡◌, [], IsTrue, ◌↔◌};
ghost use Rattle.value_reading.specs.inner.Reading as spec;
ghost use Rattle.value_reading.specs.inner.Reads.{ReadsFront, ReadsAs};

use crate::fault::ReadFault;
use crate::numbers::{first_eight, first_sixteen};
use crate::tag::{Tag, variant_of};
use std::marker::Model;

/// The bytes that are left, which contracts see as their list.
#[derive(Drop)]
pub struct Cursor<'a> {
    bytes: &'a [u8],
}

impl<'a> Model for Cursor<'a> {
    ghost use Rattle.std.specs.Prelude.{List, ℕ};
    ghost use Rattle.std.specs.Coded.{coded_list, coded_ℕ};

    ghost Value = { List ℕ };

    ghost coded = { coded_list coded_ℕ };

    ghost view = { λ s. s.bytes.now };
}

impl<'a> Cursor<'a> {
    /// All of the bytes are left.
    pub fn new(bytes: &'a [u8]) -> Cursor<'a>
        ensures { result ≡ bytes.now }
    {
        Cursor { bytes }
    }

    /// Whether no bytes are left.
    pub fn is_empty(&self) -> bool
        ensures { IsTrue result ↔ (self.now ≡ []) }
    {
        self.bytes.is_empty()
    }

    /// One byte.
    pub fn byte(&mut self) -> Result<u8, ReadFault>
        ensures { ReadsFront spec.byte_at self.old self.new result }
    {
        let bytes = self.bytes;
        if bytes.is_empty() {
            return Err(ReadFault::NotOne);
        }
        self.bytes = &bytes[1..];
        Ok(bytes[0])
    }

    /// So many bytes.
    #[tactic(auto, unfolding(crate::specs::inner::Reading::front_at))]
    pub fn front(&mut self, count: u64) -> Result<&'a [u8], ReadFault>
        ensures { ReadsAs (λ x. x.now) (spec.front_at count) self.old self.new result }
    {
        let bytes = self.bytes;
        if (bytes.len() as u64) < count {
            return Err(ReadFault::NotOne);
        }
        let (front, rest) = bytes.split_at(count as usize);
        self.bytes = rest;
        Ok(front)
    }

    /// A length: a number of eight bytes.
    #[tactic(auto, unfolding(crate::specs::inner::Reading::number_at))]
    pub fn length(&mut self) -> Result<u64, ReadFault>
        ensures { ReadsFront (spec.number_at 8) self.old self.new result }
    {
        let bytes = self.bytes;
        if bytes.len() < 8 {
            return Err(ReadFault::NotOne);
        }
        self.bytes = &bytes[8..];
        Ok(first_eight(bytes))
    }

    /// A signed number of eight bytes.
    pub fn int(&mut self) -> Result<i64, ReadFault>
        ensures { ReadsFront spec.int_at self.old self.new result }
    {
        let bits = self.length()?;
        Ok(bits.cast_signed())
    }

    /// A signed number of sixteen bytes.
    pub fn wide(&mut self) -> Result<i128, ReadFault>
        ensures { ReadsFront spec.wide_at self.old self.new result }
    {
        let bits = self.sixteen()?;
        Ok(bits.cast_signed())
    }

    /// A truth value.
    pub fn truth(&mut self) -> Result<bool, ReadFault>
        ensures { ReadsFront spec.bool_at self.old self.new result }
    {
        let byte = self.byte()?;
        match byte {
            0 => Ok(false),
            1 => Ok(true),
            _ => Err(ReadFault::NotOne),
        }
    }

    /// The variant of a value.
    pub fn tag(&mut self) -> Result<Tag, ReadFault>
        ensures { ReadsFront spec.tag_at self.old self.new result }
    {
        let byte = self.byte()?;
        match variant_of(byte) {
            Some(tag) => Ok(tag),
            None => Err(ReadFault::NotOne),
        }
    }

    // A number of sixteen bytes.
    #[tactic(auto, unfolding(crate::specs::inner::Reading::number_at))]
    fn sixteen(&mut self) -> Result<u128, ReadFault>
        ensures { ReadsFront (spec.number_at 16) self.old self.new result }
    {
        let bytes = self.bytes;
        if bytes.len() < 16 {
            return Err(ReadFault::NotOne);
        }
        self.bytes = &bytes[16..];
        Ok(first_sixteen(bytes))
    }
}
