// The first byte of a value, which tells its variant.
ghost use Rattle.std.specs.Prelude.{◌≡◌};
ghost use Rattle.value_reading.specs.inner.Reading.{tag_of};

/// The variant of a value.
#[derive(Clone, Copy)]
pub enum Tag {
    Int,
    Bool,
    Text,
    List,
    Rec,
    Left,
    Right,
    Wide,
}

/// The variant that a value with this first byte has, if there is one.
pub fn variant_of(byte: u8) -> Option<Tag>
    ensures { result ≡ tag_of byte }
{
    match byte {
        1 => Some(Tag::Int),
        2 => Some(Tag::Bool),
        3 => Some(Tag::Text),
        4 => Some(Tag::List),
        5 => Some(Tag::Rec),
        6 => Some(Tag::Left),
        7 => Some(Tag::Right),
        8 => Some(Tag::Wide),
        _ => None,
    }
}
