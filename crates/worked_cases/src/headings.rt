// What a line heads: a case, or a text that the cases below may use.

/// What stands at the head of a block of lines.
#[derive(Clone, Copy)]
pub enum Heading<'a> {
    /// Nothing: these are the lines before the first heading.
    Front,
    /// A case of this name.
    Case(&'a [u8]),
    /// A text of this name, which the cases below may use.
    Text(&'a [u8]),
}

impl<'a> Heading<'a> {
    /// The name of the case or the text.
    pub fn name(self) -> &'a [u8] {
        match self {
            Heading::Front => &[],
            Heading::Case(name) => name,
            Heading::Text(name) => name,
        }
    }
}

/// What this line heads.
pub fn heading_of(line: &[u8]) -> Heading<'_> {
    if let Some(name) = line.strip_prefix(b"case ") {
        return Heading::Case(name.trim_ascii());
    }
    match line.strip_prefix(b"text ") {
        Some(name) => Heading::Text(name.trim_ascii()),
        None => Heading::Front,
    }
}
