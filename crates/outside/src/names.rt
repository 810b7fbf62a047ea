// The name of a file to write: a text that a shelf can be asked for, and a fault can be told of.
ghost use Rattle.std.specs.Prelude.{◌≡◌, IfOk};

use flume_value::Str;
use std::alloc::{AllocError, Global};
use std::marker::Model;
use std::str;

/// The name of a file, which contracts see as the list of its bytes. They are UTF-8.
#[derive(Drop)]
pub struct FileName {
    text: Str,
}

impl Model for FileName {
    ghost use Rattle.std.specs.Prelude.{List, ℕ, IsUtf8};
    ghost use Rattle.std.specs.Coded.{coded_list, coded_ℕ};

    ghost Value = { List ℕ };

    ghost coded = { coded_list coded_ℕ };

    ghost view = { λ s. s.text };

    ghost invariant = { λ s. IsUtf8 s.text };
}

impl FileName {
    /// This name, copied.
    pub fn new(alloc: Global, name: &str) -> Result<FileName, AllocError>
        ensures { IfOk result (λ it. it ≡ name.now) }
    {
        Ok(FileName {
            text: Str::from_slice(alloc, name.as_bytes())?,
        })
    }

    /// The name.
    pub fn as_str(&self) -> &str
        ensures { result.now ≡ self.now }
    {
        let Ok(name) = str::from_utf8(self.text.as_bytes()) else {
            unreachable!();
        };
        name
    }

    /// The name as a text. It takes no memory.
    pub fn into_text(self) -> Str
        ensures { result ≡ self }
    {
        let FileName { text } = self;
        text
    }
}
