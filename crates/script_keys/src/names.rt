// Names, copied behind others and looked for.
ghost use Rattle.std.specs.Prelude.{◌≡◌, ◌++◌, ◌∷◌, [], IfOk, OnOk};
ghost use Rattle.std.specs.List.{list_any};
ghost use Rattle.script_keys.specs.Rests.{holds_name};

use flume_value::{Pile, Str};
use std::alloc::{AllocError, Global};

/// Puts a copy of a name behind others.
pub fn with_name(alloc: Global, names: &mut Pile<Str>, name: &Str) -> Result<(), AllocError>
    ensures { OnOk result (names.new ≡ names.old ++ name.now ∷ []) }
{
    names.push(name.copy(alloc)?)
}

/// Puts copies of names behind others.
pub fn add_all(alloc: Global, names: &mut Pile<Str>, more: &[Str]) -> Result<(), AllocError>
    ensures { OnOk result (names.new ≡ names.old ++ more.now) }
{
    for name in more {
        with_name(alloc, names, name)?;
    }
    Ok(())
}

/// Copies of names.
pub fn copies(alloc: Global, names: &[Str]) -> Result<Pile<Str>, AllocError>
    ensures { IfOk result (λ it. it ≡ names.now) }
{
    let mut copied = Pile::new(alloc);
    add_all(alloc, &mut copied, names)?;
    Ok(copied)
}

/// Whether the name is among these.
pub fn has_name(names: &[Str], name: &Str) -> bool
    ensures { result ≡ holds_name names.now name.now }
{
    names.iter().any(|own| own.is(name.as_bytes()))
}

/// Whether one of some names is among these.
pub fn has_some(names: &[Str], some: &[Str]) -> bool
    ensures { result ≡ list_any (holds_name names.now) some.now }
{
    some.iter().any(|name| has_name(names, name))
}
