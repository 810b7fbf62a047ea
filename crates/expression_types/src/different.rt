// Whether names are all different.
ghost use Rattle.std.specs.Prelude.{◌≡◌};
ghost use Rattle.std.specs.List.{list_any};
ghost use Rattle.std.specs.Str.{bytes_eq};
ghost use Rattle.expression_types.specs.Fields.{are_different as differ};

use flume_value::Str;

/// Whether no name stands twice.
pub fn are_different(names: &[Str]) -> bool
    ensures { result ≡ differ names.now }
{
    for i in 0..names.len() {
        if is_among(&names[i], &names[i + 1..]) {
            return false;
        }
    }
    true
}

fn is_among(name: &Str, names: &[Str]) -> bool
    ensures { result ≡ list_any (bytes_eq name.now) names.now }
{
    for other in names {
        if name.is(other.as_bytes()) {
            return true;
        }
    }
    false
}
