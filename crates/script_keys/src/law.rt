// What a key does not depend on.
ghost use Rattle.std.specs.Prelude.{◌≡◌, List, ℕ};
ghost use Rattle.outside.specs.declared.file.File.{File as NamedBytes};
ghost use Rattle.script_keys.specs.Keys as spec;
ghost use Rattle.script_keys.specs.declared.outline.Outline.{Outline as Lined};
ghost use Rattle.script_keys.specs.declared.parts.KeyPart.{KeyPart as Part};

/// The key of a collection depends on what it rests on alone.
pub fn key_law()
    // The texts of statements that do not belong to it have no part in it,
    ensures texts { (name : List ℕ) (outlines : List Lined) (texts more : List (List ℕ)) →
        spec.AreSameWhereBelonging name outlines texts more →
        spec.key_parts_from name outlines texts ≡ spec.key_parts_from name outlines more }
    // nor have the files that none of its parts names.
    ensures files { (name : List ℕ) (parts : List Part) (files others : List NamedBytes) →
        spec.AreSameFiles files others parts →
        spec.collection_key files parts name ≡ spec.collection_key others parts name }
{}
