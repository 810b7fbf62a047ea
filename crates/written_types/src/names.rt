// The types that are known: under numbers, and some of them by name.
ghost use Rattle.std.specs.Prelude.{◌≡◌, ◌<◌, ◌++◌, ◌∷◌, [], length, None, IfOk, IfSome, OnOk, OnErr};
ghost use Rattle.std.specs.Option.{option_map};
ghost use Rattle.type_table.specs.Table.{type_at, tree_of, IsWithin, Extends};
ghost use Rattle.written_types.specs.Named.{find};

use flume_value::Str;
use indexmap::IndexMap;
use std::alloc::{AllocError, Global};
use std::marker::Model;
use type_table::{Shape, TypeId, Types};

/// Types under numbers, and names for some of them.
#[derive(Drop)]
pub struct TypeNames {
    types: Types,
    names: IndexMap<Str, TypeId>,
}

impl Model for TypeNames {
    ghost use Rattle.std.specs.Coded.{codes};
    ghost use Rattle.flume_types.specs.contracts.types.Ty as coded_types;
    ghost use Rattle.written_types.specs.Known.{Known};
    ghost use Rattle.written_types.specs.inner.Held.{known_of, AreHeld};

    ghost Value = { Known };

    ghost coded = { Prim.hlevel (codes, coded_types.the_row.coded) };

    ghost view = { λ known. known_of known.types known.names.entries };

    ghost invariant = { λ known. AreHeld known.types known.names.entries };
}

impl TypeNames {
    /// No types and no names.
    pub fn new(alloc: Global) -> TypeNames
        ensures types { result.types ≡ [] }
        ensures names { result.names ≡ [] }
    {
        TypeNames {
            types: Types::new(alloc),
            names: IndexMap::new(alloc),
        }
    }

    /// The types under numbers.
    pub fn types(&self) -> &Types
        ensures { result.now ≡ self.now.types }
    {
        &self.types
    }

    /// The number of the type that a shape stands for. Every name keeps its type.
    pub fn intern(&mut self, shape: Shape) -> Result<TypeId, AllocError>
        requires { IsWithin (length self.old.types) shape }
        ensures within { IfOk result (λ id. id < length self.new.types) }
        ensures ok { IfOk result (λ id. type_at self.new.types id ≡ tree_of self.old.types shape) }
        ensures extends { Extends self.old.types self.new.types }
        ensures names { self.new.names ≡ self.old.names }
    {
        self.types.intern(shape)
    }

    /// The type that a name stands for.
    pub fn named(&self, name: &Str) -> Option<TypeId>
        ensures ok { option_map (type_at self.now.types) result ≡ find name.now self.now.names }
        ensures within { IfSome result (λ id. id < length self.now.types) }
    {
        let id = self.names.get(name)?;
        Some(*id)
    }

    /// How many names stand for types.
    pub fn name_count(&self) -> usize
        ensures { result ≡ length self.now.names }
    {
        self.names.len()
    }

    /// Lets a name that stands for nothing yet stand for a type.
    pub fn add(&mut self, name: Str, id: TypeId) -> Result<(), AllocError>
        requires new { find name self.old.names ≡ None }
        requires within { id < length self.old.types }
        ensures names { OnOk result
            (self.new.names ≡ self.old.names ++ (name, type_at self.old.types id) ∷ []) }
        ensures err { OnErr result (self.new.names ≡ self.old.names) }
        ensures types { self.new.types ≡ self.old.types }
    {
        self.names.insert(name, id)?;
        Ok(())
    }
}
