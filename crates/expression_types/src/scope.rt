// The names in sight of an expression, of types and of values.
ghost use Rattle.std.specs.Prelude.{◌≡◌, ◌<◌, ◌-◌, [], None, length, drop, is_some, IfOk, IfSome, OnOk};
ghost use Rattle.type_table.specs.Table.{type_at, tree_of, IsWithin, Extends};
ghost use Rattle.written_types.specs.Answer.{Gives};
ghost use Rattle.written_types.specs.Named.{find};
ghost use Rattle.written_types.specs.Written as spec;
ghost use Rattle.expression_types.specs.Sight.{with_name};
ghost use Rattle.expression_types.specs.Places.{place_in, place_found};

use flume_grammar::{ScriptFault, Type};
use flume_value::Str;
use indexmap::IndexMap;
use std::alloc::{AllocError, Global};
use std::marker::Model;
use type_table::{Shape, TypeId, Types};
use written_types::{TypeNames, whole_type};

/// What is in sight: the names of types, and the names of values with their types.
#[derive(Drop)]
pub struct Scope {
    known: TypeNames,
    names: IndexMap<Str, TypeId>,
}

/// Where a name or a field stands, and its type.
#[derive(Clone, Copy)]
pub struct Found {
    /// How many newer names there are, or fields before it.
    pub place: usize,
    pub ty: TypeId,
}

impl Model for Scope {
    ghost use Rattle.std.specs.Coded.{codes};
    ghost use Rattle.flume_types.specs.contracts.types.Ty as coded_types;
    ghost use Rattle.expression_types.specs.Held.{InSight, in_sight, AreInSight};

    ghost Value = { InSight };

    ghost coded = { Prim.hlevel (codes, coded_types.the_row.coded) };

    ghost view = { λ s. in_sight s.known s.names.entries };

    ghost invariant = { λ s. AreInSight s.known.types s.names.entries };
}

impl Scope {
    /// No names of values.
    pub fn new(alloc: Global, known: TypeNames) -> Scope
        ensures types { result.types ≡ known.types }
        ensures known { result.sight.known ≡ known.names }
        ensures names { result.sight.names ≡ [] }
    {
        Scope {
            known,
            names: IndexMap::new(alloc),
        }
    }

    /// The names of types.
    pub fn into_known(self) -> TypeNames
        ensures types { result.types ≡ self.types }
        ensures names { result.names ≡ self.sight.known }
    {
        let Scope { known, names: _ } = self;
        known
    }

    /// The types under numbers.
    pub fn types(&self) -> &Types
        ensures { result.now ≡ self.now.types }
    {
        self.known.types()
    }

    /// The number of the type that a shape stands for. Every name keeps its type.
    pub fn intern(&mut self, shape: Shape) -> Result<TypeId, AllocError>
        requires { IsWithin (length self.old.types) shape }
        ensures within { IfOk result (λ id. id < length self.new.types) }
        ensures ok { IfOk result (λ id. type_at self.new.types id ≡ tree_of self.old.types shape) }
        ensures extends { Extends self.old.types self.new.types }
        ensures sight { self.new.sight ≡ self.old.sight }
    {
        self.known.intern(shape)
    }

    /// The type that is written. Every name keeps its type.
    pub fn written(&mut self, alloc: Global, line: u32, ty: &Type) -> Result<TypeId, ScriptFault>
        ensures gives { Gives (type_at self.new.types) result
            (spec.whole_type line ty.now self.old.sight.known) }
        ensures within { IfOk result (λ id. id < length self.new.types) }
        ensures extends { Extends self.old.types self.new.types }
        ensures sight { self.new.sight ≡ self.old.sight }
    {
        whole_type(alloc, line, ty, &mut self.known)
    }

    /// Where the newest of a name stands, and its type.
    pub fn find(&self, name: &Str) -> Option<Found>
        ensures ok { place_found self.now.types result ≡ place_in name.now self.now.sight.names }
        ensures within { IfSome result (λ at. at.ty < length self.now.types) }
    {
        match self.names.get_full(name) {
            Some((at, _, ty)) => Some(Found {
                place: self.names.len() - 1 - at,
                ty: *ty,
            }),
            None => None,
        }
    }

    /// Whether a name is in sight.
    pub fn has(&self, name: &Str) -> bool
        ensures { result ≡ is_some (find name.now self.now.sight.names) }
    {
        self.find(name).is_some()
    }

    /// How many names of values are in sight.
    pub fn len(&self) -> usize
        ensures { result ≡ length self.now.sight.names }
    {
        self.names.len()
    }

    /// One name of a value more.
    pub fn add(&mut self, name: Str, id: TypeId) -> Result<(), AllocError>
        requires new { find name self.old.sight.names ≡ None }
        requires within { id < length self.old.types }
        ensures types { self.new.types ≡ self.old.types }
        ensures known { self.new.sight.known ≡ self.old.sight.known }
        ensures sight { OnOk result
            (self.new.sight ≡ with_name name (type_at self.old.types id) self.old.sight) }
    {
        self.names.insert(name, id)?;
        Ok(())
    }

    /// Leaves so many names of values in sight, the oldest.
    pub fn leave(&mut self, len: usize)
        ensures types { self.new.types ≡ self.old.types }
        ensures known { self.new.sight.known ≡ self.old.sight.known }
        ensures names { self.new.sight.names
            ≡ drop (length self.old.sight.names - len) self.old.sight.names }
    {
        self.names.truncate(len);
    }
}
