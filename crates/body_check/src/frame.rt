// What is in sight of a statement, and what its function emits.
#![tactic(auto, using(crate::proofs::FrameLemmas::frame_rules))]

ghost use Rattle.std.specs.Prelude.{◌≡◌, ◌<◌, ◌≤◌, ◌-◌, None, length, map, drop, slice_get};
ghost use Rattle.std.specs.Prelude.{is_some, IfOk, IfSome, OnOk};
ghost use Rattle.std.specs.Option.{option_map};
ghost use Rattle.expression_check.specs.of_type_table.Table.{type_at, Extends};
ghost use Rattle.expression_check.specs.of_written_types.Answer.{Gives};
ghost use Rattle.expression_check.specs.of_written_types.Named.{find};
ghost use Rattle.expression_check.specs.of_expression_types.Sight.{with_name};
ghost use Rattle.expression_check.specs.Slots.{slots_of, slots_typed};
ghost use Rattle.expression_check.specs.of_expression_types.Held.{AreTypes};

use expression_check::expression_types::Scope;
use expression_check::type_table::{TypeId, Types};
use expression_check::{Typed, resolve};
use flume_grammar::{Expr, ScriptFault};
use flume_value::Str;
use std::alloc::{AllocError, Global};
use std::marker::Model;

/// What is in sight of a statement, and the types of what the function emits to its outputs.
#[derive(Drop)]
pub struct Frame<'a> {
    scope: Scope,
    gives: &'a [TypeId],
}

impl<'a> Model for Frame<'a> {
    ghost use Rattle.std.specs.Prelude.{◌≤◌, length};
    ghost use Rattle.expression_check.specs.of_expression_types.Held.{AreTypes};
    ghost use Rattle.std.specs.Coded.{codes};
    ghost use Rattle.flume_types.specs.contracts.types.Ty as coded_types;
    ghost use Rattle.body_check.specs.inner.Frames.{InBody, in_body};

    ghost Value = { InBody };

    ghost coded = { Prim.hlevel (codes, coded_types.the_row.coded) };

    ghost view = { λ f. in_body f.scope f.gives.now };

    ghost invariant = { λ f. AreTypes (length f.scope.types) f.gives.now
        × (length f.gives.now ≤ 8) };
}

impl<'a> Frame<'a> {
    /// A function that emits values of these types, one for each output.
    pub fn new(scope: Scope, gives: &'a [TypeId]) -> Frame<'a>
        requires gives { AreTypes (length scope.types) gives.now }
        requires most { length gives.now ≤ 8 }
        ensures types { result.types ≡ scope.types }
        ensures sight { result.sight ≡ scope.sight }
        ensures emits { result.gives ≡ map (type_at scope.types) gives.now }
    {
        Frame { scope, gives }
    }

    /// What is in sight.
    pub fn into_scope(self) -> Scope
        ensures types { result.types ≡ self.entry.types }
        ensures sight { result.sight ≡ self.entry.sight }
    {
        let Frame { scope, gives: _ } = self;
        scope
    }

    /// The types under numbers.
    pub fn types(&self) -> &Types
        ensures { result.now ≡ self.now.types }
    {
        self.scope.types()
    }

    /// How many outputs the function has.
    pub fn outputs(&self) -> u32
        ensures { result ≡ length self.now.gives }
    {
        self.gives.len() as u32
    }

    /// The type of what the function emits to the output of this number, if there is one.
    pub fn output(&self, output: usize) -> Option<TypeId>
        ensures found { option_map (type_at self.now.types) result
            ≡ slice_get self.now.gives output }
        ensures within { IfSome result (λ id. id < length self.now.types) }
    {
        match self.gives.get(output) {
            Some(id) => Some(*id),
            None => None,
        }
    }

    /// The expression with slots in place of names, and its type; or its first fault.
    pub fn resolve(&mut self, alloc: Global, line: u32, e: &Expr) -> Result<Typed, ScriptFault>
        ensures gives { Gives (slots_typed self.new.types) result
            (slots_of line e.now self.old.sight) }
        ensures within { IfOk result (λ made. made.ty < length self.new.types) }
        ensures extends { Extends self.old.types self.new.types }
        ensures sight { self.new.sight ≡ self.old.sight }
        ensures emits { self.new.gives ≡ self.old.gives }
    {
        resolve(alloc, line, e, &mut self.scope)
    }

    /// Whether a name is in sight.
    pub fn has(&self, name: &Str) -> bool
        ensures { result ≡ is_some (find name.now self.now.sight.names) }
    {
        self.scope.has(name)
    }

    /// How many names are in sight.
    pub fn len(&self) -> usize
        ensures { result ≡ length self.now.sight.names }
    {
        self.scope.len()
    }

    /// One name more, by a copy of it.
    pub fn add(&mut self, alloc: Global, name: &Str, id: TypeId) -> Result<(), AllocError>
        requires new { find name.now self.old.sight.names ≡ None }
        requires within { id < length self.old.types }
        ensures types { self.new.types ≡ self.old.types }
        ensures known { self.new.sight.known ≡ self.old.sight.known }
        ensures sight { OnOk result
            (self.new.sight ≡ with_name name.now (type_at self.old.types id) self.old.sight) }
        ensures emits { self.new.gives ≡ self.old.gives }
    {
        let name = name.copy(alloc)?;
        self.scope.add(name, id)
    }

    /// Leaves so many names in sight, the oldest.
    pub fn leave(&mut self, len: usize)
        ensures types { self.new.types ≡ self.old.types }
        ensures known { self.new.sight.known ≡ self.old.sight.known }
        ensures names { self.new.sight.names
            ≡ drop (length self.old.sight.names - len) self.old.sight.names }
        ensures emits { self.new.gives ≡ self.old.gives }
    {
        self.scope.leave(len);
    }
}
