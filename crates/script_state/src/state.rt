// What the statements of a script so far define, which takes one definition more at a time.
mod body;

ghost use Rattle.std.specs.Prelude.{◌≡◌, ◌≤◌, ◌<◌, [], length, map, false, is_some, IfOk, IfSome};
ghost use Rattle.std.specs.Prelude.{◌-◌, ◌^◌, OnOk};
ghost use Rattle.std.specs.Option.{option_map};
ghost use Rattle.flume_types.specs.Tables.{table_of};
ghost use Rattle.type_table.specs.Table.{type_at, tree_of, IsWithin, Extends};
ghost use Rattle.body_check.specs.of_written_types.Answer.{Gives};
ghost use Rattle.body_check.specs.of_written_types.Named.{find};
ghost use Rattle.body_check.specs.of_written_types.Written.{whole_type as whole};
ghost use Rattle.script_program.specs.Program.{signature_in, HasTypes, making_in, DoesAsWritten};
ghost use Rattle.body_check.specs.Bodies.{body_of};
ghost use Rattle.script_program.specs.Script as spec;
ghost use Rattle.script_state.specs.Held.{operand_in, callee_in};

use crate::operand::{Callee, Operand};
use body_check::check_body;
use body_check::written_types::{TypeNames, table, whole_type};
use dofn_eval::Fun;
use flume_grammar::{Body, Function as Written, ScriptFault, Type};
use flume_value::{Pile, Str};
use indexmap::IndexMap;
use script_program::{Function, Making, Node, Output, Program, Signature, Standing, needed_flags};
use std::alloc::{AllocError, Global};
use std::marker::Model;
use type_table::{Shape, TypeId, Types};

/// What the statements so far define. Contracts see it over types as trees.
#[derive(Drop)]
pub struct State {
    known: TypeNames,
    functions: IndexMap<Str, Function>,
    nodes: Pile<(Str, Node)>,
    names: IndexMap<Str, Standing>,
    outputs: IndexMap<Str, Output>,
    statements: usize,
}

impl Model for State {
    ghost use Rattle.std.specs.Coded.{codes};
    ghost use Rattle.flume_types.specs.contracts.types.Ty as coded_types;
    ghost use Rattle.flume_grammar.specs.contracts.tree.Body as coded_bodies;
    ghost use Rattle.script_program.specs.contracts.made.Made as coded_made;
    ghost use Rattle.script_program.specs.contracts.made.Output as coded_outputs;
    ghost use Rattle.script_program.specs.contracts.made.Standing as coded_standings;
    ghost use Rattle.script_state.specs.Held.{Checking};
    ghost use Rattle.script_state.specs.inner.States.{checking_of};
    ghost use Rattle.script_program.specs.inner.Tables.{AreHeld};

    ghost Value = { Checking };

    ghost coded = { Prim.hlevel (
      codes,
      coded_types.the_row.coded,
      coded_bodies.the_row.coded,
      coded_made.the_row.coded,
      coded_outputs.the_row.coded,
      coded_standings.the_row.coded,
    ) };

    ghost view = { λ state.
        checking_of state.known state.functions.entries state.nodes state.names.entries
        state.outputs.entries state.statements };

    ghost invariant = { λ state.
        AreHeld state.known state.functions.entries state.nodes };
}

impl State {
    /// Nothing is defined.
    pub fn new(alloc: Global) -> State
        ensures types { result.types ≡ [] }
        ensures state { result.state ≡ spec.empty_state }
    {
        State {
            known: TypeNames::new(alloc),
            functions: IndexMap::new(alloc),
            nodes: Pile::new(alloc),
            names: IndexMap::new(alloc),
            outputs: IndexMap::new(alloc),
            statements: 0,
        }
    }

    /// The program that the statements define.
    pub fn into_program(self, alloc: Global) -> Result<Program, AllocError>
        ensures { IfOk result (λ program. program.script ≡ spec.script_from self.state) }
    {
        match needed_flags(alloc, self.nodes.as_slice(), &self.outputs) {
            Ok(needed) => {
                let State {
                    known,
                    functions,
                    nodes,
                    names,
                    outputs,
                    statements: _statements,
                } = self;
                drop(names);
                Ok(Program::new(known, functions, nodes, outputs, needed))
            }
            Err(fault) => {
                drop(self);
                Err(fault)
            }
        }
    }

    // ---- types

    /// The types under numbers.
    pub fn types(&self) -> &Types
        ensures { result.now ≡ self.now.types }
    {
        self.known.types()
    }

    /// The number of the type that a shape stands for. Nothing else changes.
    #[tactic(auto, using(crate::proofs::StateLemmas::grown))]
    pub fn intern(&mut self, shape: Shape) -> Result<TypeId, AllocError>
        requires { IsWithin (length self.old.types) shape }
        ensures within { IfOk result (λ id. id < length self.new.types) }
        ensures ok { IfOk result (λ id. type_at self.new.types id ≡ tree_of self.old.types shape) }
        ensures extends { Extends self.old.types self.new.types }
        ensures state { self.new.state ≡ self.old.state }
    {
        self.known.intern(shape)
    }

    /// The number of the type of a table's elements. Nothing else changes.
    #[tactic(auto, using(crate::proofs::StateLemmas::grown))]
    pub fn table(&mut self, alloc: Global, key: TypeId, value: TypeId) -> Result<TypeId, AllocError>
        requires key_in { key < length self.old.types }
        requires value_in { value < length self.old.types }
        ensures within { IfOk result (λ id. id < length self.new.types) }
        ensures ok { IfOk result (λ id. type_at self.new.types id
            ≡ table_of (type_at self.old.types key) (type_at self.old.types value)) }
        ensures extends { Extends self.old.types self.new.types }
        ensures state { self.new.state ≡ self.old.state }
    {
        table(alloc, key, value, &mut self.known)
    }

    /// The number of the type that is written. Nothing else changes.
    #[tactic(auto, using(crate::proofs::StateLemmas::grown))]
    pub fn whole_type(&mut self, alloc: Global, line: u32, ty: &Type) -> Result<TypeId, ScriptFault>
        ensures gives { Gives (type_at self.new.types) result
            (whole line ty.now self.old.state.types) }
        ensures within { IfOk result (λ id. id < length self.new.types) }
        ensures extends { Extends self.old.types self.new.types }
        ensures state { self.new.state ≡ self.old.state }
    {
        whole_type(alloc, line, ty, &mut self.known)
    }

    /// A function with slots in place of the names of its body, or its first fault. Nothing else
    /// changes.
    #[tactic(auto, using(crate::proofs::StateLemmas::grown))]
    pub fn fun_of(
        &mut self,
        alloc: Global,
        function: &Written,
        signature: &Signature,
    ) -> Result<Fun, ScriptFault>
        requires within { HasTypes self.old.types signature.now }
        requires some { 1 ≤ length signature.now.gives }
        requires most { length signature.now.gives ≤ 8 }
        ensures gives { Gives (λ _. tt) result (body_of self.old.state.types
            function.now.argument (type_at self.old.types signature.now.takes)
            (map (type_at self.old.types) signature.now.gives) function.now.body) }
        ensures does { IfOk result (λ fun. DoesAsWritten fun (spec.function_from function.now
            (signature_in self.old.types signature.now) self.old.state)) }
        ensures signature { signature_in self.new.types signature.now
            ≡ signature_in self.old.types signature.now }
        ensures extends { Extends self.old.types self.new.types }
        ensures state { self.new.state ≡ self.old.state }
    {
        let argument = &function.argument;
        let body = function.body.as_slice();
        let takes = signature.takes;
        let gives = signature.gives.as_slice();
        check_body(alloc, &mut self.known, argument, takes, gives, body)
    }

    // ---- what names stand for

    /// Whether a name stands for a type.
    pub fn has_type(&self, name: &Str) -> bool
        ensures { result ≡ is_some (find name.now self.now.state.types) }
    {
        self.known.named(name).is_some()
    }

    /// Whether a name stands for a function.
    pub fn has_function(&self, name: &Str) -> bool
        ensures { result ≡ is_some (find name.now self.now.state.functions) }
    {
        self.functions.contains_key(name)
    }

    /// Whether a name is taken among those of collections.
    pub fn has_name(&self, name: &Str) -> bool
        ensures { result ≡ is_some (find name.now self.now.state.names) }
    {
        self.names.contains_key(name)
    }

    /// Whether a collection is written to a file.
    pub fn has_output(&self, file: &Str) -> bool
        ensures { result ≡ is_some (find file.now self.now.state.outputs) }
    {
        self.outputs.contains_key(file)
    }

    /// The function of a name.
    pub fn function(&self, name: &Str) -> Option<Callee<'_>>
        ensures ok { option_map (callee_in self.now.types) result
            ≡ spec.find_function name.now self.now.state.functions }
        ensures within { IfSome result (λ callee. HasTypes self.now.types callee.signature.now) }
    {
        let (number, _, function) = self.functions.get_full(name)?;
        Some(Callee {
            number,
            signature: &function.signature,
        })
    }

    /// The collection of a name.
    pub fn node(&self, name: &Str) -> Option<Operand>
        ensures ok { option_map (operand_in self.now.types) result
            ≡ spec.find_node name.now self.now.state }
        ensures within { IfSome result (λ operand. operand.ty < length self.now.types) }
    {
        match self.names.get(name)? {
            Standing::Collection(number) => self.operand(*number),
            Standing::Hidden => None,
        }
    }

    /// The collection of a number, where there is one.
    fn operand(&self, number: usize) -> Option<Operand>
        ensures ok { option_map (operand_in self.now.types) result
            ≡ spec.operand_at self.now.state.nodes number }
        ensures within { IfSome result (λ operand. operand.ty < length self.now.types) }
    {
        let (_, node) = self.nodes.get(number)?;
        Some(Operand {
            number,
            ty: node.ty,
            is_object: node.made.gives_object(),
        })
    }

    /// How many functions there are.
    pub fn function_count(&self) -> usize
        ensures { result ≡ length self.now.state.functions }
    {
        self.functions.len()
    }

    /// How many names of collections are taken.
    pub fn name_count(&self) -> usize
        ensures { result ≡ length self.now.state.names }
    {
        self.names.len()
    }

    /// How many collections there are.
    pub fn node_count(&self) -> usize
        ensures { result ≡ length self.now.state.nodes }
    {
        self.nodes.len()
    }

    /// How many outputs there are.
    pub fn output_count(&self) -> usize
        ensures { result ≡ length self.now.state.outputs }
    {
        self.outputs.len()
    }

    // ---- one more

    /// Lets a name that stands for no type yet stand for one.
    pub fn add_type(&mut self, name: Str, id: TypeId) -> Result<(), AllocError>
        requires new { is_some (find name self.old.state.types) ≡ false }
        requires within { id < length self.old.types }
        ensures state { OnOk result (self.new.state
            ≡ spec.with_named_type name (type_at self.old.types id) self.old.state) }
        ensures types { self.new.types ≡ self.old.types }
    {
        self.known.add(name, id)?;
        Ok(())
    }

    /// A function more, under a name that stands for none yet.
    pub fn add_function(
        &mut self,
        function: Written,
        signature: Signature,
        fun: Fun,
    ) -> Result<(), AllocError>
        requires new { is_some (find function.name self.old.state.functions) ≡ false }
        requires within { HasTypes self.old.types signature }
        requires does { DoesAsWritten fun (spec.function_from function
            (signature_in self.old.types signature) self.old.state) }
        ensures state { OnOk result (self.new.state ≡ spec.with_function function.name
            (spec.function_from function (signature_in self.old.types signature) self.old.state)
            self.old.state) }
        ensures types { self.new.types ≡ self.old.types }
    {
        let type_names = self.known.name_count();
        let Written {
            name,
            argument,
            takes,
            gives,
            more,
            scale: _scale,
            body,
        } = function;
        drop(takes);
        drop(gives);
        drop(more);
        let function = Function {
            type_names,
            argument,
            signature,
            body,
            fun,
        };
        drop(self.functions.insert(name, function)?);
        Ok(())
    }

    /// A collection more, which this statement makes, under a name that is not taken yet.
    pub fn add_node(&mut self, alloc: Global, name: Str, making: Making) -> Result<(), AllocError>
        requires new { is_some (find name self.old.state.names) ≡ false }
        requires within { making.ty < length self.old.types }
        ensures state { OnOk result (self.new.state
            ≡ spec.with_node name (making_in self.old.types making) self.old.state) }
        ensures types { self.new.types ≡ self.old.types }
    {
        let number = self.nodes.len();
        let key = match name.copy(alloc) {
            Ok(key) => key,
            Err(fault) => {
                drop(name);
                drop(making);
                return Err(fault);
            }
        };
        let Making { made, ty } = making;
        let node = Node {
            made,
            ty,
            statement: self.statements,
        };
        self.nodes.push((name, node))?;
        self.names.insert(key, Standing::Collection(number))?;
        Ok(())
    }

    /// An output more, to a file to which nothing is written yet.
    pub fn add_output(&mut self, file: Str, output: Output) -> Result<(), AllocError>
        requires { is_some (find file self.old.state.outputs) ≡ false }
        ensures state { OnOk result (self.new.state
            ≡ spec.with_output file output self.old.state) }
        ensures types { self.new.types ≡ self.old.types }
    {
        drop(self.outputs.insert(file, output)?);
        Ok(())
    }

    /// Ends a statement: what is defined from here on is made by the next one.
    pub fn end_statement(&mut self)
        requires { self.old.state.statements < 2 ^ 64 - 1 }
        ensures state { self.new.state ≡ spec.with_statement self.old.state }
        ensures types { self.new.types ≡ self.old.types }
    {
        self.statements += 1;
    }
}
