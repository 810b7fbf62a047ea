// What holds of calls of checked functions, and of each form of statement.
ghost use Rattle.std.specs.Prelude.{◌≡◌, ℕ, List, length, Ok};
ghost use Rattle.flume_value.specs.declared.value.Value.{Value as Value_};
ghost use Rattle.flume_types.specs.declared.types.Ty.{Ty as Ty_};
ghost use Rattle.flume_types.specs.Typing.{Has};
ghost use Rattle.flume_grammar.specs.declared.tree.Body.{Body as Body_, out-Body};
ghost use Rattle.dofn_eval.specs.Answer.{HasAnswer};
ghost use Rattle.expression_check.specs.of_written_types.Named.{Named};
ghost use Rattle.expression_check.specs.of_expression_types.Sight.{Sight};
ghost use Rattle.body_check.specs.Bodies.{layer_after, sight_after, body_of};
ghost use Rattle.body_check.specs.Call.{NameState, layer_emitted, emitted_in, means};

/// A call of a function whose body keeps the rules, on a value of its argument's type, has an
/// answer: what it emits to each output, of that output's type, or its trap.
pub fn call_law()
    ensures { (known : Named Ty_) (argument : List ℕ) (takes : Ty_) (gives : List Ty_)
        (body : List Body_) (x : Value_) →
        body_of known argument takes gives body ≡ Ok tt → Has takes x →
        HasAnswer gives (means known (length gives) argument takes body x) }
{}

/// The rules and the meaning of a statement: the equation of each form.
pub fn statement_law()
    ensures rules { (gives : List Ty_) (b : Body_) (s : Sight) →
        sight_after gives b s ≡ layer_after gives (sight_after gives) (out-Body b) s }
    ensures meaning { (known : Named Ty_) (b : Body_) (s : NameState) →
        emitted_in known b s ≡ layer_emitted known (emitted_in known) (out-Body b) s }
{}
