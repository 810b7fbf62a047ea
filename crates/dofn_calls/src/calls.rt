// A call of a function: what it emits to each output, or its trap.
ghost use Rattle.std.specs.Prelude.{◌≡◌, List, IfOk, IfErr};
ghost use Rattle.flume_types.specs.declared.types.Ty.{Ty as Ty_};
ghost use Rattle.flume_types.specs.Typing.{Has};
ghost use Rattle.dofn_eval.specs.Outcome.{Gives, IsFaultIn};
ghost use Rattle.dofn_eval.specs.Run.{slots_mean};
ghost use Rattle.dofn_eval.specs.Answer.{OutputsHave};
ghost use Rattle.dofn_eval.specs.Function.{FunTyped, CanBeCalledOn};

use crate::lists::Lists;
use crate::scope::Scope;
use crate::statements::run_block;
use dofn_eval::Fun;
use flume_value::{CallFault, Value};
use std::alloc::Global;

/// The emissions of a call to each output, in order, or the trap that ends it. A call that traps
/// emits nothing.
pub fn call(alloc: Global, f: &Fun, x: &Value) -> Result<Lists, CallFault>
    requires { CanBeCalledOn f.now x.now }
    ensures ok { IfOk result (λ lists. slots_mean f.now.outputs f.now.body x.now ≡ Gives lists) }
    ensures trap { IfErr result (λ fault.
        IsFaultIn (slots_mean f.now.outputs f.now.body x.now) fault) }
    // At whatever types the function is well typed.
    ensures typed { (takes : Ty_) (gives : List Ty_) → FunTyped takes gives f.now →
        Has takes x.now → IfOk result (λ lists. OutputsHave gives lists) }
{
    let end = Scope::Empty;
    let scope = Scope::Bound(x, &end);
    let mut out = Lists::new(alloc, f.outputs())?;
    run_block(alloc, f.body(), &scope, &mut out)?;
    Ok(out)
}
