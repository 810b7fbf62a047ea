// The combiner that a script writes, and the type of what it makes of a list.
ghost use Rattle.std.specs.Prelude.{◌≡◌, ◌<◌, length, IfOk};
ghost use Rattle.type_table.specs.Table.{type_at, tree_of, IsWithin, Extends};
ghost use Rattle.script_program.specs.of_written_types.Answer.{Gives, or_fault};
ghost use Rattle.script_rules.specs.Operations as spec;

use crate::top::top_number;
use combine_table::Comb;
use flume_grammar::{Combiner, ScriptFault, ScriptKind};
use script_program::written_types::refused;
use script_state::State;
use type_table::{Shape, TypeId};

/// The combiner that is written.
pub fn comb_of(line: u32, combiner: &Combiner) -> Result<Comb, ScriptFault>
    ensures { Gives (λ by. by) result (spec.comb_for line combiner.now) }
{
    match combiner {
        Combiner::Sum => Ok(Comb::Sum),
        Combiner::Count => Ok(Comb::Count),
        Combiner::Min => Ok(Comb::Min),
        Combiner::Max => Ok(Comb::Max),
        Combiner::All => Ok(Comb::All),
        Combiner::Any => Ok(Comb::Any),
        Combiner::Top(digits) => {
            let number = top_number(line, digits)?;
            Ok(Comb::Top(number))
        }
        Combiner::Mean => Ok(Comb::Mean),
        Combiner::Distinct => Ok(Comb::Distinct),
    }
}

/// The type of what a combiner makes of a list of members of a type that suits it.
pub fn combined(
    line: u32,
    by: Comb,
    member: TypeId,
    state: &mut State,
) -> Result<TypeId, ScriptFault>
    requires { member < length state.old.types }
    ensures gives { Gives (type_at state.new.types) result (or_fault line ScriptKind.Mistyped
        (spec.combined_type by (type_at state.old.types member))) }
    ensures within { IfOk result (λ id. id < length state.new.types) }
    ensures extends { Extends state.old.types state.new.types }
    ensures state { state.new.state ≡ state.old.state }
{
    match by {
        Comb::Sum => only(line, Shape::Int, member, state),
        Comb::Count => Ok(state.intern(Shape::Int)?),
        Comb::Min => Ok(member),
        Comb::Max => Ok(member),
        Comb::All => only(line, Shape::Bool, member, state),
        Comb::Any => only(line, Shape::Bool, member, state),
        Comb::Top(_) => Ok(state.intern(Shape::List(member))?),
        Comb::Mean => only(line, Shape::Int, member, state),
        Comb::Distinct => Ok(state.intern(Shape::List(member))?),
    }
}

/// The type that a shape stands for, where the members have it.
fn only(line: u32, shape: Shape, member: TypeId, state: &mut State) -> Result<TypeId, ScriptFault>
    requires shape { IsWithin (length state.old.types) shape }
    requires member { member < length state.old.types }
    ensures gives { Gives (type_at state.new.types) result (or_fault line ScriptKind.Mistyped
        (spec.type_where_same (tree_of state.old.types shape) (type_at state.old.types member))) }
    ensures within { IfOk result (λ id. id < length state.new.types) }
    ensures extends { Extends state.old.types state.new.types }
    ensures state { state.new.state ≡ state.old.state }
{
    let wanted = state.intern(shape)?;
    if state.types().same(member, wanted) {
        Ok(wanted)
    } else {
        Err(refused(line, ScriptKind::Mistyped))
    }
}
