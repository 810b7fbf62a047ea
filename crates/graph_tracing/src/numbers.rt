// The numbers that nodes have where what comes of two takes the lesser one.
ghost use Rattle.std.specs.Prelude.{◌≡◌, ◌≢◌, ◌==◌, ◌++◌, ◌∷◌, [], ℕ, cond, OnOk};
ghost use Rattle.graph_rewrites.specs.declared.rewrite.Rewrite.TheVariants as rewrite;
ghost use Rattle.pass_rewrites.specs.of_fuse_chain.Numbers.{numbers_after_kid};
ghost use Rattle.graph_tracing.specs.inner.Numbers.{KeepsAll, number_in};

use flume_value::Pile;
use graph_joining::Kid;
use graph_rewrites::Rewrite;
use std::alloc::AllocError;
use std::collections::HashMap;

/// The number that a node has: its own, where the table does not tell another.
pub(crate) fn number_of(number: u32, numbers: &HashMap<u32, u32>) -> u32
    ensures { result ≡ number_in numbers.now number }
{
    match numbers.get(&number) {
        Some(other) => *other,
        None => number,
    }
}

/// Notes the kid under the numbers that its Pdos have; of these the keeper takes the lesser one
/// then, and the reader the other.
pub(crate) fn note_kid(
    kid: Kid,
    numbers: &mut HashMap<u32, u32>,
    rewrites: &mut Pile<Rewrite>,
) -> Result<(), AllocError>
    requires keeps { KeepsAll (number_in numbers.old) }
    requires apart { kid.keeper ≢ kid.reader }
    ensures rewrites { OnOk result (rewrites.new ≡ rewrites.old
        ++ rewrite.Kid (number_in numbers.old kid.keeper) kid.output
        (number_in numbers.old kid.reader) ∷ []) }
    ensures numbers { OnOk result ((n : ℕ) → number_in numbers.new n
        ≡ numbers_after_kid (number_in numbers.old) kid.keeper kid.reader n) }
{
    rewrites.push(Rewrite::Kid {
        keeper: number_of(kid.keeper, numbers),
        output: kid.output,
        reader: number_of(kid.reader, numbers),
    })?;
    take_lesser(kid.keeper, kid.reader, numbers)?;
    Ok(())
}

/// The Pdo `keeper` takes the lesser of both numbers, and `reader` the other.
fn take_lesser(keeper: u32, reader: u32, numbers: &mut HashMap<u32, u32>) -> Result<(), AllocError>
    requires keeps { KeepsAll (number_in numbers.old) }
    requires apart { keeper ≢ reader }
    ensures { OnOk result ((n : ℕ) → number_in numbers.new n
        ≡ numbers_after_kid (number_in numbers.old) keeper reader n) }
{
    let stays = number_of(keeper, numbers);
    let goes = number_of(reader, numbers);
    if goes < stays {
        exchange(keeper, goes, reader, stays, numbers)?;
    }
    Ok(())
}

/// Both nodes get these numbers.
fn exchange(
    keeper: u32,
    goes: u32,
    reader: u32,
    stays: u32,
    numbers: &mut HashMap<u32, u32>,
) -> Result<(), AllocError>
    ensures { OnOk result ((n : ℕ) → number_in numbers.new n
        ≡ cond (n == reader) stays (cond (n == keeper) goes (number_in numbers.old n))) }
{
    numbers.insert(keeper, goes)?;
    numbers.insert(reader, stays)?;
    Ok(())
}
