// Names in order, in blocks: some come between two others without a move of all behind.
ghost use Rattle.std.specs.Prelude.{◌≡◌, ◌<◌, ◌≤◌, ◌+◌, ◌++◌, length, take, slice_index_or, IfNone, IfOk, IfSome, None, OnOk, OnSome, Some};
ghost use Rattle.graph_joins.specs.Blocks.{names_in};
ghost use Rattle.graph_joins.specs.declared.names.Block.{Block as GhostBlock};
ghost use Rattle.graph_joins.specs.inner.Splices as spec;

use std::alloc::{AllocError, Global};
use std::collections::HashMap;
use std::marker::Model;

/// Names in order. They are in blocks, so that some come between two others, and the place of one
/// is found, without a walk over all names.
#[derive(Drop)]
pub struct Names {
    blocks: Vec<Block>,
    /// The number of the block that a name is in, as a hint: where none is told, it is the first.
    homes: HashMap<u32, usize>,
}

/// Names one behind another.
#[derive(Drop)]
struct Block {
    number: usize,
    names: Vec<u32>,
}

impl Model for Names {
    ghost use Rattle.std.specs.Prelude.{List, ℕ};
    ghost use Rattle.std.specs.Coded.{coded_list, coded_ℕ};

    ghost Value = { List ℕ };

    ghost coded = { coded_list coded_ℕ };

    ghost use Rattle.graph_joins.specs.Blocks.{names_in};

    ghost view = { λ n. names_in n.blocks.items };
}

/// A place: in a block, behind so many of its names.
#[derive(Clone, Copy, Drop)]
struct Spot {
    block: usize,
    behind: usize,
}

/// A block of more names than this becomes two, if it also has more than there are blocks.
const MOST: usize = 128;

impl Names {
    /// These names.
    pub(crate) fn new(alloc: Global, names: Vec<u32>) -> Result<Names, AllocError>
        ensures { IfOk result (λ n. n ≡ names.items) }
    {
        let mut blocks = Vec::new(alloc);
        blocks.push(Block { number: 0, names })?;
        Ok(Names {
            blocks,
            homes: HashMap::new(alloc),
        })
    }

    /// The name at that place, if there is one.
    pub(crate) fn get(&self, at: usize) -> Option<u32>
        ensures within { OnSome result (at < length self.now) }
        ensures value { IfSome result (λ n. n ≡ slice_index_or self.now at n) }
        ensures none { IfNone result (length self.now ≤ at) }
    {
        name_at(self.blocks.as_slice(), at)
    }

    /// The others come behind the name at that place, if there is one, which is then kept or not.
    pub(crate) fn spliced(
        self,
        at: usize,
        keep: bool,
        more: &Names,
    ) -> Result<Option<Names>, AllocError>
        ensures { IfOk result (λ o. o ≡ spec.joined at keep (Some self) (Some more.now)) }
    {
        let Names { blocks, homes } = self;
        match spot_of(blocks.as_slice(), at) {
            Some(spot) => {
                let names = spliced_at(blocks, homes, spot, keep, more.blocks.as_slice())?;
                Ok(Some(names))
            }
            None => Ok(None),
        }
    }

    /// How many names likely stand before that one: a hint, which others test.
    pub fn likely_place(&self, name: u32) -> Option<u32> {
        let home = match self.homes.get(&name) {
            Some(number) => *number,
            None => 0,
        };
        let mut before: usize = 0;
        for block in &self.blocks {
            if block.number == home {
                return place_behind(block.names.as_slice(), name, before);
            }
            before = before.saturating_add(block.names.len());
        }
        None
    }
}

fn place_behind(names: &[u32], name: u32, before: usize) -> Option<u32> {
    for i in 0..names.len() {
        if names[i] == name {
            return u32::try_from(before.saturating_add(i)).ok();
        }
    }
    None
}

// ---- places

fn name_at(blocks: &[Block], at: usize) -> Option<u32>
    ensures within { OnSome result (at < length (names_in blocks.now)) }
    ensures value { IfSome result (λ n. n ≡ slice_index_or (names_in blocks.now) at n) }
    ensures none { IfNone result (length (names_in blocks.now) ≤ at) }
{
    match spot_of(blocks, at) {
        Some(spot) => Some(blocks[spot.block].names[spot.behind]),
        None => None,
    }
}

/// Where the name of that number is, counted from 0 on.
fn spot_of(blocks: &[Block], at: usize) -> Option<Spot>
    ensures block { IfSome result (λ s. s.block < length blocks.now) }
    ensures behind { IfSome result (λ s. (b : GhostBlock) →
        s.behind < length (slice_index_or blocks.now s.block b).names.items) }
    ensures sum { IfSome result (λ s.
        at ≡ length (names_in (take s.block blocks.now)) + s.behind) }
    ensures none { result ≡ None → length (names_in blocks.now) ≤ at }
{
    let mut rest = at;
    for i in 0..blocks.len() {
        let here = blocks[i].names.len();
        if rest < here {
            return Some(Spot {
                block: i,
                behind: rest,
            });
        }
        rest -= here;
    }
    None
}

// ---- more names

fn spliced_at(
    blocks: Vec<Block>,
    homes: HashMap<u32, usize>,
    spot: Spot,
    keep: bool,
    more: &[Block],
) -> Result<Names, AllocError>
    requires block { spot.block < length blocks.items }
    requires behind { (b : GhostBlock) →
        spot.behind < length (slice_index_or blocks.items spot.block b).names.items }
    ensures { IfOk result (λ n. n ≡ spec.spliced_at
        (length (names_in (take spot.block blocks.items)) + spot.behind) keep (names_in more.now)
        (names_in blocks.items)) }
{
    let mut blocks = blocks;
    let mut homes = homes;
    note_blocks(more, blocks[spot.block].number, &mut homes)?;
    put_names(&mut blocks[spot.block], spot.behind, keep, more)?;
    halve(&mut blocks, spot.block, &mut homes)?;
    Ok(Names { blocks, homes })
}

/// The others come behind that name of the block, which is then kept or not.
fn put_names(block: &mut Block, behind: usize, keep: bool, more: &[Block]) -> Result<(), AllocError>
    requires { behind < length block.old.names.items }
    ensures { OnOk result (block.new.names.items
        ≡ spec.spliced_at behind keep (names_in more.now) block.old.names.items) }
{
    let names = &mut block.names;
    let mut rest = names.split_off(behind + 1)?;
    names.truncate(if keep { behind + 1 } else { behind });
    push_all(more, names)?;
    names.append(&mut rest)?;
    Ok(())
}

fn push_all(blocks: &[Block], names: &mut Vec<u32>) -> Result<(), AllocError>
    ensures { OnOk result (names.new.items ≡ names.old.items ++ names_in blocks.now) }
{
    for block in blocks {
        names.extend_from_slice(block.names.as_slice())?;
    }
    Ok(())
}

/// The block becomes two, if it has many names.
fn halve(
    blocks: &mut Vec<Block>,
    at: usize,
    homes: &mut HashMap<u32, usize>,
) -> Result<(), AllocError>
    requires { at < length blocks.old.items }
    ensures { OnOk result (names_in blocks.new.items ≡ names_in blocks.old.items) }
{
    let number = blocks.len();
    if blocks[at].names.len() <= number.max(MOST) {
        return Ok(());
    }
    let names = second_half(&mut blocks[at])?;
    note_names(names.as_slice(), number, homes)?;
    blocks.insert(at + 1, Block { number, names })?;
    Ok(())
}

/// The second half of the block's names, which has the first one then.
fn second_half(block: &mut Block) -> Result<Vec<u32>, AllocError>
    ensures { IfOk result (λ half.
        block.new.names.items ++ half.items ≡ block.old.names.items) }
{
    let half = block.names.len() / 2;
    let names = block.names.split_off(half)?;
    Ok(names)
}

/// Names that came to that block.
fn note_blocks(
    blocks: &[Block],
    number: usize,
    homes: &mut HashMap<u32, usize>,
) -> Result<(), AllocError> {
    if number == 0 {
        return Ok(());
    }
    for block in blocks {
        note_names(block.names.as_slice(), number, homes)?;
    }
    Ok(())
}

fn note_names(
    names: &[u32],
    number: usize,
    homes: &mut HashMap<u32, usize>,
) -> Result<(), AllocError> {
    for name in names {
        homes.insert(*name, number)?;
    }
    Ok(())
}
