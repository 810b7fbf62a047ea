// Plans with objects, and the texts that they print.
use crate::called::{Called, Written};
use crate::making::{beside, input, leaf, list, mscr, over, plan, reducing, result, take, with};
use crate::texts::has_texts;
use combine_table::Comb;
use exec_graph::{Act, Does};
use exec_plan::{InChannel, Mscr, OutChannel, Plan, PlanPlace, Stage};
use flume_value::Pile;
use std::alloc::{AllocError, Global};
use std::test::Fail;

/// The sum of all values, and a function of it twice.
const OPERATED: Called = Called {
    steps: &[b"", b"v:value", b"t:%solo", b"t:%sum", b"h:half"],
    nodes: &[b"a", b"v", b"t", b"t", b"h"],
    combiner: b"sum",
    outputs: &[Written {
        name: b"h",
        file: b"h.csv",
    }],
};

const OPERATED_TEXT: &[u8] = b"plan
stage 1 mscr
in 0 reads s0 does v:value(t:%solo>0)
group 0 t lift sum takes 0.0 does t:%sum>0 gives 1.0
stage 2 operate takes 1.0 does t:%one gives 2.0
stage 3 operate takes 2.0 2.0 does h:half gives 3.0
output h reads 3.0 to \"h.csv\"
";

const OPERATED_JSON: &[u8] =
    b"{\"outputs\":[{\"file\":\"h.csv\",\"name\":\"h\",\"reads\":\"3.0\"}],\
\"stages\":[{\"in\":[{\"does\":\"v:value(t:%solo>0)\",\"reads\":\"s0\"}],\"kind\":\"mscr\",\
\"out\":[{\"does\":\"t:%sum>0\",\"gives\":[\"1.0\"],\"kind\":\"group\",\"lift\":\"sum\",\
\"name\":\"t\",\"takes\":[\"0.0\"]}]},\
{\"does\":\"t:%one\",\"gives\":[\"2.0\"],\"kind\":\"operate\",\"takes\":[\"1.0\"]},\
{\"does\":\"h:half\",\"gives\":[\"3.0\"],\"kind\":\"operate\",\"takes\":[\"2.0\",\"2.0\"]}]}";

fn sums(alloc: Global) -> Result<Stage, AllocError> {
    let values = over(alloc, 1, Does::Call(0), leaf(alloc, 2, Does::Solo, 0))?;
    let read = input(alloc, PlanPlace::Source(0), values)?;
    let combined = leaf(alloc, 3, Does::Combine(Comb::Sum), 0);
    let all = reducing(alloc, 2, Some(Comb::Sum), combined)?;
    mscr(alloc, read, all)
}

/// A stage whose act takes one collection.
fn operate(alloc: Global, takes: PlanPlace, origin: u32, act: Act) -> Result<Stage, AllocError> {
    let takes = Pile::from_vec(list(alloc, takes)?);
    Ok(Stage::Operate(takes, origin, true, act))
}

fn half_of_both(alloc: Global) -> Result<Stage, AllocError> {
    let takes = with(list(alloc, result(2, 0))?, result(2, 0))?;
    Ok(Stage::Operate(Pile::from_vec(takes), 4, true, Act::Operate(1)))
}

fn operated(alloc: Global) -> Result<Plan, AllocError> {
    let first = list(alloc, sums(alloc)?)?;
    let singleton = operate(alloc, result(1, 0), 2, Act::Singleton(Comb::Sum))?;
    let stages = with(with(first, singleton)?, half_of_both(alloc)?)?;
    let outputs = list(alloc, result(3, 0))?;
    Ok(plan(alloc, stages, outputs))
}

/// Two functions that are called beside objects: a function of a saved one, and that one.
const BESIDE: Called = Called {
    steps: &[b"", b"", b"m:most", b"p:part", b"q:add"],
    nodes: &[b"a", b"b", b"m", b"p", b"q"],
    combiner: b"",
    outputs: &[
        Written {
            name: b"p",
            file: b"p.csv",
        },
        Written {
            name: b"q",
            file: b"q.csv",
        },
    ],
};

const BESIDE_TEXT: &[u8] = b"plan
stage 1 operate takes s1 does m:most gives 1.0
stage 2 mscr
in 0 reads s0 with 1.0 does p:part>0
in 1 reads s0 with s1 does q:add>0
pass 0 takes 0.0 gives 2.0
pass 1 takes 1.0 gives 2.1
output p reads 2.0 to \"p.csv\"
output q reads 2.1 to \"q.csv\"
";

const BESIDE_JSON: &[u8] = b"{\"outputs\":[{\"file\":\"p.csv\",\"name\":\"p\",\"reads\":\"2.0\"},\
{\"file\":\"q.csv\",\"name\":\"q\",\"reads\":\"2.1\"}],\
\"stages\":[{\"does\":\"m:most\",\"gives\":[\"1.0\"],\"kind\":\"operate\",\"takes\":[\"s1\"]},\
{\"in\":[{\"does\":\"p:part>0\",\"reads\":\"s0\",\"with\":\"1.0\"},\
{\"does\":\"q:add>0\",\"reads\":\"s0\",\"with\":\"s1\"}],\"kind\":\"mscr\",\
\"out\":[{\"gives\":[\"2.0\"],\"kind\":\"pass\",\"takes\":[\"0.0\"]},\
{\"gives\":[\"2.1\"],\"kind\":\"pass\",\"takes\":[\"1.0\"]}]}]}";

fn inputs_beside(alloc: Global) -> Result<Vec<InChannel>, AllocError> {
    let source = PlanPlace::Source(0);
    let part = beside(
        alloc,
        source,
        result(1, 0),
        leaf(alloc, 3, Does::Call(1), 0),
    )?;
    let add = beside(
        alloc,
        source,
        PlanPlace::Source(1),
        leaf(alloc, 4, Does::Call(2), 0),
    )?;
    with(list(alloc, part)?, add)
}

fn both_passed(alloc: Global) -> Result<Vec<OutChannel>, AllocError> {
    let first = list(alloc, OutChannel::Pass(take(0, 0), 0))?;
    with(first, OutChannel::Pass(take(1, 0), 1))
}

fn beside_objects(alloc: Global) -> Result<Plan, AllocError> {
    let most = operate(alloc, PlanPlace::Source(1), 2, Act::Operate(0))?;
    let inputs = Pile::from_vec(inputs_beside(alloc)?);
    let outputs = Pile::from_vec(both_passed(alloc)?);
    let stages = with(list(alloc, most)?, Stage::Mscr(Mscr { inputs, outputs }))?;
    let places = with(list(alloc, result(2, 0))?, result(2, 1))?;
    Ok(plan(alloc, stages, places))
}

fn operated_is_told(alloc: Global) -> Result<bool, AllocError> {
    let plan = operated(alloc)?;
    has_texts(alloc, &OPERATED, &plan, OPERATED_TEXT, OPERATED_JSON)
}

fn beside_is_told(alloc: Global) -> Result<bool, AllocError> {
    let plan = beside_objects(alloc)?;
    has_texts(alloc, &BESIDE, &plan, BESIDE_TEXT, BESIDE_JSON)
}

#[test]
fn operates_on_objects(rt: HostRuntime) -> Result<(), Fail> {
    assert!(rt; operated_is_told(rt.alloc())?);
    Ok(())
}

#[test]
fn calls_functions_beside_objects(rt: HostRuntime) -> Result<(), Fail> {
    assert!(rt; beside_is_told(rt.alloc())?);
    Ok(())
}
