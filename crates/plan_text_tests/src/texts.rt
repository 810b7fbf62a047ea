// Plans with the texts that they print.
use crate::called::{Called, Written};
use crate::making::{
    grouping, input, leaf, list, mscr, one_stage, over, plan, reducing, result, take, with,
};
use combine_table::Comb;
use exec_graph::{Does, Output, Roots, Step};
use exec_plan::{InChannel, Mscr, OutChannel, Plan, PlanPlace, Stage};
use flume_value::Pile;
use plan_json::plan_json;
use plan_writing::plan_text;
use std::alloc::{AllocError, Global};
use std::test::Fail;

/// Words, counted: one stage.
const WORDS: Called = Called {
    steps: &[b"", b"ws:split", b"c:%pair", b"c:%sum"],
    nodes: &[b"lines", b"ws", b"c"],
    combiner: b"sum",
    outputs: &[Written {
        name: b"c",
        file: b"out.csv",
    }],
};

const WORDS_TEXT: &[u8] = b"plan
stage 1 mscr
in 0 reads s0 does ws:split(c:%pair>0)
group 0 c lift sum takes 0.0 does c:%sum>0 gives 1.0
output c reads 1.0 to \"out.csv\"
";

const WORDS_JSON: &[u8] = b"{\"outputs\":[{\"file\":\"out.csv\",\"name\":\"c\",\"reads\":\"1.0\"}],\
\"stages\":[{\"in\":[{\"does\":\"ws:split(c:%pair>0)\",\"reads\":\"s0\"}],\"kind\":\"mscr\",\
\"out\":[{\"does\":\"c:%sum>0\",\"gives\":[\"1.0\"],\"kind\":\"group\",\"lift\":\"sum\",\
\"name\":\"c\",\"takes\":[\"0.0\"]}]}]}";

fn words(alloc: Global) -> Result<Plan, AllocError> {
    let split = over(alloc, 1, Does::Call(0), leaf(alloc, 2, Does::Pair, 0))?;
    let read = input(alloc, PlanPlace::Source(0), split)?;
    let sums = leaf(alloc, 3, Does::Combine(Comb::Sum), 0);
    let counts = reducing(alloc, 2, Some(Comb::Sum), sums)?;
    one_stage(alloc, mscr(alloc, read, counts)?)
}

/// Two groups, one after the other: two functions run on the groups of the first.
const CHAINED: Called = Called {
    steps: &[b"", b"p:pair", b"", b"m:q", b"n:t", b"o:u", b"", b"s:%sum"],
    nodes: &[b"a", b"p", b"g", b"m", b"n", b"o", b"h", b"s"],
    combiner: b"sum",
    outputs: &[Written {
        name: b"s",
        file: b"out.csv",
    }],
};

const CHAINED_TEXT: &[u8] = b"plan
stage 1 mscr
in 0 reads s0 does p:pair>0
group 0 g takes 0.0 does m:q(n:t>0) gives 1.0
stage 2 mscr
in 0 reads 1.0 does o:u>0
group 0 h lift sum takes 0.0 does s:%sum>0 gives 2.0
output s reads 2.0 to \"out.csv\"
";

const CHAINED_JSON: &[u8] =
    b"{\"outputs\":[{\"file\":\"out.csv\",\"name\":\"s\",\"reads\":\"2.0\"}],\
\"stages\":[{\"in\":[{\"does\":\"p:pair>0\",\"reads\":\"s0\"}],\"kind\":\"mscr\",\
\"out\":[{\"does\":\"m:q(n:t>0)\",\"gives\":[\"1.0\"],\"kind\":\"group\",\"lift\":null,\
\"name\":\"g\",\"takes\":[\"0.0\"]}]},\
{\"in\":[{\"does\":\"o:u>0\",\"reads\":\"1.0\"}],\"kind\":\"mscr\",\
\"out\":[{\"does\":\"s:%sum>0\",\"gives\":[\"2.0\"],\"kind\":\"group\",\"lift\":\"sum\",\
\"name\":\"h\",\"takes\":[\"0.0\"]}]}]}";

fn first_groups(alloc: Global) -> Result<Stage, AllocError> {
    let read = input(
        alloc,
        PlanPlace::Source(0),
        leaf(alloc, 1, Does::Call(0), 0),
    )?;
    let m = over(alloc, 3, Does::Call(1), leaf(alloc, 4, Does::Call(2), 0))?;
    let groups = reducing(alloc, 2, None, m)?;
    mscr(alloc, read, groups)
}

fn second_groups(alloc: Global) -> Result<Stage, AllocError> {
    let read = input(alloc, result(1, 0), leaf(alloc, 5, Does::Call(3), 0))?;
    let sums = leaf(alloc, 7, Does::Combine(Comb::Sum), 0);
    let groups = reducing(alloc, 6, Some(Comb::Sum), sums)?;
    mscr(alloc, read, groups)
}

fn chained(alloc: Global) -> Result<Plan, AllocError> {
    let first = list(alloc, first_groups(alloc)?)?;
    let stages = with(first, second_groups(alloc)?)?;
    let outputs = list(alloc, result(2, 0))?;
    Ok(plan(alloc, stages, outputs))
}

/// Groups with two readers.
const SHARED: Called = Called {
    steps: &[b"", b"p:pair", b"", b"s:%sum", b"m:q"],
    nodes: &[b"a", b"p", b"g", b"s", b"m"],
    combiner: b"",
    outputs: &[
        Written {
            name: b"s",
            file: b"s.csv",
        },
        Written {
            name: b"m",
            file: b"m.csv",
        },
    ],
};

const SHARED_TEXT: &[u8] = b"plan
stage 1 mscr
in 0 reads s0 does p:pair>0
group 0 g takes 0.0 does s:%sum>0 m:q>1 gives 1.0 1.1
output s reads 1.0 to \"s.csv\"
output m reads 1.1 to \"m.csv\"
";

const SHARED_JSON: &[u8] = b"{\"outputs\":[{\"file\":\"s.csv\",\"name\":\"s\",\"reads\":\"1.0\"},\
{\"file\":\"m.csv\",\"name\":\"m\",\"reads\":\"1.1\"}],\
\"stages\":[{\"in\":[{\"does\":\"p:pair>0\",\"reads\":\"s0\"}],\"kind\":\"mscr\",\
\"out\":[{\"does\":\"s:%sum>0 m:q>1\",\"gives\":[\"1.0\",\"1.1\"],\"kind\":\"group\",\
\"lift\":null,\"name\":\"g\",\"takes\":[\"0.0\"]}]}]}";

fn both_readers(alloc: Global) -> Result<OutChannel, AllocError> {
    let s = leaf(alloc, 3, Does::Combine(Comb::Sum), 0);
    let steps = with(list(alloc, s)?, leaf(alloc, 4, Does::Call(1), 1))?;
    grouping(alloc, 2, None, Some(Roots::new(steps)))
}

fn shared(alloc: Global) -> Result<Plan, AllocError> {
    let read = input(
        alloc,
        PlanPlace::Source(0),
        leaf(alloc, 1, Does::Call(0), 0),
    )?;
    let groups = both_readers(alloc)?;
    let stages = list(alloc, mscr(alloc, read, groups)?)?;
    let outputs = with(list(alloc, result(1, 0))?, result(1, 1))?;
    Ok(plan(alloc, stages, outputs))
}

/// One input, twice.
const TWICE: Called = Called {
    steps: &[],
    nodes: &[b"a", b"b"],
    combiner: b"",
    outputs: &[Written {
        name: b"b",
        file: b"out.csv",
    }],
};

const TWICE_TEXT: &[u8] = b"plan
stage 1 flatten takes s0 s0 gives 1.0
output b reads 1.0 to \"out.csv\"
";

const TWICE_JSON: &[u8] = b"{\"outputs\":[{\"file\":\"out.csv\",\"name\":\"b\",\"reads\":\"1.0\"}],\
\"stages\":[{\"gives\":[\"1.0\"],\"kind\":\"flatten\",\"takes\":[\"s0\",\"s0\"]}]}";

fn twice(alloc: Global) -> Result<Plan, AllocError> {
    let both = with(list(alloc, PlanPlace::Source(0))?, PlanPlace::Source(0))?;
    one_stage(alloc, Stage::Flatten(Pile::from_vec(both)))
}

/// The greatest members, one of three outputs of a function, and an input that is written as it is
/// read.
const GREATEST: Called = Called {
    steps: &[b"", b"", b"b:f", b"t:%solo", b"t:%top 3", b"t:%spread"],
    nodes: &[b"a", b"c", b"b", b"t"],
    combiner: b"top 3",
    outputs: &[
        Written {
            name: b"t",
            file: b"the \"t\".csv",
        },
        Written {
            name: b"c",
            file: b"c.csv",
        },
    ],
};

const GREATEST_TEXT: &[u8] = b"plan
stage 1 mscr
in 0 reads s0 does b:f/1>0(t:%solo>1)/3>2
in 1 reads s1 does =
group 0 t lift top 3 takes 0.0 does t:%top 3(t:%spread>0) gives 1.0
pass 1 takes 0.2 gives 1.1
output t reads 1.0 to \"the \\\"t\\\".csv\"
output c reads s1 to \"c.csv\"
";

const GREATEST_JSON: &[u8] = b"{\"outputs\":[\
{\"file\":\"the \\\"t\\\".csv\",\"name\":\"t\",\"reads\":\"1.0\"},\
{\"file\":\"c.csv\",\"name\":\"c\",\"reads\":\"s1\"}],\
\"stages\":[{\"in\":[{\"does\":\"b:f/1>0(t:%solo>1)/3>2\",\"reads\":\"s0\"},\
{\"does\":\"=\",\"reads\":\"s1\"}],\"kind\":\"mscr\",\
\"out\":[{\"does\":\"t:%top 3(t:%spread>0)\",\"gives\":[\"1.0\"],\"kind\":\"group\",\
\"lift\":\"top 3\",\"name\":\"t\",\"takes\":[\"0.0\"]},\
{\"gives\":[\"1.1\"],\"kind\":\"pass\",\"takes\":[\"0.2\"]}]}]}";

/// A function with three outputs, the second of which nothing reads.
fn three_outputs(alloc: Global) -> Result<Step, AllocError> {
    let second = Output::new(None, Vec::new(alloc));
    let third = Output::new(Some(2), Vec::new(alloc));
    let more = with(list(alloc, second)?, third)?;
    let first = Output::new(Some(0), list(alloc, leaf(alloc, 3, Does::Solo, 1))?);
    Ok(Step::new(2, true, Does::Call(0), first, more))
}

fn top_three(alloc: Global) -> Result<OutChannel, AllocError> {
    let top = Does::Combine(Comb::Top(3));
    let reducer = over(alloc, 4, top, leaf(alloc, 5, Does::Spread, 0))?;
    reducing(alloc, 3, Some(Comb::Top(3)), reducer)
}

fn greatest_inputs(alloc: Global) -> Result<Vec<InChannel>, AllocError> {
    let functions = input(alloc, PlanPlace::Source(0), three_outputs(alloc)?)?;
    let identity = InChannel {
        reads: PlanPlace::Source(1),
        beside: None,
        does: None,
    };
    with(list(alloc, functions)?, identity)
}

fn greatest_channels(alloc: Global) -> Result<Vec<OutChannel>, AllocError> {
    let channels = list(alloc, top_three(alloc)?)?;
    with(channels, OutChannel::Pass(take(0, 2), 1))
}

fn greatest(alloc: Global) -> Result<Plan, AllocError> {
    let inputs = Pile::from_vec(greatest_inputs(alloc)?);
    let outputs = Pile::from_vec(greatest_channels(alloc)?);
    let stages = list(alloc, Stage::Mscr(Mscr { inputs, outputs }))?;
    let places = with(list(alloc, result(1, 0))?, PlanPlace::Source(1))?;
    Ok(plan(alloc, stages, places))
}

/// Whether a plan has this text and this JSON.
pub fn has_texts(
    alloc: Global,
    names: &Called,
    plan: &Plan,
    text: &[u8],
    json: &[u8],
) -> Result<bool, AllocError> {
    let written = plan_text(alloc, names, plan)?;
    let value = plan_json(alloc, names, plan)?;
    Ok(written.as_slice() == text && value.as_slice() == json)
}

#[test]
fn counts_words(rt: HostRuntime) -> Result<(), Fail> {
    let plan = words(rt.alloc())?;
    assert!(rt; has_texts(rt.alloc(), &WORDS, &plan, WORDS_TEXT, WORDS_JSON)?);
    Ok(())
}

#[test]
fn groups_one_after_the_other(rt: HostRuntime) -> Result<(), Fail> {
    let plan = chained(rt.alloc())?;
    assert!(rt; has_texts(rt.alloc(), &CHAINED, &plan, CHAINED_TEXT, CHAINED_JSON)?);
    Ok(())
}

#[test]
fn groups_with_two_readers(rt: HostRuntime) -> Result<(), Fail> {
    let plan = shared(rt.alloc())?;
    assert!(rt; has_texts(rt.alloc(), &SHARED, &plan, SHARED_TEXT, SHARED_JSON)?);
    Ok(())
}

#[test]
fn flattens_one_input_twice(rt: HostRuntime) -> Result<(), Fail> {
    let plan = twice(rt.alloc())?;
    assert!(rt; has_texts(rt.alloc(), &TWICE, &plan, TWICE_TEXT, TWICE_JSON)?);
    Ok(())
}

#[test]
fn lifts_a_top_beside_a_pass(rt: HostRuntime) -> Result<(), Fail> {
    let plan = greatest(rt.alloc())?;
    assert!(rt; has_texts(rt.alloc(), &GREATEST, &plan, GREATEST_TEXT, GREATEST_JSON)?);
    Ok(())
}
