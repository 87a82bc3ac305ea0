// What a C program links: the functions of crate savetnuok, under their names, with their promises. A slice comes as a pointer and a length.
#![tactic(auto)]

ghost use Rattle.savetnuok.specs.Exported.{Opened, CalledOn, LaidOn, WholeOn};
ghost use Rattle.savetnuok.specs.Why.{ToldOn};

// A fresh engine in the lent state, or refusal 1, 2, 3, 7, or 5 for a state of another length.
#[unsafe(no_mangle)]
pub extern "C" fn savetnuok_open(source: &[u8], tree: &[u8], state: &mut [u8]) -> u64
    ensures { Opened source.now tree.now state.old result state.new }
{
    savetnuok::savetnuok_open(source, tree, state)
}

// One call record on the lent state and buffer.
#[unsafe(no_mangle)]
pub extern "C" fn savetnuok_call(
    source: &[u8],
    tree: &[u8],
    state: &mut [u8],
    out: &mut [u8],
    bytes: &[u8],
) -> u64
    ensures { CalledOn source tree state out bytes result }
{
    savetnuok::savetnuok_call(source, tree, state, out, bytes)
}

// A layout run on a node of the tree, on the lent state and buffer.
#[unsafe(no_mangle)]
pub extern "C" fn savetnuok_run(
    source: &[u8],
    tree: &[u8],
    state: &mut [u8],
    out: &mut [u8],
    node: u32,
) -> u64
    ensures { LaidOn source tree state out node result }
{
    savetnuok::savetnuok_run(source, tree, state, out, node)
}

// A whole layout of the script whose body is record 0, on the lent state and buffer.
#[unsafe(no_mangle)]
pub extern "C" fn savetnuok_layout(
    source: &[u8],
    tree: &[u8],
    state: &mut [u8],
    out: &mut [u8],
) -> u64
    ensures { WholeOn source tree state out result }
{
    savetnuok::savetnuok_layout(source, tree, state, out)
}

// Why a list went over several lines: the reason's number and place, 0 for a compact list, or a refusal. Nothing that is lent is written.
#[unsafe(no_mangle)]
pub extern "C" fn savetnuok_why(source: &[u8], tree: &[u8], node: u32) -> u64
    ensures { ToldOn source tree node result }
{
    savetnuok::savetnuok_why(source, tree, node)
}
