ghost use Rattle.std.specs.Prelude.{◌≡◌, ◌<◌, ◌≤◌, ◌%◌, IfOk};
ghost use Rattle.pg_sched.specs.Picks.{next_state, pick_of};
ghost use Rattle.pg_script.specs.Drills as drills;

use crate::script::{Script, ScriptOp};
use pg_perm::{Op, Sequence};
use pg_sched::Pick;
use std::alloc::{AllocError, Global};

/// The next draw, modulo a count.
fn draw_below(pick: &mut Pick, count: u32) -> u32
    requires { 1 ≤ count }
    ensures state { pick.new ≡ next_state pick.old }
    ensures draw { result ≡ pick_of pick.new % count }
    ensures below { result < count }
{
    (pick.next() % u64::from(count)) as u32
}

/// What operation `number` is, by a draw below 8.
fn op_of(number: u32, kind: u32) -> Op
    ensures { result ≡ drills.drawn_op number kind }
{
    if kind < 4 {
        Op::Load
    } else if kind < 7 {
        Op::Store(number)
    } else {
        Op::Evict
    }
}

fn draw_op(pick: &mut Pick, cores: u32, blocks: u32, number: u32) -> ScriptOp
    requires cores { 1 ≤ cores }
    requires blocks { 1 ≤ blocks }
    ensures state { pick.new ≡ next_state (next_state (next_state pick.old)) }
    ensures core { result.core ≡ pick_of (next_state pick.old) % cores }
    ensures block { result.block ≡ pick_of (next_state (next_state pick.old)) % blocks }
    ensures op { result.op ≡ drills.drawn_op number (pick_of pick.new % 8) }
{
    let core = draw_below(pick, cores);
    let block = draw_below(pick, blocks);
    let op = op_of(number, draw_below(pick, 8));
    ScriptOp { core, block, op }
}

/// The script of a drill: operations of all cores on all blocks, drawn from the seed. One seed always gives one script.
///
/// Half of the kinds that are drawn are loads, three in eight are stores and one in eight is an evict. Operation i, counted from 1, stores i.
pub fn drill_script(
    alloc: Global,
    seed: u64,
    cores: u32,
    blocks: u32,
    ops: u32,
) -> Result<Script, AllocError>
    requires { drills.IsDrill cores blocks ops }
    ensures exact { IfOk result (λ s. s ≡ drills.drill_operations seed cores blocks ops) }
{
    let mut pick = Pick::new(seed);
    let mut drawn = Sequence::new(alloc);
    let mut number = 0;
    while number < ops {
        number += 1;
        drawn.push(draw_op(&mut pick, cores, blocks, number))?;
    }
    Ok(Script::new(cores, blocks, drawn))
}
