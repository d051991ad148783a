ghost use Rattle.std.specs.Prelude.{◌≡◌, [], ◌∷◌, ◌++◌, codes, IfOk};
ghost use Rattle.std.specs.String.{string_bytes};
ghost use Rattle.pg_lines.specs.Lines.{line_text, text_of};
ghost use Rattle.pg_tally.specs.Summaries as summaries;

use crate::tally::Tally;
use std::alloc::{AllocError, Global};
use std::fmt::Write;

fn put_drill(
    text: &mut String,
    seed: u64,
    cores: u32,
    blocks: u32,
    ops: u32,
) -> Result<(), AllocError>
    ensures { IfOk result (λ _. string_bytes text.new ≡ string_bytes text.old ++ line_text (summaries.drill_line seed cores blocks ops)) }
{
    write!(
        text,
        "drill seed {seed} cores {cores} blocks {blocks} ops {ops}\n"
    )?;
    Ok(())
}

fn put_requests(text: &mut String, txns: u64, stale: u64) -> Result<(), AllocError>
    ensures { IfOk result (λ _. string_bytes text.new
        ≡ string_bytes text.old ++ text_of (summaries.number_line (codes "txns") txns ∷ summaries.number_line (codes "stale") stale ∷ [])) }
{
    write!(text, "txns {txns}\nstale {stale}\n")?;
    Ok(())
}

fn put_loads(text: &mut String, loads: u64, late: u64) -> Result<(), AllocError>
    ensures { IfOk result (λ _. string_bytes text.new
        ≡ string_bytes text.old ++ text_of (summaries.number_line (codes "loads") loads ∷ summaries.number_line (codes "late") late ∷ [])) }
{
    write!(text, "loads {loads}\nlate {late}\n")?;
    Ok(())
}

fn put_stores(text: &mut String, stores: u64, events: u64) -> Result<(), AllocError>
    ensures { IfOk result (λ _. string_bytes text.new
        ≡ string_bytes text.old ++ text_of (summaries.number_line (codes "stores") stores ∷ summaries.number_line (codes "events") events ∷ [])) }
{
    write!(text, "stores {stores}\nevents {events}\n")?;
    Ok(())
}

fn put_sum(text: &mut String, sum: u64) -> Result<(), AllocError>
    ensures { IfOk result (λ _. string_bytes text.new
        ≡ string_bytes text.old ++ text_of (summaries.number_line (codes "sum") sum ∷ (codes "end" ∷ []) ∷ [])) }
{
    write!(text, "sum {sum}\nend\n")?;
    Ok(())
}

#[tactic(auto, using(crate::proofs::Parts::put_in_turn))]
/// The text of a drill's summary: which drill it is, the numbers of the tally in their order, a line each, and the line `end`.
pub fn summary_text(
    alloc: Global,
    seed: u64,
    cores: u32,
    blocks: u32,
    ops: u32,
    tally: &Tally,
) -> Result<Vec<u8>, AllocError>
    ensures { IfOk result (λ text. text.items ≡ summaries.summary seed cores blocks ops tally.now) }
{
    let mut text = String::new(alloc);
    put_drill(&mut text, seed, cores, blocks, ops)?;
    put_requests(&mut text, tally.txns, tally.stale)?;
    put_loads(&mut text, tally.loads, tally.late)?;
    put_stores(&mut text, tally.stores, tally.events)?;
    put_sum(&mut text, tally.sum)?;
    Ok(text.into_bytes())
}
