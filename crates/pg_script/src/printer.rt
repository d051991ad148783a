ghost use Rattle.std.specs.Prelude.{◌≡◌, ◌≤◌, [], ◌∷◌, ◌++◌, map, length, IfOk};
ghost use Rattle.std.specs.String.{string_bytes};
ghost use Rattle.pg_lines.specs.Lines.{line_text, text_of};
ghost use Rattle.pg_script.specs.Forms.{spelling};
ghost use Rattle.pg_script.specs.Printing.{script_text, op_line_of};
ghost use Rattle.pg_script.specs.Texts.{reading};

use crate::script::{Script, ScriptOp};
use crate::statement::Statement;
use pg_perm::Op;
use std::alloc::{AllocError, Global};
use std::fmt::Write;

fn put_counts(text: &mut String, cores: u32, blocks: u32) -> Result<(), AllocError>
    ensures { IfOk result (λ _. string_bytes text.new ≡ string_bytes text.old ++ text_of (spelling (Statement.Cores cores) ∷ spelling (Statement.Blocks blocks) ∷ [])) }
{
    write!(text, "cores {cores}\nblocks {blocks}\n")?;
    Ok(())
}

fn put_op(text: &mut String, op: &ScriptOp) -> Result<(), AllocError>
    ensures { IfOk result (λ _. string_bytes text.new ≡ string_bytes text.old ++ line_text (spelling (op_line_of op.now))) }
{
    let core = op.core;
    let block = op.block;
    match op.op {
        Op::Load => write!(text, "op {core} load {block}\n")?,
        Op::Store(value) => write!(text, "op {core} store {block} {value}\n")?,
        Op::Evict => write!(text, "op {core} evict {block}\n")?,
    }
    Ok(())
}

fn put_ops(text: &mut String, ops: &[ScriptOp]) -> Result<(), AllocError>
    ensures { IfOk result (λ _. string_bytes text.new ≡ string_bytes text.old ++ text_of (map (λ o. spelling (op_line_of o)) ops.now)) }
{
    for op in ops {
        put_op(text, op)?;
    }
    Ok(())
}

/// The text of a script, of which each line ends with a newline. It is read as the same script.
pub fn print(alloc: Global, script: &Script) -> Result<Vec<u8>, AllocError>
    ensures exact { IfOk result (λ text. text.items ≡ script_text script.now) }
    ensures read_back { IfOk result (λ text. reading text.items ≡ Ok script.now) }
    ensures short { IfOk result (λ text. length text.items ≤ 426008) }
{
    let mut text = String::new(alloc);
    put_counts(&mut text, script.cores(), script.blocks())?;
    put_ops(&mut text, script.ops())?;
    text.push_str("done\n")?;
    Ok(text.into_bytes())
}
