//! Laws of the definitions that the contracts of this crate cite.

ghost use Rattle.std.specs.Prelude.{◌≡◌, ◌≤◌, ◌↔◌, ℕ, List, [], ◌∷◌, map, codes, length};
ghost use Rattle.pg_perm.specs.declared.fault.Fault.{Fault};
ghost use Rattle.pg_lines.specs.Lines.{lines_of, words_of};
ghost use Rattle.pg_script.specs.declared.statement.Statement.{Statement};
ghost use Rattle.pg_script.specs.Forms.{spelling, HasShortNumbers};
ghost use Rattle.pg_script.specs.Reading.{statement_of};
ghost use Rattle.pg_script.specs.Scripts.{Operations, IsWithin, on_block};
ghost use Rattle.pg_script.specs.ScriptFaults.{IsScriptFault};
ghost use Rattle.pg_script.specs.Texts.{reading, IsScript};
ghost use Rattle.pg_script.specs.Printing.{lines_in, script_text, IsTextOf};
ghost use Rattle.pg_script.specs.Drills.{IsDrill, drill_operations};
ghost use Rattle.pg_script.specs.Worked.{worked_operations};

use pg_perm::{Op, Rule};

/// A line is in a form exactly where it is the spelling of a statement whose numbers have at most 20 digits, of which it then is the only one.
pub fn forms_are_exact()
    ensures found { (ws : List (List ℕ)) (s : Statement) → statement_of ws ≡ Some s → (ws ≡ spelling s) × HasShortNumbers s }
    ensures spelled { (s : Statement) → HasShortNumbers s → statement_of (spelling s) ≡ Some s }
{}

/// Reading answers a fault exactly where it is the first one of the script, and else what the script says.
pub fn first_fault_is_exact()
    ensures fault { (bytes : List ℕ) (f : Fault) → (reading bytes ≡ Err f) ↔ IsScriptFault bytes f }
    ensures script { (bytes : List ℕ) (s : Operations) → (reading bytes ≡ Ok s) ↔ IsScript bytes s }
{}

/// The lines of a script are, word for word, those of what it says, and so its bytes are the text of that.
pub fn scripts_are_kept()
    ensures kept { (bytes : List ℕ) (s : Operations) → reading bytes ≡ Ok s → map words_of (lines_of bytes) ≡ map spelling (lines_in s) }
    ensures text { (bytes : List ℕ) (s : Operations) → reading bytes ≡ Ok s → IsTextOf bytes (script_text s) }
    ensures within { (bytes : List ℕ) (s : Operations) → reading bytes ≡ Ok s → IsWithin s }
{}

/// The text of what is within the bounds is read as the same, and has at most 426,008 bytes.
pub fn printing_is_exact()
    ensures back { (s : Operations) → IsWithin s → reading (script_text s) ≡ Ok s }
    ensures short { (s : Operations) → IsWithin s → length (script_text s) ≤ 426008 }
{}

/// What the rules say of small scripts, one for each rule but C3 at least, and what one says that breaks none.
pub fn worked_scripts()
    ensures no_line { reading [] ≡ Err (record { line = 1; rule = Rule.C4 }) }
    ensures script { reading (codes "cores 2\nblocks 1\nop 0 store 0 5\nop 1 load 0\ndone\n") ≡ Ok (record { cores = 2; blocks = 1; ops = record { core = 0; block = 0; op = Op.Store 5 } ∷ record { core = 1; block = 0; op = Op.Load } ∷ [] }) }
    ensures done_first { reading (codes "done\n") ≡ Err (record { line = 1; rule = Rule.C1 }) }
    ensures leading_zero { reading (codes "cores 02\nblocks 1\ndone\n") ≡ Err (record { line = 1; rule = Rule.C1 }) }
    ensures long_number { reading (codes "cores 1\nblocks 1\nop 0 store 0 100000000000000000000\ndone\n") ≡ Err (record { line = 3; rule = Rule.C1 }) }
    ensures large_number { reading (codes "cores 1\nblocks 1\nop 0 store 0 99999999999999999999\ndone\n") ≡ Err (record { line = 3; rule = Rule.C2 }) }
    ensures no_core { reading (codes "cores 0\nblocks 1\ndone\n") ≡ Err (record { line = 1; rule = Rule.C2 }) }
    ensures other_core { reading (codes "cores 32\nblocks 1\nop 32 load 0\ndone\n") ≡ Err (record { line = 3; rule = Rule.C2 }) }
    ensures no_done { reading (codes "cores 1\nblocks 1\nop 0 load 0\n") ≡ Err (record { line = 4; rule = Rule.C4 }) }
    ensures byte_behind { reading (codes "cores 1\nblocks 1\ndone\nx") ≡ Err (record { line = 4; rule = Rule.C5 }) }
    ensures no_newline { reading (codes "cores 1\nblocks 1\ndone") ≡ Ok (record { cores = 1; blocks = 1; ops = [] }) }
{}

/// The operations of a core on a block are those whose lines name both, in the order of the lines: of a script of six operations, each is in one of
/// four lists, and there are none of a core or a block that the script doesn't have.
pub fn operations_go_by_core_and_block()
    ensures core_0_block_0 { on_block worked_operations 0 0 ≡ Op.Store 5 ∷ Op.Load ∷ Op.Evict ∷ [] }
    ensures core_0_block_1 { on_block worked_operations 0 1 ≡ Op.Evict ∷ [] }
    ensures core_1_block_0 { on_block worked_operations 1 0 ≡ Op.Load ∷ [] }
    ensures core_1_block_1 { on_block worked_operations 1 1 ≡ Op.Store 7 ∷ [] }
    ensures no_such_core { on_block worked_operations 2 0 ≡ [] }
    ensures no_such_block { on_block worked_operations 0 2 ≡ [] }
    ensures no_operations { (cores blocks core block : ℕ) → on_block (record { cores = cores; blocks = blocks; ops = [] }) core block ≡ [] }
    ensures read { reading (codes "cores 2\nblocks 2\nop 0 store 0 5\nop 1 load 0\nop 0 evict 1\nop 0 load 0\nop 1 store 1 7\nop 0 evict 0\ndone\n") ≡ Ok worked_operations }
    ensures text { script_text worked_operations ≡ codes "cores 2\nblocks 2\nop 0 store 0 5\nop 1 load 0\nop 0 evict 1\nop 0 load 0\nop 1 store 1 7\nop 0 evict 0\ndone\n" }
{}

/// The first fault of small scripts at the edges of each bound and each form. A line that breaks more than one rule breaks the least, and the first such
/// line counts.
pub fn worked_first_faults()
    ensures most_cores { reading (codes "cores 32\nblocks 64\nop 31 evict 63\ndone\n")
        ≡ Ok (record { cores = 32; blocks = 64; ops = record { core = 31; block = 63; op = Op.Evict } ∷ [] }) }
    ensures too_many_cores { reading (codes "cores 33\nblocks 65\ndone\n") ≡ Err (record { line = 1; rule = Rule.C2 }) }
    ensures too_many_blocks { reading (codes "cores 32\nblocks 65\ndone\n") ≡ Err (record { line = 2; rule = Rule.C2 }) }
    ensures no_block { reading (codes "cores 32\nblocks 0\ndone\n") ≡ Err (record { line = 2; rule = Rule.C2 }) }
    ensures other_block { reading (codes "cores 1\nblocks 1\nop 0 load 1\ndone\n") ≡ Err (record { line = 3; rule = Rule.C2 }) }
    ensures largest_value { reading (codes "cores 1\nblocks 1\nop 0 store 0 4294967295\ndone\n")
        ≡ Ok (record { cores = 1; blocks = 1; ops = record { core = 0; block = 0; op = Op.Store 4294967295 } ∷ [] }) }
    ensures large_value { reading (codes "cores 1\nblocks 1\nop 0 store 0 4294967296\ndone\n") ≡ Err (record { line = 3; rule = Rule.C2 }) }
    ensures no_value { reading (codes "cores 1\nblocks 1\nop 0 store 0\ndone\n") ≡ Err (record { line = 3; rule = Rule.C1 }) }
    ensures load_with_value { reading (codes "cores 1\nblocks 1\nop 0 load 0 5\ndone\n") ≡ Err (record { line = 3; rule = Rule.C1 }) }
    ensures blocks_first { reading (codes "blocks 1\ncores 1\ndone\n") ≡ Err (record { line = 1; rule = Rule.C1 }) }
    ensures blocks_left_out { reading (codes "cores 1\ndone\n") ≡ Err (record { line = 2; rule = Rule.C1 }) }
    ensures cores_twice { reading (codes "cores 1\nblocks 1\ncores 1\ndone\n") ≡ Err (record { line = 3; rule = Rule.C1 }) }
    ensures empty_line { reading (codes "cores 1\nblocks 1\n\ndone\n") ≡ Err (record { line = 3; rule = Rule.C1 }) }
    ensures word_behind_done { reading (codes "cores 1\nblocks 1\ndone now\n") ≡ Err (record { line = 3; rule = Rule.C1 }) }
    ensures newline_behind { reading (codes "cores 1\nblocks 1\ndone\n\n") ≡ Err (record { line = 4; rule = Rule.C5 }) }
    ensures two_lines { reading (codes "cores 1\nblocks 1\nop 1 load 0\nop 0 load\n") ≡ Err (record { line = 3; rule = Rule.C2 }) }
{}

/// The script of a drill is within the bounds and has as many operations as are asked for.
pub fn drills_are_within_the_bounds()
    ensures within { (seed cores blocks ops : ℕ) → IsDrill cores blocks ops → IsWithin (drill_operations seed cores blocks ops) }
    ensures count { (seed cores blocks ops : ℕ) → length (drill_operations seed cores blocks ops).ops ≡ ops }
{}

/// The first operations of drills. Those of seed 5 have all kinds, with the least and the largest draw of each but 0 and 5.
pub fn worked_drills()
    ensures small { script_text (drill_operations 1 1 1 2) ≡ codes "cores 1\nblocks 1\nop 0 store 0 1\nop 0 load 0\ndone\n" }
    ensures seed_zero { (drill_operations 0 2 2 4).ops
        ≡ record { core = 1; block = 0; op = Op.Load }
        ∷ record { core = 0; block = 1; op = Op.Load }
        ∷ record { core = 0; block = 1; op = Op.Load }
        ∷ record { core = 1; block = 1; op = Op.Load }
        ∷ [] }
    ensures seed_one { (drill_operations 1 4 8 5).ops
        ≡ record { core = 2; block = 1; op = Op.Store 1 }
        ∷ record { core = 2; block = 2; op = Op.Load }
        ∷ record { core = 2; block = 6; op = Op.Load }
        ∷ record { core = 2; block = 3; op = Op.Load }
        ∷ record { core = 0; block = 0; op = Op.Load }
        ∷ [] }
    ensures all_kinds { (drill_operations 5 2 2 8).ops
        ≡ record { core = 0; block = 1; op = Op.Load }
        ∷ record { core = 1; block = 1; op = Op.Load }
        ∷ record { core = 1; block = 1; op = Op.Load }
        ∷ record { core = 0; block = 1; op = Op.Load }
        ∷ record { core = 0; block = 1; op = Op.Load }
        ∷ record { core = 1; block = 0; op = Op.Evict }
        ∷ record { core = 0; block = 0; op = Op.Store 7 }
        ∷ record { core = 0; block = 0; op = Op.Load }
        ∷ [] }
    ensures largest { (drill_operations 7 32 64 5).ops
        ≡ record { core = 30; block = 63; op = Op.Load }
        ∷ record { core = 17; block = 41; op = Op.Load }
        ∷ record { core = 8; block = 20; op = Op.Load }
        ∷ record { core = 22; block = 3; op = Op.Load }
        ∷ record { core = 0; block = 48; op = Op.Store 5 }
        ∷ [] }
{}
