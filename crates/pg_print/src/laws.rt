//! Laws of the definitions of this crate.

ghost use Rattle.std.specs.Prelude.{ℕ, ◌≡◌, ◌⊎◌, true};
ghost use Rattle.std.specs.List.{list_any};
ghost use Rattle.pg_perm.specs.declared.kinds.Mode.{Mode};
ghost use Rattle.pg_perm.specs.declared.draft.Draft.{Draft};
ghost use Rattle.pg_perm.specs.Drafts.{IsWellFormed};
ghost use Rattle.pg_shape.specs.Shaped.{IsShaped};
ghost use Rattle.pg_table.specs.declared.cache.Desc.{Desc};
ghost use Rattle.pg_table.specs.declared.cache.Input.{Input};
ghost use Rattle.pg_table.specs.declared.cache.Input.TheVariants as at;
ghost use Rattle.pg_table.specs.declared.directory.DirDesc.{DirDesc};
ghost use Rattle.pg_table.specs.declared.directory.DirInput.{DirInput};
ghost use Rattle.pg_table.specs.Descriptors.{descs};
ghost use Rattle.pg_table.specs.GeneratedStates.{inputs};
ghost use Rattle.pg_table.specs.Directory.{dir_descs, dir_inputs};
ghost use Rattle.pg_table.specs.Sound.{is_among};
ghost use Rattle.pg_perm.specs.declared.kinds.Mode.TheVariants as mode;
ghost use Rattle.pg_perm.specs.declared.kinds.Event.TheVariants.{Evict};
ghost use Rattle.pg_table.specs.Tables.{cache_table, dir_table, has_input, has_dir_input, same_dir_desc};
ghost use Rattle.pg_lines.specs.Lines.{text_of};
ghost use Rattle.pg_table.specs.Variants.{two_shares, owned_reader, keeps_then_gives};
ghost use Rattle.pg_samples.specs.Drafts.{mi, msi, mesi, moesi};
ghost use Rattle.pg_print.specs.Names.{state_name, dir_state_name};
ghost use Rattle.pg_print.specs.Words.{input_word, dir_input_word, is_operation_and_forward};
ghost use Rattle.pg_print.specs.TableText.{dir_wording, controller_lines, table_text};
ghost use Rattle.pg_print.specs.Worked.{mi_stall_text, mi_defer_text, msi_stall_text, msi_defer_text};
ghost use Rattle.pg_print.specs.WorkedOwners.{mesi_stall_text, mesi_defer_text, moesi_stall_text, moesi_defer_text};
ghost use Rattle.pg_print.specs.WorkedVariants.{two_shares_home, owned_reader_home, keeps_then_gives_stall_text, keeps_then_gives_defer_text};

/// Whole texts, as a person writes them: of MI's and of MSI's generated tables, in both modes.
pub fn worked_texts()
    ensures mi_stall { table_text (record { protocol = mi; mode = mode.Stall; cache = cache_table mi mode.Stall; home = dir_table mi }) ≡ mi_stall_text }
    ensures mi_defer { table_text (record { protocol = mi; mode = mode.Defer; cache = cache_table mi mode.Defer; home = dir_table mi }) ≡ mi_defer_text }
    ensures msi_stall { table_text (record { protocol = msi; mode = mode.Stall; cache = cache_table msi mode.Stall; home = dir_table msi }) ≡ msi_stall_text }
    ensures msi_defer { table_text (record { protocol = msi; mode = mode.Defer; cache = cache_table msi mode.Defer; home = dir_table msi }) ≡ msi_defer_text }
{}

/// Whole texts of MESI's and of MOESI's generated tables, in both modes, as a person writes them.
pub fn worked_owner_texts()
    ensures mesi_stall { table_text (record { protocol = mesi; mode = mode.Stall; cache = cache_table mesi mode.Stall; home = dir_table mesi }) ≡ mesi_stall_text }
    ensures mesi_defer { table_text (record { protocol = mesi; mode = mode.Defer; cache = cache_table mesi mode.Defer; home = dir_table mesi }) ≡ mesi_defer_text }
    ensures moesi_stall { table_text (record { protocol = moesi; mode = mode.Stall; cache = cache_table moesi mode.Stall; home = dir_table moesi }) ≡ moesi_stall_text }
    ensures moesi_defer { table_text (record { protocol = moesi; mode = mode.Defer; cache = cache_table moesi mode.Defer; home = dir_table moesi }) ≡ moesi_defer_text }
{}

/// Texts of protocols that differ from MSI and MOSI in one thing each, as a person writes them: the directory's table where it waits for data before two
/// states, which come in the order of those, and where its owned state lists an owner that may only read; and all of an owner that keeps its copy and
/// then gives it, in both modes.
pub fn worked_variant_texts()
    ensures two_shares { text_of (controller_lines dir_wording two_shares (dir_table two_shares)) ≡ two_shares_home }
    ensures owned_reader { text_of (controller_lines dir_wording owned_reader (dir_table owned_reader)) ≡ owned_reader_home }
    ensures stall { table_text (record { protocol = keeps_then_gives; mode = mode.Stall; cache = cache_table keeps_then_gives mode.Stall; home = dir_table keeps_then_gives }) ≡ keeps_then_gives_stall_text }
    ensures defer { table_text (record { protocol = keeps_then_gives; mode = mode.Defer; cache = cache_table keeps_then_gives mode.Defer; home = dir_table keeps_then_gives }) ≡ keeps_then_gives_defer_text }
{}

/// No two states of a controller have the same name.
pub fn names_are_told_apart()
    ensures cache { (d : Draft) (m : Mode) (s t : Desc) → IsWellFormed d → IsShaped d → is_among (descs d m) s ≡ true → is_among (descs d m) t ≡ true
        → state_name d s ≡ state_name d t → s ≡ t }
    ensures home { (d : Draft) (s t : DirDesc) → IsWellFormed d → list_any (same_dir_desc s) (dir_descs d) ≡ true → list_any (same_dir_desc t) (dir_descs d) ≡ true
        → dir_state_name d s ≡ dir_state_name d t → s ≡ t }
{}

/// No two inputs of a controller share a word, but for an operation of the core and a forward that is called like it, which may be `load` or `store`.
pub fn inputs_are_told_apart()
    ensures cache { (d : Draft) (i j : Input) → IsWellFormed d → has_input (inputs d) i ≡ true → has_input (inputs d) j ≡ true → input_word d i ≡ input_word d j
        → (i ≡ j) ⊎ (is_operation_and_forward i j ≡ true) }
    ensures evict { (d : Draft) (f : ℕ) → IsWellFormed d → has_input (inputs d) (at.Forward f) ≡ true
        → input_word d (at.Forward f) ≡ input_word d (at.Core Evict) → ⊥ }
    ensures home { (d : Draft) (i j : DirInput) → IsWellFormed d → IsShaped d → has_dir_input dir_inputs i ≡ true → has_dir_input dir_inputs j ≡ true
        → dir_input_word d i ≡ dir_input_word d j → i ≡ j }
{}
