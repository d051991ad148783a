//! The tables of the generated controllers: states, inputs, acts and rows, and which of them a protocol asks for.
//!
//! docs/TABLES.md has them.
#![tactic(auto)]

mod cache;
mod directory;
mod directory_laws;
mod due_laws;
mod end_laws;
mod laws;
mod sound_laws;
mod table;
mod table_laws;
mod tables;
#[cfg(test)]
mod tests;
mod worked;

pub use cache::{Act, Acts, Desc, Input, Phase, Row, Table, TableState, Tag};
pub use directory::{DirAct, DirActs, DirDesc, DirInput, DirRow, DirTable, DirTableState};
pub use directory_laws::{
    busy_states_have_rows, directory_cases_have_rows, directory_rows_follow_requests,
    directory_rows_lead_to_states, directory_stalls_when_busy, directory_table_answers,
};
pub use due_laws::{inputs_that_may_come, sound_tables_pick, stores_may_end};
pub use end_laws::{hits_follow_core_lines, last_acknowledgements_end_as_data};
pub use laws::{
    generated_tables_are_sound, inputs_are_listed_once, later_forwards_stall,
    mixed_tables_are_sound, rows_are_for_one_input, rows_lead_to_states, sound_tables_answer,
    states_are_told_apart, states_have_numbers, states_of_both_modes,
};
pub use sound_laws::{
    sound_tables_have_untagged_states, sound_tables_number_states,
    sound_tables_stall_later_forwards, states_of_sound_tables,
};
pub use table::{ControllerRow, ControllerState, ControllerTable};
pub use table_laws::{
    deferring_tables_never_stall, directory_tables_have_one_row, directory_tables_stall_when_busy,
    stalling_tables_stall_later_forwards, tags_tell_the_state,
};
pub use tables::Tables;
pub use worked::{worked_mix, worked_rows, worked_states, worked_tables, worked_variants};
