//! The forms of the lines of a protocol's text: what a line says, before its names are numbers.
#![tactic(auto)]

mod laws;
mod line;
mod pairs;
mod reading;
mod states;

pub use laws::{forms_are_exact, kinds_are_ranked, worked_lines, worked_refusals};
pub use line::{CoreShape, Kind, Line, RowShape};
pub use pairs::NamePairs;
pub use reading::line_of;
pub use states::StateNames;
