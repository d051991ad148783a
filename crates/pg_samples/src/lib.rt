//! Sample protocols, for tests, laws and examples: their texts, and in `specs/Drafts.antt` what five of them declare.
#![tactic(auto)]

mod texts;

pub use texts::{MESI, MI, MIGRATORY, MOESI, MOSI, MSI};
