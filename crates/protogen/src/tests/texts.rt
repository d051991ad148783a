//! The texts of protocols, of which the cases are edits.

pub use pg_samples::{MESI, MI, MIGRATORY, MOESI, MOSI, MSI};

/// A protocol, of which a case has the text or an edit of it. Tables of cases name it so, since a text in each case makes the proof of a test long.
pub enum Base {
    Mi,
    Msi,
    Mesi,
    Mosi,
    Moesi,
    Migratory,
    Visible,
}

impl Base {
    pub fn text(&self) -> &'static str {
        match self {
            Base::Mi => MI,
            Base::Msi => MSI,
            Base::Mesi => MESI,
            Base::Mosi => MOSI,
            Base::Moesi => MOESI,
            Base::Migratory => MIGRATORY,
            Base::Visible => VISIBLE,
        }
    }
}

/// A clean owner and a dirty one that answer by replies of their own, so that a history tells which of them a core was.
pub const VISIBLE: &str = "protocol Visible
cache I out none
cache E owner write clean
cache M owner write
cache P owner read
dir N idle
dir D owned E M P
request GetS read
request GetM write
request PutC clean
request PutD dirty
forward Pass drop
reply Excl data
reply DataM data
reply DataP data
core I load GetS Excl E DataM M DataP P
core I store GetM Excl M DataM M DataP M
core E load hit
core E store hit M
core E evict PutC
core M load hit
core M store hit
core M evict PutD
core P load hit
core P store GetM AckCount M
core P evict PutD
take E Pass DataM I
take M Pass DataP I
take P Pass DataP I
row N GetS other Excl D
row N GetM other Excl D
row D GetS other Pass D
row D GetM other Pass D
row D GetM owner count D
row D evict owner last N
end
";
