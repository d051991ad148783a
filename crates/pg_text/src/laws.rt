//! Laws of the definitions that the contracts of this crate cite.

ghost use Rattle.std.specs.Prelude.{◌≡◌, ◌≤◌, ◌↔◌, ℕ, List, [], map, take, codes, length};
ghost use Rattle.pg_perm.specs.declared.draft.Draft.{Draft};
ghost use Rattle.pg_perm.specs.declared.fault.Fault.{Fault};
ghost use Rattle.pg_perm.specs.Drafts.{IsWellFormed};
ghost use Rattle.pg_lines.specs.Lines.{lines_of, words_of, place_after};
ghost use Rattle.pg_forms.specs.Forms.{spelling};
ghost use Rattle.pg_text.specs.FormFaults.{IsFormFault};
ghost use Rattle.pg_text.specs.Texts.{reading, IsText};
ghost use Rattle.pg_text.specs.Printing.{lines_in, draft_text, renumbered_draft};
ghost use Rattle.pg_text.specs.Worked.{worked_draft};

use pg_perm::Rule;

/// Reading answers a fault exactly where it is the first one of the text, and a draft with a place exactly where no line breaks a rule,
/// the draft is what the lines declare, and the place is after the end line.
pub fn first_fault_is_exact()
    ensures fault { (bytes : List ℕ) (f : Fault) → (reading bytes ≡ Err f) ↔ IsFormFault bytes f }
    ensures text { (bytes : List ℕ) (d : Draft) (place : ℕ) → (reading bytes ≡ Ok (d, place)) ↔ IsText bytes d place }
{}

/// The lines of a text up to its end line are, word for word, those of the draft that was read, and the place is after them.
pub fn lines_are_kept()
    ensures kept { (bytes : List ℕ) (d : Draft) (place : ℕ) → reading bytes ≡ Ok (d, place)
        → (n : ℕ) × (map words_of (take n (lines_of bytes)) ≡ map spelling (lines_in d)) × (place ≡ place_after n bytes) }
{}

/// What the rules say of small texts that break them, one for each rule at least, and what one says that breaks none.
pub fn worked_texts()
    ensures no_line { reading [] ≡ Err (record { line = 1; rule = Rule.F6 }) }
    ensures no_end { reading (codes "protocol P\n") ≡ Err (record { line = 2; rule = Rule.F6 }) }
    ensures empty_line { reading (codes "protocol P\n\nend\n") ≡ Err (record { line = 2; rule = Rule.F1 }) }
    ensures space_at_end { reading (codes "protocol P\nend \n") ≡ Err (record { line = 2; rule = Rule.F1 }) }
    ensures long_name { reading (codes "protocol abcdefghijklmnopqrstuvwxy\nend\n") ≡ Err (record { line = 1; rule = Rule.F1 }) }
    ensures underscore { reading (codes "protocol P\ncache A_B out none\nend\n") ≡ Err (record { line = 2; rule = Rule.F1 }) }
    ensures end_first { reading (codes "end\n") ≡ Err (record { line = 1; rule = Rule.F2 }) }
    ensures protocol_twice { reading (codes "protocol P\nprotocol P\nend\n") ≡ Err (record { line = 2; rule = Rule.F2 }) }
    ensures out_of_order { reading (codes "protocol P\nreply Data data\nrequest GetS read\nend\n")
        ≡ Err (record { line = 3; rule = Rule.F2 }) }
    ensures taken { reading (codes "protocol P\nrequest count read\nend\n") ≡ Err (record { line = 2; rule = Rule.F3 }) }
    ensures declared_twice { reading (codes "protocol P\ncache I out none\ncache I out none\nend\n")
        ≡ Err (record { line = 3; rule = Rule.F3 }) }
    ensures hit_is_no_request { reading (codes "protocol P\ncache S shared read\ncore S load hit Data S\nend\n")
        ≡ Err (record { line = 3; rule = Rule.F4 }) }
    ensures too_many_words { reading (codes "protocol P\ncache I out none\ndir D mixed I I I I I I I I I I I I I I I I I I I I I I I I I I I I I I I I I I I I I I I I I I I I I I I I I I I I I I I I I I I I I I I I I I I I I I I I I I I I I I\nend\n") ≡ Err (record { line = 3; rule = Rule.F5 }) }
    ensures text { reading (codes "protocol P\ncache I out none\ncache S shared read\nrequest GetS read\nrequest PutS clean\nreply Data data\ncore I load GetS Data S\ncore S load hit\ncore S evict PutS\nend\ncores 2\n")
        ≡ Ok (worked_draft, 163) }
    ensures well_formed { IsWellFormed worked_draft }
    ensures printed { draft_text worked_draft ≡ codes "protocol P\ncache I out none\ncache S shared read\nrequest GetS read\nrequest PutS clean\nreply Data data\ncore I load GetS Data S\ncore S load hit\ncore S evict PutS\nend\n" }
    ensures renumbered { renumbered_draft worked_draft ≡ worked_draft }
{}

/// The text of a well-formed draft is read as that draft, with its lines numbered from 1, and has at most 1,300,000 bytes.
pub fn printing_is_exact()
    ensures back { (d : Draft) → IsWellFormed d → reading (draft_text d) ≡ Ok (renumbered_draft d, length (draft_text d)) }
    ensures short { (d : Draft) → IsWellFormed d → length (draft_text d) ≤ 1300000 }
{}
