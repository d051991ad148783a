//! Laws of the definitions that the contracts of this crate cite.

ghost use Rattle.std.specs.Prelude.{◌≡◌, ℕ, List, [], ◌∷◌, codes, map, Some, None, true, false};
ghost use Rattle.std.specs.List.{range_with_len};
ghost use Rattle.pg_lines.specs.Lines.{words_of};
ghost use Rattle.pg_forms.specs.declared.line.Line.{Line};
ghost use Rattle.pg_forms.specs.declared.line.Line.TheVariants as line;
ghost use Rattle.pg_forms.specs.declared.line.Kind.TheVariants as kind;
ghost use Rattle.pg_forms.specs.declared.line.CoreShape.TheVariants as core;
ghost use Rattle.pg_forms.specs.declared.line.RowShape.TheVariants as row;
ghost use Rattle.pg_perm.specs.declared.draft.MsgClass.TheVariants as message;
ghost use Rattle.pg_perm.specs.declared.kinds.Role.TheVariants as role;
ghost use Rattle.pg_perm.specs.declared.kinds.Perm.TheVariants as perm;
ghost use Rattle.pg_perm.specs.declared.kinds.DirKind.TheVariants as knows;
ghost use Rattle.pg_perm.specs.declared.kinds.ReqClass.TheVariants as asks;
ghost use Rattle.pg_perm.specs.declared.kinds.FwdClass.TheVariants as asked;
ghost use Rattle.pg_perm.specs.declared.kinds.Event.TheVariants as event;
ghost use Rattle.pg_perm.specs.declared.kinds.Who.TheVariants as who;
ghost use Rattle.pg_perm.specs.declared.kinds.Left.TheVariants as left;
ghost use Rattle.pg_forms.specs.Forms.{spelling, IsWellNamed};
ghost use Rattle.pg_forms.specs.Reading.{line_of};
ghost use Rattle.pg_forms.specs.Kinds.{rank_of, kind_of, is_protocol, is_end};

/// A line is in a form exactly where it is the spelling of a well-named value, of which it then is the only one.
pub fn forms_are_exact()
    ensures found { (ws : List (List ℕ)) (l : Line) → line_of ws ≡ Some l → (ws ≡ spelling l) × IsWellNamed l }
    ensures spelled { (l : Line) → IsWellNamed l → line_of (spelling l) ≡ Some l }
{}

/// What lines say, one of each form.
pub fn worked_lines()
    ensures protocol { line_of (words_of (codes "protocol MSI")) ≡ Some (line.Protocol (codes "MSI")) }
    ensures cache { line_of (words_of (codes "cache S shared read")) ≡ Some (line.Cache (codes "S") role.Shared perm.Read false) }
    ensures clean { line_of (words_of (codes "cache E owner read clean")) ≡ Some (line.Cache (codes "E") role.Owner perm.Read true) }
    ensures dir { line_of (words_of (codes "dir V idle")) ≡ Some (line.Dir (codes "V") knows.Idle []) }
    ensures dir_beside { line_of (words_of (codes "dir B mixed S O")) ≡ Some (line.Dir (codes "B") knows.Mixed (codes "S" ∷ codes "O" ∷ [])) }
    ensures request { line_of (words_of (codes "request GetM write")) ≡ Some (line.Message (codes "GetM") (message.Request asks.Write)) }
    ensures forward { line_of (words_of (codes "forward Fwd_GetS share")) ≡ Some (line.Message (codes "Fwd_GetS") (message.Forward asked.Share)) }
    ensures reply { line_of (words_of (codes "reply Data data")) ≡ Some (line.Message (codes "Data") message.Reply) }
    ensures hit { line_of (words_of (codes "core S load hit")) ≡ Some (line.Core (codes "S") event.Load (core.Hit None)) }
    ensures hit_to { line_of (words_of (codes "core E store hit M")) ≡ Some (line.Core (codes "E") event.Store (core.Hit (Some (codes "M")))) }
    ensures ask { line_of (words_of (codes "core I load GetS Data S DataE E"))
        ≡ Some (line.Core (codes "I") event.Load (core.Ask (codes "GetS") ((codes "Data", codes "S") ∷ (codes "DataE", codes "E") ∷ []))) }
    ensures leave { line_of (words_of (codes "core M evict PutM")) ≡ Some (line.Core (codes "M") event.Evict (core.Leave (codes "PutM"))) }
    ensures take { line_of (words_of (codes "take S Inv I")) ≡ Some (line.Take (codes "S") (codes "Inv") None (codes "I")) }
    ensures take_replying { line_of (words_of (codes "take M Fwd_GetS Data S"))
        ≡ Some (line.Take (codes "M") (codes "Fwd_GetS") (Some (codes "Data")) (codes "S")) }
    ensures row { line_of (words_of (codes "row S GetM sharer Data M"))
        ≡ Some (line.Row (codes "S") (row.Ask (codes "GetM") who.Sharer (codes "Data")) (codes "M")) }
    ensures row_evict { line_of (words_of (codes "row S evict sharer last I"))
        ≡ Some (line.Row (codes "S") (row.Evict who.Sharer left.Last) (codes "I")) }
    ensures end_line { line_of (words_of (codes "end")) ≡ Some line.End }
{}

/// Lines that are in no form, each for one thing that is wrong.
pub fn worked_refusals()
    ensures empty_line { line_of (words_of []) ≡ None }
    ensures capital { line_of (words_of (codes "Protocol MSI")) ≡ None }
    ensures space_before { line_of (words_of (codes " end")) ≡ None }
    ensures space_behind { line_of (words_of (codes "end ")) ≡ None }
    ensures two_spaces { line_of (words_of (codes "protocol  MSI")) ≡ None }
    ensures protocol_of_two { line_of (words_of (codes "protocol MSI MESI")) ≡ None }
    ensures underscore { line_of (words_of (codes "cache S_D shared read")) ≡ None }
    ensures not_clean { line_of (words_of (codes "cache E owner read dirty")) ≡ None }
    ensures no_such_kind { line_of (words_of (codes "dir V none")) ≡ None }
    ensures beside_underscore { line_of (words_of (codes "dir B mixed S_D")) ≡ None }
    ensures class_of_forward { line_of (words_of (codes "request GetM share")) ≡ None }
    ensures class_of_request { line_of (words_of (codes "forward Fwd_GetS read")) ≡ None }
    ensures reply_without_data { line_of (words_of (codes "reply Ack ack")) ≡ None }
    ensures ask_without_reply { line_of (words_of (codes "core I load GetS")) ≡ None }
    ensures hit_of_two { line_of (words_of (codes "core S load hit S_D")) ≡ None }
    ensures reply_without_state { line_of (words_of (codes "core I load GetS Data S DataE")) ≡ None }
    ensures evict_hits { line_of (words_of (codes "core S evict hit S")) ≡ None }
    ensures take_without_state { line_of (words_of (codes "take S Inv")) ≡ None }
    ensures take_of_two_replies { line_of (words_of (codes "take M Fwd_GetS Data Data S")) ≡ None }
    ensures other_evicts { line_of (words_of (codes "row S evict other last I")) ≡ None }
    ensures row_without_action { line_of (words_of (codes "row S GetM sharer M")) ≡ None }
    ensures end_with_word { line_of (words_of (codes "end end")) ≡ None }
{}

/// The lines of a text come in this order: its name, cache states, directory states, requests, forwards, replies, lines of a core, of what
/// caches take, of the directory, and its end.
pub fn kinds_are_ranked()
    ensures ranks { map rank_of (kind.Protocol ∷ kind.Cache ∷ kind.Dir ∷ kind.Request ∷ kind.Forward ∷ kind.Reply ∷ kind.Core ∷ kind.Take ∷ kind.Row ∷ kind.End ∷ [])
        ≡ range_with_len 0 10 }
    ensures first { map is_protocol (kind.Protocol ∷ kind.Cache ∷ kind.End ∷ []) ≡ true ∷ false ∷ false ∷ [] }
    ensures last { map is_end (kind.Protocol ∷ kind.Row ∷ kind.End ∷ []) ≡ false ∷ false ∷ true ∷ [] }
    ensures request { (name : List ℕ) → kind_of (line.Message name (message.Request asks.Read)) ≡ kind.Request }
    ensures forward { (name : List ℕ) → kind_of (line.Message name (message.Forward asked.Inv)) ≡ kind.Forward }
    ensures reply { (name : List ℕ) → kind_of (line.Message name message.Reply) ≡ kind.Reply }
    ensures take { (state forward next : List ℕ) → kind_of (line.Take state forward None next) ≡ kind.Take }
    ensures end_line { kind_of line.End ≡ kind.End }
{}
