//! Laws of the definitions that the contracts of this crate cite.
ghost use Rattle.std.specs.Prelude.{◌≡◌, ◌<◌, ◌≤◌, ◌⊎◌, ℕ, true, false, List, [], ◌∷◌, map, length, codes, Some, None, bytes_eq};
ghost use Rattle.std.specs.List.{list_any, range_with_len};
ghost use Rattle.pg_perm.specs.declared.fault.Fault.{Fault};
ghost use Rattle.pg_perm.specs.declared.fault.Rule.TheVariants as rule;
ghost use Rattle.pg_perm.specs.declared.kinds.Role.TheVariants as role;
ghost use Rattle.pg_perm.specs.declared.kinds.Perm.TheVariants as perm;
ghost use Rattle.pg_perm.specs.declared.kinds.ReqClass.TheVariants as asks;
ghost use Rattle.pg_perm.specs.declared.kinds.DirKind.TheVariants as knows;
ghost use Rattle.pg_perm.specs.declared.kinds.FwdClass.TheVariants as asked;
ghost use Rattle.pg_perm.specs.declared.kinds.Who.TheVariants as who;
ghost use Rattle.pg_perm.specs.declared.kinds.Left.TheVariants as left;
ghost use Rattle.pg_perm.specs.declared.kinds.Event.TheVariants as event;
ghost use Rattle.pg_perm.specs.declared.kinds.Mode.TheVariants as mode;
ghost use Rattle.pg_perm.specs.Drafts.{taken_names, are_distinct, is_ordered, is_rising};
ghost use Rattle.pg_perm.specs.Names.{is_letter, is_digit, is_name, is_state_name};
ghost use Rattle.pg_perm.specs.Rules.{ordered_rules, rule_rank, IsNoLater};
ghost use Rattle.pg_perm.specs.Vocabularies.{find_word};
ghost use Rattle.pg_perm.specs.Words as words;

/// The rank of a rule is its place: F1 to F6 come first, then S1 to S19, then C1 to C5.
pub fn rules_are_ranked()
    ensures { map rule_rank ordered_rules ≡ range_with_len 1 30 }
{}

/// Faults are ordered by their lines, and those of one line by their rules: of two the one or the other is no later, and where both are, they are the same.
pub fn faults_are_ordered()
    ensures by_line { (f g : Fault) → f.line < g.line → IsNoLater f g.line g.rule }
    ensures by_rule { IsNoLater (record { line = 2; rule = rule.F2 }) 2 rule.S1 }
    ensures either { (f g : Fault) → IsNoLater f g.line g.rule ⊎ IsNoLater g f.line f.rule }
    ensures same { (f g : Fault) → IsNoLater f g.line g.rule → IsNoLater g f.line f.rule → f ≡ g }
{}

/// Which words are names, at the edges of what is allowed: 1 to 24 ASCII letters, digits and `_`, a letter first, and no `_` for a state.
pub fn worked_names()
    ensures letters { map is_letter (codes "@AZ[`az{") ≡ false ∷ true ∷ true ∷ false ∷ false ∷ true ∷ true ∷ false ∷ [] }
    ensures digits { map is_digit (codes "/09:") ≡ false ∷ true ∷ true ∷ false ∷ [] }
    ensures names { map is_name (codes "M" ∷ codes "Get_S2" ∷ codes "abcdefghijklmnopqrstuvwx" ∷ []) ≡ true ∷ true ∷ true ∷ [] }
    ensures others { map is_name ([] ∷ codes "2M" ∷ codes "_M" ∷ codes "M-" ∷ codes "abcdefghijklmnopqrstuvwxy" ∷ []) ≡ false ∷ false ∷ false ∷ false ∷ false ∷ [] }
    ensures states { map is_state_name (codes "M2" ∷ codes "M_2" ∷ codes "2M" ∷ []) ≡ true ∷ false ∷ false ∷ [] }
    ensures taken { map (λ n. list_any (bytes_eq n) taken_names)
        (codes "InvAck" ∷ codes "PutAck" ∷ codes "AckCount" ∷ codes "WbData" ∷ codes "hit" ∷ codes "count" ∷ codes "evict" ∷ codes "Data" ∷ [])
        ≡ true ∷ true ∷ true ∷ true ∷ true ∷ true ∷ true ∷ false ∷ [] }
{}

/// A name has 1 to 24 bytes.
pub fn names_are_short()
    ensures { (w : List ℕ) → is_name w ≡ true → (1 ≤ length w) × (length w ≤ 24) }
{}

/// What texts, tables and histories call the kinds.
pub fn worked_words()
    ensures roles { map (find_word words.role_word words.roles) (codes "out" ∷ codes "shared" ∷ codes "owner" ∷ codes "none" ∷ [])
        ≡ Some role.Out ∷ Some role.Shared ∷ Some role.Owner ∷ None ∷ [] }
    ensures perms { map (find_word words.perm_word words.perms) (codes "none" ∷ codes "read" ∷ codes "write" ∷ codes "out" ∷ [])
        ≡ Some perm.None ∷ Some perm.Read ∷ Some perm.Write ∷ None ∷ [] }
    ensures dir_kinds { map (find_word words.dir_word words.dir_kinds) (codes "idle" ∷ codes "shared" ∷ codes "owned" ∷ codes "mixed" ∷ codes "owner" ∷ [])
        ≡ Some knows.Idle ∷ Some knows.Shared ∷ Some knows.Owned ∷ Some knows.Mixed ∷ None ∷ [] }
    ensures requests { map (find_word words.request_word words.requests) (codes "read" ∷ codes "write" ∷ codes "clean" ∷ codes "dirty" ∷ codes "inv" ∷ [])
        ≡ Some asks.Read ∷ Some asks.Write ∷ Some asks.Clean ∷ Some asks.Dirty ∷ None ∷ [] }
    ensures forwards { map (find_word words.forward_word words.forwards) (codes "inv" ∷ codes "share" ∷ codes "keep" ∷ codes "drop" ∷ codes "read" ∷ [])
        ≡ Some asked.Inv ∷ Some asked.Share ∷ Some asked.Keep ∷ Some asked.Drop ∷ None ∷ [] }
    ensures events { map (find_word words.event_word words.events) (codes "load" ∷ codes "store" ∷ codes "evict" ∷ codes "Load" ∷ [])
        ≡ Some event.Load ∷ Some event.Store ∷ Some event.Evict ∷ None ∷ [] }
    ensures senders { map (find_word words.who_word words.senders) (codes "other" ∷ codes "sharer" ∷ codes "owner" ∷ codes "shared" ∷ [])
        ≡ Some who.Other ∷ Some who.Sharer ∷ Some who.Owner ∷ None ∷ [] }
    ensures holders { map (find_word words.who_word words.holders) (codes "other" ∷ codes "sharer" ∷ codes "owner" ∷ [])
        ≡ None ∷ Some who.Sharer ∷ Some who.Owner ∷ [] }
    ensures lefts { map (find_word words.left_word words.lefts) (codes "last" ∷ codes "more" ∷ codes "less" ∷ []) ≡ Some left.Last ∷ Some left.More ∷ None ∷ [] }
    ensures modes { map (find_word words.mode_word words.modes) (codes "stall" ∷ codes "defer" ∷ codes "mix" ∷ []) ≡ Some mode.Stall ∷ Some mode.Defer ∷ None ∷ [] }
{}

/// What the lists of a draft's numbers and names must be, on small ones.
pub fn worked_lists()
    ensures ordered { map is_ordered ([] ∷ (0 ∷ 0 ∷ 2 ∷ []) ∷ (0 ∷ 2 ∷ 1 ∷ []) ∷ []) ≡ true ∷ true ∷ false ∷ [] }
    ensures rising { map is_rising ([] ∷ (1 ∷ 2 ∷ 5 ∷ []) ∷ (1 ∷ 2 ∷ 2 ∷ []) ∷ []) ≡ true ∷ true ∷ false ∷ [] }
    ensures distinct { map are_distinct ((codes "M" ∷ codes "m" ∷ []) ∷ (codes "M" ∷ codes "S" ∷ codes "M" ∷ []) ∷ []) ≡ true ∷ false ∷ [] }
{}
