//! Laws on what the states of the tables mean, and on their rows.

ghost use Rattle.std.specs.Prelude.{ℕ, ◌≡◌, ◌↔◌, true, false, [], ◌∷◌, filter, slice_get, Some, None};
ghost use Rattle.std.specs.List.{list_any};
ghost use Rattle.pg_perm.specs.declared.kinds.Event.{Event};
ghost use Rattle.pg_perm.specs.declared.kinds.FwdClass.TheVariants as class;
ghost use Rattle.pg_perm.specs.declared.kinds.Mode.TheVariants as mode;
ghost use Rattle.pg_perm.specs.declared.draft.Draft.{Draft};
ghost use Rattle.pg_perm.specs.declared.draft.TakeLine.{TakeLine};
ghost use Rattle.pg_perm.specs.Drafts.{IsWellFormed};
ghost use Rattle.pg_terms.specs.Terms.{has_class, take_row};
ghost use Rattle.pg_terms.specs.Due.{is_due};
ghost use Rattle.pg_shape.specs.Shaped.{IsShaped};
ghost use Rattle.pg_table.specs.declared.cache.Tag.{Tag};
ghost use Rattle.pg_table.specs.declared.cache.Tag.TheVariants.{Plain, Kept, Gave, Gone};
ghost use Rattle.pg_table.specs.declared.cache.Input.{Input};
ghost use Rattle.pg_table.specs.declared.cache.Act.TheVariants as act;
ghost use Rattle.pg_table.specs.declared.directory.DirInput.{DirInput};
ghost use Rattle.pg_table.specs.declared.directory.DirAct.TheVariants as does;
ghost use Rattle.pg_table.specs.Descriptors.{end_under_tag, final_states};
ghost use Rattle.pg_table.specs.Choices.{is_later, tag_by};
ghost use Rattle.pg_table.specs.Directory.{dir_descs, DirChoice, dir_choice};
ghost use Rattle.pg_table.specs.Stalls.{is_later_at, is_stall, is_asked_busy, is_dir_stall};
ghost use Rattle.pg_table.specs.Tables.{Row, TableState, DirRow, DirTableState, has_dir_input, cache_table, dir_table_row, dir_table};
ghost use Rattle.pg_table.specs.Sound.{rows_for};

/// The tag of an operation tells the state in which it ends: a forward that is due there has its row, and its own tag tells the state that the row leads
/// to, which for a keep after a keep is the same. A later forward may come where it is due there, for one of its final states, until the word is given
/// to memory or gone; from then on none may.
pub fn tags_tell_the_state()
    ensures leads { (d : Draft) (f : ℕ) (t : Tag) (x g : ℕ) → IsShaped d → end_under_tag d f t ≡ Some x → is_due d x g ≡ true
        → (l : TakeLine) × (take_row d x g ≡ Some l) × (end_under_tag d f (tag_by d g) ≡ Some l.next) }
    ensures stays { (d : Draft) (f x g : ℕ) → IsShaped d → end_under_tag d f Kept ≡ Some x → is_due d x g ≡ true → has_class class.Keep d g ≡ true
        → (l : TakeLine) × (take_row d x g ≡ Some l) × (l.next ≡ x) }
    ensures due { (d : Draft) (s : ℕ) (e : Event) (t : Tag) (g : ℕ) → is_later d s e t g ≡ true
        → (k : ℕ) × (f : ℕ) × (x : ℕ) × (slice_get (final_states d s e) k ≡ Some f) × (end_under_tag d f t ≡ Some x) × (is_due d x g ≡ true) }
    ensures plain { (d : Draft) (s : ℕ) (e : Event) (k f g : ℕ) → slice_get (final_states d s e) k ≡ Some f → is_due d f g ≡ true
        → is_later d s e Plain g ≡ true }
    ensures kept { (d : Draft) (s : ℕ) (e : Event) (k f x g : ℕ) → slice_get (final_states d s e) k ≡ Some f → end_under_tag d f Kept ≡ Some x → is_due d x g ≡ true
        → is_later d s e Kept g ≡ true }
    ensures gave { (d : Draft) (s : ℕ) (e : Event) (g : ℕ) → is_later d s e Gave g ≡ false }
    ensures gone { (d : Draft) (s : ℕ) (e : Event) (g : ℕ) → is_later d s e Gone g ≡ false }
{}

/// Where forwards are put off, no row of a cache controller lets one wait.
pub fn deferring_tables_never_stall()
    ensures { (d : Draft) (n k : ℕ) (s : TableState) (r : Row) → slice_get (cache_table d mode.Defer) n ≡ Some s → slice_get s.rows k ≡ Some r
        → list_any is_stall r.acts ≡ false }
{}

/// Where forwards wait, exactly the rows of a cache controller let one wait that are for a forward later than the operation. Each such forward has that
/// row alone, which does nothing else and stays in its state.
pub fn stalling_tables_stall_later_forwards()
    ensures stalls { (d : Draft) (n k : ℕ) (s : TableState) (r : Row) (i : Input) → slice_get (cache_table d mode.Stall) n ≡ Some s
        → slice_get s.rows k ≡ Some r → r.inputs ≡ i ∷ [] → ((r.acts ≡ act.Stall ∷ []) ↔ (is_later_at d s.desc i ≡ true)) }
    ensures others { (d : Draft) (n k : ℕ) (s : TableState) (r : Row) (i : Input) → slice_get (cache_table d mode.Stall) n ≡ Some s
        → slice_get s.rows k ≡ Some r → r.inputs ≡ i ∷ [] → is_later_at d s.desc i ≡ false → list_any is_stall r.acts ≡ false }
    ensures row { (d : Draft) (n : ℕ) (s : TableState) (i : Input) → IsWellFormed d → IsShaped d → slice_get (cache_table d mode.Stall) n ≡ Some s
        → is_later_at d s.desc i ≡ true → rows_for i s.rows ≡ record { inputs = i ∷ []; acts = act.Stall ∷ []; next = n } ∷ [] }
{}

/// A state of the directory's table has for an input the row of the directory's choice and no other, and none where there is no choice; and each row is
/// for one input.
pub fn directory_tables_have_one_row()
    ensures some { (d : Draft) (n : ℕ) (s : DirTableState) (i : DirInput) (c : DirChoice) → slice_get (dir_table d) n ≡ Some s
        → dir_choice d s.desc i ≡ Some c
        → filter (λ r. has_dir_input r.inputs i) s.rows ≡ dir_table_row (dir_descs d) (record { input = i; choice = c }) ∷ [] }
    ensures none { (d : Draft) (n : ℕ) (s : DirTableState) (i : DirInput) → slice_get (dir_table d) n ≡ Some s → dir_choice d s.desc i ≡ None
        → filter (λ r. has_dir_input r.inputs i) s.rows ≡ [] }
    ensures single { (d : Draft) (n k : ℕ) (s : DirTableState) (r : DirRow) → slice_get (dir_table d) n ≡ Some s → slice_get s.rows k ≡ Some r
        → (i : DirInput) × (r.inputs ≡ i ∷ []) }
{}

/// Exactly the rows of the directory's table let a request wait that are for one while the directory waits for data, and they do nothing else.
pub fn directory_tables_stall_when_busy()
    ensures stalls { (d : Draft) (n k : ℕ) (s : DirTableState) (r : DirRow) (i : DirInput) → slice_get (dir_table d) n ≡ Some s
        → slice_get s.rows k ≡ Some r → r.inputs ≡ i ∷ [] → ((list_any is_dir_stall r.acts ≡ true) ↔ (is_asked_busy s.desc i ≡ true)) }
    ensures alone { (d : Draft) (n k : ℕ) (s : DirTableState) (r : DirRow) (i : DirInput) → slice_get (dir_table d) n ≡ Some s
        → slice_get s.rows k ≡ Some r → r.inputs ≡ i ∷ [] → ((r.acts ≡ does.Stall ∷ []) ↔ (is_asked_busy s.desc i ≡ true)) }
{}
