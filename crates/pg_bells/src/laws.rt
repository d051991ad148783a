//! What the definitions of this crate give.
ghost use Rattle.std.specs.Prelude.{◌≡◌, ℕ, ◌≤◌, ◌++◌, [], ◌∷◌, List, length, All};
ghost use Rattle.pg_bells.specs.declared.bell.Bell.{Bell};
ghost use Rattle.pg_bells.specs.declared.pass.RingPass.{RingPass};
ghost use Rattle.pg_bells.specs.declared.pass.AnswerPass.{AnswerPass};
ghost use Rattle.pg_bells.specs.Histories.{blocks, Numbered, Stands, Rises, IsRising};
ghost use Rattle.pg_bells.specs.Passes.{rung_by, taken_by};
ghost use Rattle.pg_bells.specs.Closing.{all_taken, rung_count, NoneTwice, AreLeft};
ghost use Rattle.pg_bells.specs.Worked.{bell, three};

/// Serials count from 0, for each core by itself.
pub fn worked_histories()
    ensures first { blocks 0 three ≡ 3 ∷ 4 ∷ [] }
    ensures second { blocks 1 three ≡ 5 ∷ [] }
    ensures numbered { Numbered [] three }
    ensures from_zero { ¬ (Numbered [] (bell 0 1 3 ∷ [])) }
    ensures no_gap { ¬ (Numbered [] (bell 0 0 3 ∷ bell 0 2 4 ∷ [])) }
    ensures stands { Stands three (bell 0 1 4) }
    ensures other_block { ¬ (Stands three (bell 0 1 3)) }
    ensures other_core { ¬ (Stands three (bell 1 1 4)) }
    ensures equal_serial { ¬ (Rises (bell 0 1 4 ∷ []) (bell 0 1 4)) }
    ensures core_alone { Rises (bell 1 7 5 ∷ []) (bell 0 0 3) }
    ensures twice { ¬ (NoneTwice (bell 0 0 3 ∷ bell 0 0 4 ∷ [])) }
{}

/// In a numbered history each bell stands at its serial.
pub fn bells_stand()
    ensures { (bells : List Bell) → Numbered [] bells → All (Stands bells) bells }
{}

/// In a numbered history no two bells have the same core and serial.
pub fn no_bell_stands_twice()
    ensures { (bells : List Bell) → Numbered [] bells → NoneTwice bells }
{}

/// Where each bell that is taken rises above those before it, the serials of each core rise.
pub fn answers_rise()
    ensures none { IsRising [] }
    ensures more { (taken : List Bell) (b : Bell) → IsRising taken → Rises taken b → IsRising (taken ++ b ∷ []) }
{}

/// Where nothing was taken all that was rung is left, and no more than was rung is ever left or taken.
pub fn what_is_left()
    ensures all { (left : ℕ) (rings : List RingPass) → AreLeft left rings [] → left ≡ rung_count rings }
    ensures bound { (left : ℕ) (rings : List RingPass) (answers : List AnswerPass) → AreLeft left rings answers → (left ≤ rung_count rings) × (length (all_taken answers) ≤ rung_count rings) }
    ensures taken { (left : ℕ) (ring : RingPass) (answer : AnswerPass) → AreLeft left (ring ∷ []) (answer ∷ []) → length (taken_by answer) ≡ length (rung_by ring) → left ≡ 0 }
{}
