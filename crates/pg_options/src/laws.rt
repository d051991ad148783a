//! The laws on words and commands.

ghost use Rattle.std.specs.Prelude.{◌≡◌, ◌↔◌, ℕ, List, [], ◌∷◌, codes, Option, Some, None};
ghost use Rattle.pg_perm.specs.declared.kinds.Mode.TheVariants as mode;
ghost use Rattle.pg_options.specs.declared.command.Command.TheVariants.{Text, Drill};
ghost use Rattle.pg_options.specs.declared.command.Task.TheVariants.{Check, Compile, Run};
ghost use Rattle.pg_options.specs.declared.command.Machine.TheVariants.{Atomic, Controllers};
ghost use Rattle.pg_options.specs.Options.{Given, given_in, command_of};
ghost use Rattle.pg_options.specs.Rule.{Spell};

/// Words are read as options exactly where they spell these, one after another, each as two words or as one. So it makes no difference how they are
/// spelled.
pub fn options_are_spelled()
    ensures read { (gs : List Given) (words : List (List ℕ)) → (given_in words ≡ Some gs) ↔ Spell gs words }
    ensures alike { (name : List ℕ) (gs : List Given) (words others : List (List ℕ)) → Spell gs words → Spell gs others
        → command_of (name ∷ words) ≡ command_of (name ∷ others) }
{}

/// What words ask for, as a person reads them: an option that isn't given has its default, and the order of options and their spelling make no difference.
pub fn worked_commands()
    ensures check { command_of (codes "check" ∷ []) ≡ Some (Text Check) }
    ensures atomic { command_of (codes "atomic" ∷ []) ≡ Some (Text (Run Atomic)) }
    ensures compile { command_of (codes "compile" ∷ []) ≡ Some (Text (Compile mode.Defer)) }
    ensures stalling { command_of (codes "compile" ∷ codes "--mode=stall" ∷ []) ≡ Some (Text (Compile mode.Stall)) }
    ensures run { command_of (codes "run" ∷ []) ≡ Some (Text (Run (Controllers mode.Defer 0))) }
    ensures seed { command_of (codes "run" ∷ codes "--seed" ∷ codes "18446744073709551615" ∷ []) ≡ Some (Text (Run (Controllers mode.Defer 18446744073709551615))) }
    ensures both { command_of (codes "run" ∷ codes "--mode" ∷ codes "stall" ∷ codes "--seed" ∷ codes "7" ∷ []) ≡ Some (Text (Run (Controllers mode.Stall 7))) }
    ensures other_order { command_of (codes "run" ∷ codes "--seed=7" ∷ codes "--mode" ∷ codes "stall" ∷ []) ≡ Some (Text (Run (Controllers mode.Stall 7))) }
    ensures drill { command_of (codes "drill" ∷ []) ≡ Some (Drill (record { mode = mode.Defer; seed = 0; cores = 4; blocks = 8; ops = 1000 })) }
    ensures largest { command_of (codes "drill" ∷ codes "--cores=32" ∷ codes "--blocks" ∷ codes "64" ∷ codes "--ops=16384" ∷ codes "--seed=7" ∷ codes "--mode=stall" ∷ [])
        ≡ Some (Drill (record { mode = mode.Stall; seed = 7; cores = 32; blocks = 64; ops = 16384 })) }
{}

/// Words that are none of a command: an option twice, of another command, without its value or with one that it may not have.
pub fn worked_refusals()
    ensures nothing { command_of [] ≡ None }
    ensures other_word { command_of (codes "Check" ∷ []) ≡ None }
    ensures threads { command_of (codes "threads" ∷ []) ≡ None }
    ensures help { command_of (codes "--help" ∷ []) ≡ None }
    ensures help_of_run { command_of (codes "run" ∷ codes "-h" ∷ []) ≡ None }
    ensures hyphens { command_of (codes "run" ∷ codes "--" ∷ codes "--seed" ∷ codes "1" ∷ []) ≡ None }
    ensures twice { command_of (codes "run" ∷ codes "--seed" ∷ codes "1" ∷ codes "--seed" ∷ codes "1" ∷ []) ≡ None }
    ensures both_spellings { command_of (codes "run" ∷ codes "--seed" ∷ codes "1" ∷ codes "--seed=1" ∷ []) ≡ None }
    ensures of_another { command_of (codes "compile" ∷ codes "--seed" ∷ codes "1" ∷ []) ≡ None }
    ensures none_of_check { command_of (codes "check" ∷ codes "--mode" ∷ codes "stall" ∷ []) ≡ None }
    ensures no_value { command_of (codes "run" ∷ codes "--seed" ∷ []) ≡ None }
    ensures empty_value { command_of (codes "run" ∷ codes "--seed=" ∷ []) ≡ None }
    ensures empty_mode { command_of (codes "run" ∷ codes "--mode=" ∷ []) ≡ None }
    ensures more_behind { command_of (codes "run" ∷ codes "--mode=stall=" ∷ []) ≡ None }
    ensures leading_zero { command_of (codes "run" ∷ codes "--seed" ∷ codes "01" ∷ []) ≡ None }
    ensures large_seed { command_of (codes "run" ∷ codes "--seed" ∷ codes "18446744073709551616" ∷ []) ≡ None }
    ensures no_core { command_of (codes "drill" ∷ codes "--cores" ∷ codes "0" ∷ []) ≡ None }
    ensures cores { command_of (codes "drill" ∷ codes "--cores" ∷ codes "33" ∷ []) ≡ None }
    ensures blocks { command_of (codes "drill" ∷ codes "--blocks" ∷ codes "65" ∷ []) ≡ None }
    ensures no_operation { command_of (codes "drill" ∷ codes "--ops" ∷ codes "0" ∷ []) ≡ None }
    ensures operations { command_of (codes "drill" ∷ codes "--ops" ∷ codes "16385" ∷ []) ≡ None }
    ensures mode { command_of (codes "drill" ∷ codes "--mode" ∷ codes "slow" ∷ []) ≡ None }
{}
