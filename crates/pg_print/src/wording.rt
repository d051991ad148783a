//! The words of the tables of both controllers.
ghost use Rattle.std.specs.Prelude.{◌≡◌, ◌++◌, map, IfOk};
ghost use Rattle.std.specs.List.{flat_map};
ghost use Rattle.std.specs.String.{string_bytes};
ghost use Rattle.pg_print.specs.TableText.{Wording, cache_wording, dir_wording};

use crate::name::{dir_state_name, state_name};
use crate::word::{dir_input_word, input_word, put_act, put_dir_act};
use pg_perm::Draft;
use pg_table::{Act, Desc, DirAct, DirDesc, DirInput, Input};
use std::alloc::{AllocError, Global};

/// A state of a controller, whose table can be written.
pub trait State: Copy {
    type Input: Copy;

    type Act: Copy;

    ghost wording: { Wording Self Self.Input Self.Act };

    /// What stands before the name of a state.
    fn state_word() -> &'static str
        ensures { result.now ≡ wording.state };

    /// What stands before a row.
    fn row_word() -> &'static str
        ensures { result.now ≡ wording.row };

    fn name(self, alloc: Global, draft: &Draft) -> Result<String, AllocError>
        ensures { IfOk result (λ name. string_bytes name ≡ wording.name draft.now self) };

    fn input_word(alloc: Global, draft: &Draft, input: Self::Input) -> Result<String, AllocError>
        ensures { IfOk result (λ word. string_bytes word ≡ wording.input draft.now input) };

    /// Puts the words of an act last.
    fn put_act<'a>(
        words: &mut Vec<&'a str>,
        draft: &'a Draft,
        act: Self::Act,
    ) -> Result<(), AllocError>
        ensures { IfOk result (λ _. map (λ w. w.now) words.new.items ≡ map (λ w. w.now) words.old.items ++ wording.act draft.now act) };
}

impl State for Desc {
    type Input = Input;

    type Act = Act;

    ghost wording = { cache_wording };

    fn state_word() -> &'static str {
        "state"
    }

    fn row_word() -> &'static str {
        "on"
    }

    fn name(self, alloc: Global, draft: &Draft) -> Result<String, AllocError> {
        state_name(alloc, draft, self)
    }

    fn input_word(alloc: Global, draft: &Draft, input: Input) -> Result<String, AllocError> {
        input_word(alloc, draft, input)
    }

    fn put_act<'a>(words: &mut Vec<&'a str>, draft: &'a Draft, act: Act) -> Result<(), AllocError> {
        put_act(words, draft, act)
    }
}

impl State for DirDesc {
    type Input = DirInput;

    type Act = DirAct;

    ghost wording = { dir_wording };

    fn state_word() -> &'static str {
        "home"
    }

    fn row_word() -> &'static str {
        "at"
    }

    fn name(self, alloc: Global, draft: &Draft) -> Result<String, AllocError> {
        dir_state_name(alloc, draft, self)
    }

    fn input_word(alloc: Global, draft: &Draft, input: DirInput) -> Result<String, AllocError> {
        dir_input_word(alloc, draft, input)
    }

    fn put_act<'a>(
        words: &mut Vec<&'a str>,
        draft: &'a Draft,
        act: DirAct,
    ) -> Result<(), AllocError> {
        put_dir_act(words, draft, act)
    }
}

/// Puts the words of acts last.
pub fn put_acts<'a, D: State>(
    words: &mut Vec<&'a str>,
    draft: &'a Draft,
    acts: &[D::Act],
) -> Result<(), AllocError>
    ensures { IfOk result (λ _. map (λ w. w.now) words.new.items ≡ map (λ w. w.now) words.old.items ++ flat_map (D.wording.act draft.now) acts.now) }
{
    let mut left = acts;
    while let Some((act, rest)) = left.split_first() {
        D::put_act(words, draft, *act)?;
        left = rest;
    }
    Ok(())
}
