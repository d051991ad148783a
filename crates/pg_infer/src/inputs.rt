//! The inputs of a cache controller, in their order.
ghost use Rattle.std.specs.Prelude.{◌≡◌, [], ◌∷◌, ◌++◌, map, length, ◌≤◌, if◌then◌else◌, IfOk};
ghost use Rattle.std.specs.List.{flat_map};
ghost use Rattle.pg_perm.specs.Classes as way;
ghost use Rattle.pg_perm.specs.Drafts.{IsWellFormed};
ghost use Rattle.pg_table.specs.declared.cache.Input.TheVariants as at;
ghost use Rattle.pg_table.specs.GeneratedStates as generated_states;

use pg_perm::{Draft, Event, MsgClass, MsgLine};
use pg_table::Input;
use std::alloc::{AllocError, Global};

/// What comes from the core, first.
const CORE: &[Input] = &[
    Input::Core(Event::Load),
    Input::Core(Event::Store),
    Input::Core(Event::Evict),
];

/// What comes from the directory, after the forwards.
const ANSWERS: &[Input] = &[Input::CountAll, Input::CountPart, Input::PutAck];

const ACKS: &[Input] = &[Input::AckMore, Input::AckLast];

fn put_forward(inputs: &mut Vec<Input>, class: MsgClass, number: u8) -> Result<(), AllocError>
    ensures { IfOk result (λ _. inputs.new.items ≡ inputs.old.items ++ (if way.is_forward class then at.Forward number ∷ [] else [])) }
{
    match class {
        MsgClass::Forward(_) => inputs.push(Input::Forward(number))?,
        _ => (),
    }
    Ok(())
}

fn put_data(inputs: &mut Vec<Input>, class: MsgClass, number: u8) -> Result<(), AllocError>
    ensures { IfOk result (λ _. inputs.new.items ≡ inputs.old.items ++ (if way.is_reply class then at.DataAll number ∷ at.DataPart number ∷ [] else [])) }
{
    match class {
        MsgClass::Reply => {
            inputs.push(Input::DataAll(number))?;
            inputs.push(Input::DataPart(number))?;
        }
        _ => (),
    }
    Ok(())
}

fn put_forwards(inputs: &mut Vec<Input>, messages: &[MsgLine]) -> Result<(), AllocError>
    requires { length messages.now ≤ 32 }
    ensures { IfOk result (λ _. inputs.new.items ≡ inputs.old.items ++ map (λ f. at.Forward f) (generated_states.messages_from way.is_forward 0 messages.now)) }
{
    for number in 0..messages.len() as u8 {
        put_forward(inputs, messages[usize::from(number)].class, number)?;
    }
    Ok(())
}

fn put_replies(inputs: &mut Vec<Input>, messages: &[MsgLine]) -> Result<(), AllocError>
    requires { length messages.now ≤ 32 }
    ensures { IfOk result (λ _. inputs.new.items ≡ inputs.old.items ++ flat_map (λ r. at.DataAll r ∷ at.DataPart r ∷ []) (generated_states.messages_from way.is_reply 0 messages.now)) }
{
    for number in 0..messages.len() as u8 {
        put_data(inputs, messages[usize::from(number)].class, number)?;
    }
    Ok(())
}

/// The inputs of a cache controller.
pub fn inputs(alloc: Global, draft: &Draft) -> Result<Vec<Input>, AllocError>
    requires { IsWellFormed draft.now }
    ensures { IfOk result (λ all. all.items ≡ generated_states.inputs draft.now) }
{
    let messages = draft.messages.as_slice();
    let mut inputs = Vec::new(alloc);
    inputs.extend_from_slice(CORE)?;
    put_forwards(&mut inputs, messages)?;
    inputs.extend_from_slice(ANSWERS)?;
    put_replies(&mut inputs, messages)?;
    inputs.extend_from_slice(ACKS)?;
    Ok(inputs)
}
