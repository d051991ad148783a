use super::*;
use pg_perm::{Event, ReqClass, Sequence, Who};
use std::alloc::{AllocError, Global};
use std::test::*;

fn row(alloc: Global, input: Input, next: u16) -> Result<Row, AllocError> {
    let mut inputs = Sequence::new(alloc);
    inputs.push(input)?;
    let acts = Sequence::new(alloc);
    Ok(Row { inputs, acts, next })
}

fn dir_row(alloc: Global, input: DirInput, next: u16) -> Result<DirRow, AllocError> {
    let mut inputs = Sequence::new(alloc);
    inputs.push(input)?;
    let acts = Sequence::new(alloc);
    Ok(DirRow { inputs, acts, next })
}

#[test]
fn rows_of_two_states(rt: HostRuntime) -> Result<(), Fail> {
    let alloc = rt.alloc();
    let (load, ack) = (Input::Core(Event::Load), Input::PutAck);
    let mut table = Table::new(alloc);
    table.add_state(Desc::Stable(0))?;
    table.add_row(row(alloc, load, 1)?)?;
    table.add_row(row(alloc, load, 2)?)?;
    table.add_state(Desc::Leave(0))?;
    table.add_row(row(alloc, ack, 3)?)?;
    assert_eq!(rt; table.states(), 2);
    assert_eq!(rt; table.desc(1), Desc::Leave(0));
    assert_eq!(rt; table.rows(0), 2);
    assert_eq!(rt; table.row_at(0, 1).next, 2);
    for (state, input, wanted) in [
        (0, load, Some(1)),
        (1, load, None),
        (1, ack, Some(3)),
        (2, ack, None),
    ] {
        let found = table.find(state, input).map(|row| row.next);
        assert_eq!(rt; found, wanted);
    }
    Ok(())
}

#[test]
fn rows_of_two_directory_states(rt: HostRuntime) -> Result<(), Fail> {
    let alloc = rt.alloc();
    let ask = DirInput::Ask(ReqClass::Read, Who::Other);
    let mut table = DirTable::new(alloc);
    table.add_state(DirDesc::State(0))?;
    table.add_row(dir_row(alloc, ask, 1)?)?;
    table.add_state(DirDesc::Busy(0))?;
    table.add_row(dir_row(alloc, DirInput::Wb, 0)?)?;
    assert_eq!(rt; table.states(), 2);
    assert_eq!(rt; table.desc(1), DirDesc::Busy(0));
    assert_eq!(rt; table.rows(1), 1);
    assert_eq!(rt; table.row_at(0, 0).next, 1);
    for (state, input, wanted) in [
        (0, ask, Some(1)),
        (0, DirInput::Wb, None),
        (1, DirInput::Wb, Some(0)),
        (2, ask, None),
    ] {
        let found = table.find(state, input).map(|row| row.next);
        assert_eq!(rt; found, wanted);
    }
    Ok(())
}
