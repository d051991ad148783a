use super::printer::text_of;
use pg_perm::{CacheLine, DirKind, DirLine, Draft, Event, Mode, Perm, Role, Sequence, Word};
use pg_table::{Act, Desc, DirAct, DirDesc, DirInput, DirRow, DirTable, Input, Row, Table};
use std::alloc::{AllocError, Global};
use std::test::*;

fn cache(name: Word, role: Role, perm: Perm) -> CacheLine {
    CacheLine {
        line: 1,
        name,
        role,
        perm,
        clean: false,
    }
}

fn draft(alloc: Global) -> Result<Draft, AllocError> {
    let mut caches = Sequence::new(alloc);
    caches.push(cache(Word::new(b"I"), Role::Out, Perm::None))?;
    caches.push(cache(Word::new(b"Own"), Role::Owner, Perm::Write))?;
    let mut dirs = Sequence::new(alloc);
    dirs.push(DirLine {
        line: 1,
        name: Word::new(b"V"),
        kind: DirKind::Idle,
        beside: Sequence::new(alloc),
    })?;
    Ok(Draft {
        line: 1,
        name: Word::new(b"VI"),
        caches,
        dirs,
        messages: Sequence::new(alloc),
        cores: Sequence::new(alloc),
        takes: Sequence::new(alloc),
        rows: Sequence::new(alloc),
    })
}

fn row(alloc: Global, input: Input, act: Act) -> Result<Row, AllocError> {
    let mut inputs = Sequence::new(alloc);
    inputs.push(input)?;
    let mut acts = Sequence::new(alloc);
    acts.push(act)?;
    Ok(Row {
        inputs,
        acts,
        next: 0,
    })
}

fn home(alloc: Global) -> Result<DirTable, AllocError> {
    let mut inputs = Sequence::new(alloc);
    inputs.push(DirInput::EvictNone)?;
    let mut acts = Sequence::new(alloc);
    acts.push(DirAct::PutAck)?;
    let mut table = DirTable::new(alloc);
    table.add_state(DirDesc::State(0))?;
    table.add_row(DirRow {
        inputs,
        acts,
        next: 0,
    })?;
    Ok(table)
}

#[test]
fn a_line_for_each_state_and_row(rt: HostRuntime) -> Result<(), Fail> {
    let alloc = rt.alloc();
    let mut table = Table::new(alloc);
    table.add_state(Desc::Stable(0))?;
    table.add_row(row(alloc, Input::Core(Event::Evict), Act::Skip)?)?;
    table.add_state(Desc::Leave(1))?;
    table.add_row(row(alloc, Input::PutAck, Act::Done)?)?;
    let text = text_of(alloc, &draft(alloc)?, Mode::Stall, &table, &home(alloc)?)?;
    assert_eq!(rt;
        text.as_slice(),
        b"table VI stall\nstate I\nstate Own.I_A\non I evict skip -> I\non Own.I_A PutAck done -> I\nhome V\nat V evict.none putack -> V\nend\n".as_slice()
    );
    Ok(())
}
