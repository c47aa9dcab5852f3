//! One request, settled: the lines of its report, and what a settle of few rounds leaves.

ghost use Rattle.std.specs.Prelude.{◌≡◌, false, IfOk};
ghost use Rattle.lard_agenda.specs.Agenda.{nothing_noted};
ghost use Rattle.lard_rules.specs.Bounds.{HasRule};

use lard_agenda::Agenda;
use lard_base::{Config, ConnId, Event, NoMemory, Path};
use lard_files::Files;
use lard_journal::{Journal, push_line};
use lard_rules::StepFault;
use lard_settle::{Settled, settle};
use lard_world::World;
use std::alloc::Global;
use std::test::Fail;

/// What the client does, and four rounds. In the fourth the node gets the connection, and reads the file.
const FOUR_ROUNDS: &str = "event 1 open 1 1000 5000 65535 1460
opened 1 1000 5000 65535 1460
sent 1 c1 front 9c400050000003e8000000006002ffffe3ab0000020405b4
armed c1 1 tcp
event 2 get 1 /a
wrote 1 474554202f6120485454502f312e310d0a486f73743a206c6172640d0a0d0a
event 3 settle 4
inner deliver 1
got 1
took front 1 1
sent 2 front c1 00509c4000001388000003e96012400090120000020405b4
armed front 1 tcp
inner deliver 2
got 2
sent 3 c1 front 9c400050000003e9000013895018ffff0dec0000474554202f6120485454502f312e310d0a486f73743a206c6172640d0a0d0a
inner deliver 3
got 3
admitted 1
assigned 1 1 first /a 1 1 -
gave front 1 1
sent 4 front n1 01010001000200000042000003e8000013880000001f0000000001ffff000003e90000138905b400000000001f474554202f6120485454502f312e310d0a486f73743a206c6172640d0a0d0a
cleared front 1 tcp
armed front 1 offer
inner deliver 4
got 4
took n1 1 2
queued n1 n1 1 1 /a
sent 5 n1 c1 00509c40000013890000040850104000a7b00000
sent 6 n1 front 01020001000200000000
inner disk 1 1
read n1 n1 1 1 /a
served n1 1 1 200 43 disk
sent 7 n1 c1 00509c40000013890000040850184000b4a70000485454502f312e3120323030204f4b0d0a436f6e74656e742d4c656e6774683a20350d0a0d0a68656c6c6f
armed n1 1 tcp
unsettled 4 3
";

/// The event with which the client begins, and the one with which it asks.
fn opening(c: ConnId) -> Event
    ensures { HasRule result }
{
    Event::Open {
        c,
        isn: 1000,
        iss: 5000,
        wnd: 65_535,
        mss: 1_460,
    }
}

fn asking(alloc: Global, c: ConnId) -> Result<Event, NoMemory>
    ensures { IfOk result HasRule }
{
    let path = Path::from_slice(alloc, b"/a")?;
    Ok(Event::Get { c, path })
}

/// The client opens and asks, and all settles within so many rounds.
fn run(
    alloc: Global,
    world: &mut World,
    agenda: &mut Agenda,
    c: ConnId,
    rounds: u32,
) -> Result<Settled, StepFault>
    requires usable { world.old.spoiled ≡ false }
    requires agenda { agenda.old ≡ nothing_noted }
{
    world.step(alloc, opening(c))?;
    let event = asking(alloc, c)?;
    world.step(alloc, event)?;
    settle(world, agenda, alloc, rounds)
}

/// One file.
fn files(alloc: Global) -> Result<Files, NoMemory> {
    let mut files = Files::new(alloc);
    if files.add(b"/a", b"hello").is_err() {
        return Err(NoMemory);
    }
    Ok(files)
}

/// How the settle ends, and the lines of the journal.
type Told = (Result<Settled, StepFault>, Vec<u8>);

fn reported(alloc: Global, c: ConnId, rounds: u32) -> Result<Told, NoMemory> {
    let files = files(alloc)?;
    let mut agenda = Agenda::new(alloc);
    let mut world = World::new(alloc, Config::standard(), files)?;
    let ended = run(alloc, &mut world, &mut agenda, c, rounds);
    let journal = world.finish();
    Ok((ended, report(alloc, &journal)?))
}

/// The lines of a journal.
fn report(alloc: Global, journal: &Journal) -> Result<Vec<u8>, NoMemory> {
    let mut text = Vec::new(alloc);
    for rec in journal.as_slice() {
        push_line(&mut text, rec)?;
    }
    Ok(text)
}

#[test]
fn few_rounds_leave_it_open(rt: HostRuntime) -> Result<(), Fail> {
    let c = ConnId::new(1).expect(&rt, "the number of a connection");
    let (ended, told) = reported(rt.alloc(), c, 4)?;
    let wanted = (
        Ok(Settled::Open { rounds: 4, left: 3 }),
        FOUR_ROUNDS.as_bytes(),
    );
    assert_eq!(rt; (ended, told.as_slice()), wanted);
    Ok(())
}

#[test]
fn a_request_settles(rt: HostRuntime) -> Result<(), Fail> {
    let c = ConnId::new(1).expect(&rt, "the number of a connection");
    let (ended, told) = reported(rt.alloc(), c, 100)?;
    let is_told = told.as_slice().ends_with(b"cleared n1 1 tcp\nsettled 7\n");
    assert_eq!(rt; (ended, is_told), (Ok(Settled::Quiet(7)), true));
    Ok(())
}
