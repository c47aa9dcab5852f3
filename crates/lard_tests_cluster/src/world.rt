//! A run through each public call, beside the lines of its report, and the faults that only a cluster has.

ghost use Rattle.std.specs.Prelude.{◌≡◌, false, IfOk};
ghost use Rattle.lard_rules.specs.Bounds.{HasRule};

use lard_base::{Config, ConnId, Event, NoMemory, NodeId, Path, Place};
use lard_files::Files;
use lard_journal::{Journal, push_line};
use lard_rules::{Refusal, StepFault};
use lard_world::World;
use std::alloc::Global;
use std::process::Abort;
use std::test::Fail;

/// What happens to the one client, its packets, and the nodes.
#[derive(Clone, Copy)]
enum Step {
    Open,
    /// The client asks for `/a`.
    Get,
    Deliver(u32),
    FrontTimer,
    /// The timers of this node fire.
    NodeTimer(u32),
    Disk { n: u32, j: u32 },
    Drain(u32),
    Clock(u32),
}

/// A request is handed off to a node, which reads its file from the disk.
const SERVED: [Step; 11] = [
    Step::Open,
    Step::Get,
    Step::Deliver(1),
    Step::Deliver(2),
    Step::Deliver(3),
    Step::Deliver(4),
    Step::Deliver(6),
    Step::Disk { n: 1, j: 1 },
    Step::Deliver(7),
    Step::Deliver(8),
    Step::Deliver(9),
];

const SERVED_REPORT: &[u8] = b"event 1 open 1 1000 5000 65535 1460
opened 1 1000 5000 65535 1460
sent 1 c1 front 9c400050000003e8000000006002ffffe3ab0000020405b4
armed c1 1 tcp
event 2 get 1 /a
wrote 1 474554202f6120485454502f312e310d0a486f73743a206c6172640d0a0d0a
event 3 deliver 1
got 1
took front 1 1
sent 2 front c1 00509c4000001388000003e96012400090120000020405b4
armed front 1 tcp
event 4 deliver 2
got 2
sent 3 c1 front 9c400050000003e9000013895018ffff0dec0000474554202f6120485454502f312e310d0a486f73743a206c6172640d0a0d0a
event 5 deliver 3
got 3
admitted 1
assigned 1 1 first /a 1 1 -
gave front 1 1
sent 4 front n1 01010001000200000042000003e8000013880000001f0000000001ffff000003e90000138905b400000000001f474554202f6120485454502f312e310d0a486f73743a206c6172640d0a0d0a
cleared front 1 tcp
armed front 1 offer
event 6 deliver 4
got 4
took n1 1 2
queued n1 n1 1 1 /a
sent 5 n1 c1 00509c40000013890000040850104000a7b00000
sent 6 n1 front 01020001000200000000
event 7 deliver 6
got 6
cleared front 1 offer
event 8 disk 1 1
read n1 n1 1 1 /a
served n1 1 1 200 43 disk
sent 7 n1 c1 00509c40000013890000040850184000b4a70000485454502f312e3120323030204f4b0d0a436f6e74656e742d4c656e6774683a20350d0a0d0a68656c6c6f
armed n1 1 tcp
event 9 deliver 7
got 7
accepted 1 485454502f312e3120323030204f4b0d0a436f6e74656e742d4c656e6774683a20350d0a0d0a68656c6c6f
sent 8 c1 front 9c40005000000408000013b45010ffffe7850000
cleared c1 1 tcp
event 10 deliver 8
got 8
sent 9 front n1 010400010002000000149c40005000000408000013b45010ffffe7850000
event 11 deliver 9
got 9
cleared n1 1 tcp
";

/// The time moves on, twice.
const CLOCKED: [Step; 2] = [Step::Clock(20_001), Step::Clock(0)];

const CLOCKED_REPORT: &[u8] = b"event 1 clock 20001
clock 20001
event 2 clock 0
clock 20001
";

/// A node is closed, and is closed again.
const CLOSED: [Step; 2] = [Step::Drain(1), Step::Drain(1)];

const CLOSED_REPORT: &[u8] = b"event 1 drain 1
closed n1
event 2 drain 1
";

/// The event of a step.
fn event(alloc: Global, c: ConnId, step: Step) -> Result<Event, NoMemory>
    ensures { IfOk result HasRule }
{
    match step {
        Step::Open => {
            return Ok(Event::Open {
                c,
                isn: 1000,
                iss: 5000,
                wnd: 65_535,
                mss: 1_460,
            });
        }
        Step::Get => {
            let path = Path::from_slice(alloc, b"/a")?;
            return Ok(Event::Get { c, path });
        }
        Step::Deliver(k) => return Ok(Event::Deliver(k)),
        Step::FrontTimer => {
            let place = Place::Front;
            return Ok(Event::Timer { place, c });
        }
        Step::NodeTimer(n) => {
            let Some(n) = NodeId::new(n) else {
                return Err(NoMemory);
            };
            let place = Place::Node(n);
            return Ok(Event::Timer { place, c });
        }
        Step::Disk { n, j } => return Ok(Event::Disk { n, j }),
        Step::Drain(n) => return Ok(Event::Drain(n)),
        Step::Clock(ms) => return Ok(Event::Clock(ms)),
    }
}

/// Does these steps, as far as they pass, and answers the first fault.
fn run(
    alloc: Global,
    world: &mut World,
    c: ConnId,
    steps: &[Step],
) -> Result<Option<StepFault>, NoMemory>
    requires { world.old.spoiled ≡ false }
{
    for step in steps {
        let event = event(alloc, c, *step)?;
        if let Err(fault) = world.step(alloc, event) {
            return Ok(Some(fault));
        }
    }
    Ok(None)
}

/// One file.
fn files(alloc: Global) -> Result<Files, NoMemory> {
    let mut files = Files::new(alloc);
    if files.add(b"/a", b"hello").is_err() {
        return Err(NoMemory);
    }
    Ok(files)
}

/// The lines of a journal.
fn report(alloc: Global, journal: &Journal) -> Result<Vec<u8>, NoMemory> {
    let mut text = Vec::new(alloc);
    for rec in journal.as_slice() {
        push_line(&mut text, rec)?;
    }
    Ok(text)
}

/// The first fault, whether the world is as it was begun and is given up with the journal that was seen, and the lines of that.
type Told = (Option<StepFault>, bool, Vec<u8>);

fn is_as_begun(world: &World) -> bool {
    !world.spoiled() && world.config().nodes == 2 && world.files().get(b"/a").is_some()
}

/// What is told of a world once these steps are done.
fn done(alloc: Global, world: &mut World, c: ConnId, steps: &[Step]) -> Result<Told, NoMemory>
    requires { world.old.spoiled ≡ false }
{
    let fault = run(alloc, world, c, steps)?;
    let lines = report(alloc, world.journal())?;
    Ok((fault, is_as_begun(world), lines))
}

/// What is told of a cluster of two nodes that does these steps.
fn reported(alloc: Global, c: ConnId, steps: &[Step]) -> Result<Told, NoMemory> {
    let files = files(alloc)?;
    let mut world = World::new(alloc, Config::standard(), files)?;
    let told = done(alloc, &mut world, c, steps);
    let journal = world.finish();
    let (fault, is_as_begun, lines) = told?;
    let kept = report(alloc, &journal)?;
    Ok((
        fault,
        is_as_begun && kept.as_slice() == lines.as_slice(),
        lines,
    ))
}

/// Ends the test where these steps have a fault, or another report.
fn reports(rt: &impl Abort, alloc: Global, steps: &[Step], want: &[u8]) -> Result<(), NoMemory> {
    let c = ConnId::new(1).expect(rt, "the number of a connection");
    let (fault, is_kept, lines) = reported(alloc, c, steps)?;
    assert_eq!(rt; (fault, is_kept, lines.as_slice()), (None, true, want));
    Ok(())
}

#[test]
fn runs_have_their_reports(rt: HostRuntime) -> Result<(), Fail> {
    reports(&rt, rt.alloc(), &SERVED, SERVED_REPORT)?;
    reports(&rt, rt.alloc(), &CLOCKED, CLOCKED_REPORT)?;
    reports(&rt, rt.alloc(), &CLOSED, CLOSED_REPORT)?;
    Ok(())
}

/// Steps of which the last is refused, and why.
const REFUSED: &[(&[Step], Refusal)] = &[
    (
        &[Step::Open, Step::NodeTimer(1), Step::NodeTimer(3)],
        Refusal::NoNode { n: 3, nodes: 2 },
    ),
    (&[Step::NodeTimer(3)], Refusal::NoClient(1)),
    (&[Step::FrontTimer], Refusal::NoClient(1)),
    (
        &[Step::Disk { n: 0, j: 1 }],
        Refusal::NoNode { n: 0, nodes: 2 },
    ),
    (
        &[Step::Disk { n: 3, j: 1 }],
        Refusal::NoNode { n: 3, nodes: 2 },
    ),
    (
        &[Step::Disk { n: 2, j: 1 }],
        Refusal::NoJob { n: 2, j: 1, len: 0 },
    ),
    (
        &[Step::Disk { n: 2, j: 0 }],
        Refusal::NoJob { n: 2, j: 0, len: 0 },
    ),
    (&[Step::Drain(0)], Refusal::NoNode { n: 0, nodes: 2 }),
    (&[Step::Drain(3)], Refusal::NoNode { n: 3, nodes: 2 }),
    (&[Step::Drain(1), Step::Drain(2)], Refusal::LastNode(2)),
    (
        &[Step::Drain(1), Step::Drain(3)],
        Refusal::NoNode { n: 3, nodes: 2 },
    ),
];

/// The first fault of these steps, and whether all else is as it was begun.
fn fault_of(
    alloc: Global,
    c: ConnId,
    steps: &[Step],
) -> Result<(Option<StepFault>, bool), NoMemory> {
    let (fault, is_kept, _) = reported(alloc, c, steps)?;
    Ok((fault, is_kept))
}

#[test]
fn faults_of_nodes_are_named(rt: HostRuntime) {
    let c = ConnId::new(1).expect(&rt, "the number of a connection");
    for (at, (steps, why)) in REFUSED.iter().enumerate() {
        let told = fault_of(rt.alloc(), c, steps);
        let wanted = (Some(StepFault::Refused(*why)), true);
        assert_eq!(rt; told, Ok(wanted), "in row {at}");
    }
}
