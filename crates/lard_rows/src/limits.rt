//! Rows at the stream limit, and of a cluster that is full.

use crate::rows::{Row, Told};
use lard_app::Status;

/// The first response would have 201 bytes, where the stream limit is 200: the node resets the connection.
pub const FIRST_RESPONSE_PAST_THE_LIMIT: Row = Row {
    input: "\
lard 1
stream 200
fill /a 161 41
go
open 1 1000 5000 65535 1460
get 1 /a
deliver 1
deliver 2
deliver 3
deliver 4
deliver 6
disk 1 1
deliver 8
deliver 9
",
    status: Status::Done,
    report: "\
report 1 nodes 2 low 25 high 65 age 20000 idle 25 over 130 miss 50 cache 1048576 stream 200
file /a 161
event 1 open 1 1000 5000 65535 1460
opened 1 1000 5000 65535 1460
sent 1 c1 front 9c400050000003e8000000006002ffffe3ab0000020405b4
armed c1 1 tcp
event 2 get 1 /a
wrote 1 474554202f6120485454502f312e310d0a486f73743a206c6172640d0a0d0a
event 3 deliver 1
got 1
took front 1 1
sent 2 front c1 00509c4000001388000003e96012400090120000020405b4
armed front 1 tcp
event 4 deliver 2
got 2
sent 3 c1 front 9c400050000003e9000013895018ffff0dec0000474554202f6120485454502f312e310d0a486f73743a206c6172640d0a0d0a
event 5 deliver 3
got 3
admitted 1
assigned 1 1 first /a 1 1 -
gave front 1 1
sent 4 front n1 01010001000200000042000003e8000013880000001f0000000001ffff000003e90000138905b400000000001f474554202f6120485454502f312e310d0a486f73743a206c6172640d0a0d0a
cleared front 1 tcp
armed front 1 offer
event 6 deliver 4
got 4
took n1 1 2
queued n1 n1 1 1 /a
sent 5 n1 c1 00509c40000013890000040850104000a7b00000
sent 6 n1 front 01020001000200000000
event 7 deliver 6
got 6
cleared front 1 offer
event 8 disk 1 1
read n1 n1 1 1 /a
reset n1 1 201
sent 7 n1 c1 00509c40000013890000040850140000e7ac0000
gave n1 1 2
sent 8 n1 front 0109000100020000000d020000138900000408000000c9
armed n1 1 ended
event 9 deliver 8
got 8
took front 1 3
released 1
sent 9 front n1 010a0001000200000000
event 10 deliver 9
got 9
cleared n1 1 ended
",
};

/// A response of exactly the stream limit at one node, and at the other one that would pass it by a byte.
pub const RESPONSES_AT_THE_LIMIT: Row = Row {
    input: "\
lard 1
stream 200
fill /a 160 41
fill /b 161 42
go
open 1 1 1 65535 1460
get 1 /a
open 2 1 1 65535 1460
get 2 /b
settle 1000
",
    status: Status::Done,
    report: "\
report 1 nodes 2 low 25 high 65 age 20000 idle 25 over 130 miss 50 cache 1048576 stream 200
file /a 160
file /b 161
event 1 open 1 1 1 65535 1460
opened 1 1 1 65535 1460
sent 1 c1 front 9c40005000000001000000006002ffffe7920000020405b4
armed c1 1 tcp
event 2 get 1 /a
wrote 1 474554202f6120485454502f312e310d0a486f73743a206c6172640d0a0d0a
event 3 open 2 1 1 65535 1460
opened 2 1 1 65535 1460
sent 2 c2 front 9c40005000000001000000006002ffffe7910000020405b4
armed c2 2 tcp
event 4 get 2 /b
wrote 2 474554202f6220485454502f312e310d0a486f73743a206c6172640d0a0d0a
event 5 settle 1000
inner deliver 1
got 1
took front 1 1
sent 3 front c1 00509c40000000010000000260124000a7800000020405b4
armed front 1 tcp
inner deliver 2
got 2
took front 2 1
sent 4 front c2 00509c40000000010000000260124000a77f0000020405b4
armed front 2 tcp
inner deliver 3
got 3
sent 5 c1 front 9c40005000000002000000025018ffff255a0000474554202f6120485454502f312e310d0a486f73743a206c6172640d0a0d0a
inner deliver 4
got 4
sent 6 c2 front 9c40005000000002000000025018ffff25580000474554202f6220485454502f312e310d0a486f73743a206c6172640d0a0d0a
inner deliver 5
got 5
admitted 1
assigned 1 1 first /a 1 1 -
gave front 1 1
sent 7 front n1 0101000100020000004200000001000000010000001f0000000001ffff000000020000000205b400000000001f474554202f6120485454502f312e310d0a486f73743a206c6172640d0a0d0a
cleared front 1 tcp
armed front 1 offer
inner deliver 6
got 6
admitted 2
assigned 2 1 first /b 2 2 -
gave front 2 1
sent 8 front n2 0101000200020000004200000001000000010000001f0000000001ffff000000020000000205b400000000001f474554202f6220485454502f312e310d0a486f73743a206c6172640d0a0d0a
cleared front 2 tcp
armed front 2 offer
inner deliver 7
got 7
took n1 1 2
queued n1 n1 1 1 /a
sent 9 n1 c1 00509c40000000020000002150104000bf1e0000
sent 10 n1 front 01020001000200000000
inner deliver 8
got 8
took n2 2 2
queued n2 n2 2 1 /b
sent 11 n2 c2 00509c40000000020000002150104000bf1d0000
sent 12 n2 front 01020002000200000000
inner disk 1 1
read n1 n1 1 1 /a
served n1 1 1 200 200 disk
sent 13 n1 c1 00509c4000000002000000215018400074ba0000485454502f312e3120323030204f4b0d0a436f6e74656e742d4c656e6774683a203136300d0a0d0a41414141414141414141414141414141414141414141414141414141414141414141414141414141414141414141414141414141414141414141414141414141414141414141414141414141414141414141414141414141414141414141414141414141414141414141414141414141414141414141414141414141414141414141414141414141414141414141414141414141414141414141414141414141
armed n1 1 tcp
inner disk 2 1
read n2 n2 2 1 /b
reset n2 2 201
sent 14 n2 c2 00509c40000000020000002150140000ff190000
gave n2 2 2
sent 15 n2 front 0109000200020000000d020000000200000021000000c9
armed n2 2 ended
inner deliver 9
got 9
cleared c1 1 tcp
inner deliver 10
got 10
cleared front 1 offer
inner deliver 11
got 11
cleared c2 2 tcp
inner deliver 12
got 12
cleared front 2 offer
inner deliver 13
got 13
accepted 1 485454502f312e3120323030204f4b0d0a436f6e74656e742d4c656e6774683a203136300d0a0d0a41414141414141414141414141414141414141414141414141414141414141414141414141414141414141414141414141414141414141414141414141414141414141414141414141414141414141414141414141414141414141414141414141414141414141414141414141414141414141414141414141414141414141414141414141414141414141414141414141414141414141414141414141414141
sent 16 c1 front 9c40005000000021000000ca5010fffffe560000
inner deliver 14
got 14
inner deliver 15
got 15
took front 2 3
released 2
sent 17 front n2 010a0002000200000000
inner deliver 16
got 16
sent 18 front n1 010400010002000000149c40005000000021000000ca5010fffffe560000
inner deliver 17
got 17
cleared n2 2 ended
inner deliver 18
got 18
cleared n1 1 tcp
settled 7
",
};

/// Three clients at a full cluster: one in the line resets, and one is admitted where the first ends.
pub const LINE_SETTLES: Row = Row {
    input: "\
lard 1
nodes 1
low 2
high 2
file /a 41
go
open 1 1000 5000 65535 1460
get 1 /a
deliver 1
deliver 2
deliver 3
open 2 1000 5000 65535 1460
get 2 /a
deliver 5
deliver 6
deliver 7
deliver 8
open 3 1000 5000 65535 1460
get 3 /a
deliver 9
deliver 10
deliver 11
deliver 12
abort 3
deliver 13
deliver 4
deliver 15
disk 1 1
deliver 16
shut 1
deliver 18
deliver 19
deliver 20
deliver 21
deliver 22
deliver 23
deliver 23
settle 3000
",
    status: Status::Done,
    report: "\
report 1 nodes 1 low 2 high 2 age 20000 idle 25 over 130 miss 50 cache 1048576 stream 1073741824
file /a 1
event 1 open 1 1000 5000 65535 1460
opened 1 1000 5000 65535 1460
sent 1 c1 front 9c400050000003e8000000006002ffffe3ab0000020405b4
armed c1 1 tcp
event 2 get 1 /a
wrote 1 474554202f6120485454502f312e310d0a486f73743a206c6172640d0a0d0a
event 3 deliver 1
got 1
took front 1 1
sent 2 front c1 00509c4000001388000003e96012400090120000020405b4
armed front 1 tcp
event 4 deliver 2
got 2
sent 3 c1 front 9c400050000003e9000013895018ffff0dec0000474554202f6120485454502f312e310d0a486f73743a206c6172640d0a0d0a
event 5 deliver 3
got 3
admitted 1
assigned 1 1 first /a 1 1 -
gave front 1 1
sent 4 front n1 01010001000200000042000003e8000013880000001f0000000001ffff000003e90000138905b400000000001f474554202f6120485454502f312e310d0a486f73743a206c6172640d0a0d0a
cleared front 1 tcp
armed front 1 offer
event 6 open 2 1000 5000 65535 1460
opened 2 1000 5000 65535 1460
sent 5 c2 front 9c400050000003e8000000006002ffffe3aa0000020405b4
armed c2 2 tcp
event 7 get 2 /a
wrote 2 474554202f6120485454502f312e310d0a486f73743a206c6172640d0a0d0a
event 8 deliver 5
got 5
took front 2 1
sent 6 front c2 00509c4000001388000003e96012400090110000020405b4
armed front 2 tcp
event 9 deliver 6
got 6
sent 7 c2 front 9c400050000003e9000013895018ffff0deb0000474554202f6120485454502f312e310d0a486f73743a206c6172640d0a0d0a
event 10 deliver 7
got 7
waits 2
sent 8 front c2 00509c40000013890000040850103fe1a7ce0000
cleared front 2 tcp
event 11 deliver 8
got 8
cleared c2 2 tcp
event 12 open 3 1000 5000 65535 1460
opened 3 1000 5000 65535 1460
sent 9 c3 front 9c400050000003e8000000006002ffffe3a90000020405b4
armed c3 3 tcp
event 13 get 3 /a
wrote 3 474554202f6120485454502f312e310d0a486f73743a206c6172640d0a0d0a
event 14 deliver 9
got 9
took front 3 1
sent 10 front c3 00509c4000001388000003e96012400090100000020405b4
armed front 3 tcp
event 15 deliver 10
got 10
sent 11 c3 front 9c400050000003e9000013895018ffff0dea0000474554202f6120485454502f312e310d0a486f73743a206c6172640d0a0d0a
event 16 deliver 11
got 11
waits 3
sent 12 front c3 00509c40000013890000040850103fe1a7cd0000
cleared front 3 tcp
event 17 deliver 12
got 12
cleared c3 3 tcp
event 18 abort 3
aborted 3
sent 13 c3 front 9c400050000004080000138950140000e7aa0000
event 19 deliver 13
got 13
event 20 deliver 4
got 4
took n1 1 2
queued n1 n1 1 1 /a
sent 14 n1 c1 00509c40000013890000040850104000a7b00000
sent 15 n1 front 01020001000200000000
event 21 deliver 15
got 15
cleared front 1 offer
event 22 disk 1 1
read n1 n1 1 1 /a
served n1 1 1 200 39 disk
sent 16 n1 c1 00509c40000013890000040850184000b7810000485454502f312e3120323030204f4b0d0a436f6e74656e742d4c656e6774683a20310d0a0d0a41
armed n1 1 tcp
event 23 deliver 16
got 16
accepted 1 485454502f312e3120323030204f4b0d0a436f6e74656e742d4c656e6774683a20310d0a0d0a41
sent 17 c1 front 9c40005000000408000013b05010ffffe7890000
cleared c1 1 tcp
event 24 shut 1
sent 18 c1 front 9c40005000000408000013b05011ffffe7880000
armed c1 1 tcp
event 25 deliver 18
got 18
sent 19 front n1 010400010002000000149c40005000000408000013b05011ffffe7880000
event 26 deliver 19
got 19
sent 20 n1 c1 00509c40000013b00000040950114000a7870000
event 27 deliver 20
got 20
eof 1
sent 21 c1 front 9c40005000000409000013b15010ffffe7870000
cleared c1 1 tcp
event 28 deliver 21
got 21
sent 22 front n1 010400010002000000149c40005000000409000013b15010ffffe7870000
event 29 deliver 22
got 22
gave n1 1 2
sent 23 n1 front 0109000100020000000d00000013b10000040900000000
cleared n1 1 tcp
armed n1 1 ended
event 30 deliver 23
got 23
took front 1 3
released 1
admitted 2
assigned 2 1 first /a 1 - -
gave front 2 1
sent 24 front n1 010a0001000200000000
sent 25 front n1 01010002000200000042000003e8000013880000001f0000000001ffff000003e90000138905b400000000001f474554202f6120485454502f312e310d0a486f73743a206c6172640d0a0d0a
armed front 2 offer
event 31 deliver 23
got 23
sent 26 front n1 010a0001000200000000
event 32 settle 3000
inner deliver 14
got 14
sent 27 c1 front 9c40005000000409000013b15010ffffe7870000
inner deliver 17
got 17
inner deliver 24
got 24
cleared n1 1 ended
inner deliver 25
got 25
took n1 2 2
hit n1 /a
served n1 2 1 200 39 cache
sent 28 n1 c2 00509c40000013890000040850184000b7800000485454502f312e3120323030204f4b0d0a436f6e74656e742d4c656e6774683a20310d0a0d0a41
sent 29 n1 front 01020002000200000000
armed n1 2 tcp
inner deliver 26
got 26
inner deliver 27
got 27
inner deliver 28
got 28
accepted 2 485454502f312e3120323030204f4b0d0a436f6e74656e742d4c656e6774683a20310d0a0d0a41
sent 30 c2 front 9c40005000000408000013b05010ffffe7880000
inner deliver 29
got 29
cleared front 2 offer
inner deliver 30
got 30
sent 31 front n1 010400020002000000149c40005000000408000013b05010ffffe7880000
inner deliver 31
got 31
cleared n1 2 tcp
settled 4
",
};

/// Five clients, where a fifth is not admitted: it waits, and is admitted in the step in which the first connection ends. The
/// same end, come again, is acknowledged and changes nothing.
pub const FIVE_CLIENTS: Told = Told {
    input: "\
lard 1
nodes 2
low 2
high 3
file /a 68656c6c6f
go
open 1 1000 5000 65535 1460
get 1 /a
deliver 1
deliver 2
deliver 3
open 2 1000 5000 65535 1460
get 2 /a
deliver 5
deliver 6
deliver 7
open 3 1000 5000 65535 1460
get 3 /a
deliver 9
deliver 10
deliver 11
open 4 1000 5000 65535 1460
get 4 /a
deliver 13
deliver 14
deliver 15
open 5 1000 5000 65535 1460
get 5 /a
deliver 17
deliver 18
deliver 19
deliver 4
disk 1 1
deliver 21
deliver 22
deliver 23
deliver 24
deliver 25
shut 1
deliver 26
deliver 27
deliver 28
deliver 29
deliver 30
deliver 31
deliver 31
",
    steps: &[
        &["event 25 deliver 19", "got 19", "waits 5"],
        &[
            "event 39 deliver 31",
            "got 31",
            "took front 1 3",
            "released 1",
            "admitted 5",
            "assigned 5 1 first /a 1 - -",
        ],
        &[
            "event 40 deliver 31",
            "got 31",
            "sent 34 front n1 010a0001000200000000",
            "",
        ],
    ],
};
