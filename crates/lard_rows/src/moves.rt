//! Rows of connections that move to a node and are answered there.

use crate::rows::{Row, Told};
use lard_app::{Refusal, Status, Why};

/// One request for a file: the connection moves to node 1, whose disk reads the file.
pub const ONE_CONNECTION_MOVES: Row = Row {
    input: "\
lard 1
file /a 68656c6c6f
go
open 1 1000 5000 65535 1460
get 1 /a
deliver 1
deliver 2
deliver 3
deliver 4
deliver 6
disk 1 1
deliver 7
deliver 8
deliver 9
",
    status: Status::Done,
    report: "\
report 1 nodes 2 low 25 high 65 age 20000 idle 25 over 130 miss 50 cache 1048576 stream 1073741824
file /a 5
event 1 open 1 1000 5000 65535 1460
opened 1 1000 5000 65535 1460
sent 1 c1 front 9c400050000003e8000000006002ffffe3ab0000020405b4
armed c1 1 tcp
event 2 get 1 /a
wrote 1 474554202f6120485454502f312e310d0a486f73743a206c6172640d0a0d0a
event 3 deliver 1
got 1
took front 1 1
sent 2 front c1 00509c4000001388000003e96012400090120000020405b4
armed front 1 tcp
event 4 deliver 2
got 2
sent 3 c1 front 9c400050000003e9000013895018ffff0dec0000474554202f6120485454502f312e310d0a486f73743a206c6172640d0a0d0a
event 5 deliver 3
got 3
admitted 1
assigned 1 1 first /a 1 1 -
gave front 1 1
sent 4 front n1 01010001000200000042000003e8000013880000001f0000000001ffff000003e90000138905b400000000001f474554202f6120485454502f312e310d0a486f73743a206c6172640d0a0d0a
cleared front 1 tcp
armed front 1 offer
event 6 deliver 4
got 4
took n1 1 2
queued n1 n1 1 1 /a
sent 5 n1 c1 00509c40000013890000040850104000a7b00000
sent 6 n1 front 01020001000200000000
event 7 deliver 6
got 6
cleared front 1 offer
event 8 disk 1 1
read n1 n1 1 1 /a
served n1 1 1 200 43 disk
sent 7 n1 c1 00509c40000013890000040850184000b4a70000485454502f312e3120323030204f4b0d0a436f6e74656e742d4c656e6774683a20350d0a0d0a68656c6c6f
armed n1 1 tcp
event 9 deliver 7
got 7
accepted 1 485454502f312e3120323030204f4b0d0a436f6e74656e742d4c656e6774683a20350d0a0d0a68656c6c6f
sent 8 c1 front 9c40005000000408000013b45010ffffe7850000
cleared c1 1 tcp
event 10 deliver 8
got 8
sent 9 front n1 010400010002000000149c40005000000408000013b45010ffffe7850000
event 11 deliver 9
got 9
cleared n1 1 tcp
",
};

/// The same, and the end: the connection is the front end's again. Then the client's FIN and the Offer come once more.
pub const A_MOVED_CONNECTION_ENDS: Row = Row {
    input: "\
lard 1
file /a 68656c6c6f
go
open 1 1000 5000 65535 1460
get 1 /a
deliver 1
deliver 2
deliver 3
deliver 4
deliver 6
disk 1 1
deliver 7
deliver 8
deliver 9
shut 1
deliver 10
deliver 11
deliver 12
deliver 13
deliver 14
deliver 15
deliver 16
deliver 10
deliver 4
",
    status: Status::Done,
    report: "\
report 1 nodes 2 low 25 high 65 age 20000 idle 25 over 130 miss 50 cache 1048576 stream 1073741824
file /a 5
event 1 open 1 1000 5000 65535 1460
opened 1 1000 5000 65535 1460
sent 1 c1 front 9c400050000003e8000000006002ffffe3ab0000020405b4
armed c1 1 tcp
event 2 get 1 /a
wrote 1 474554202f6120485454502f312e310d0a486f73743a206c6172640d0a0d0a
event 3 deliver 1
got 1
took front 1 1
sent 2 front c1 00509c4000001388000003e96012400090120000020405b4
armed front 1 tcp
event 4 deliver 2
got 2
sent 3 c1 front 9c400050000003e9000013895018ffff0dec0000474554202f6120485454502f312e310d0a486f73743a206c6172640d0a0d0a
event 5 deliver 3
got 3
admitted 1
assigned 1 1 first /a 1 1 -
gave front 1 1
sent 4 front n1 01010001000200000042000003e8000013880000001f0000000001ffff000003e90000138905b400000000001f474554202f6120485454502f312e310d0a486f73743a206c6172640d0a0d0a
cleared front 1 tcp
armed front 1 offer
event 6 deliver 4
got 4
took n1 1 2
queued n1 n1 1 1 /a
sent 5 n1 c1 00509c40000013890000040850104000a7b00000
sent 6 n1 front 01020001000200000000
event 7 deliver 6
got 6
cleared front 1 offer
event 8 disk 1 1
read n1 n1 1 1 /a
served n1 1 1 200 43 disk
sent 7 n1 c1 00509c40000013890000040850184000b4a70000485454502f312e3120323030204f4b0d0a436f6e74656e742d4c656e6774683a20350d0a0d0a68656c6c6f
armed n1 1 tcp
event 9 deliver 7
got 7
accepted 1 485454502f312e3120323030204f4b0d0a436f6e74656e742d4c656e6774683a20350d0a0d0a68656c6c6f
sent 8 c1 front 9c40005000000408000013b45010ffffe7850000
cleared c1 1 tcp
event 10 deliver 8
got 8
sent 9 front n1 010400010002000000149c40005000000408000013b45010ffffe7850000
event 11 deliver 9
got 9
cleared n1 1 tcp
event 12 shut 1
sent 10 c1 front 9c40005000000408000013b45011ffffe7840000
armed c1 1 tcp
event 13 deliver 10
got 10
sent 11 front n1 010400010002000000149c40005000000408000013b45011ffffe7840000
event 14 deliver 11
got 11
sent 12 n1 c1 00509c40000013b40000040950114000a7830000
armed n1 1 tcp
event 15 deliver 12
got 12
eof 1
sent 13 c1 front 9c40005000000409000013b55010ffffe7830000
cleared c1 1 tcp
event 16 deliver 13
got 13
sent 14 front n1 010400010002000000149c40005000000409000013b55010ffffe7830000
event 17 deliver 14
got 14
gave n1 1 2
sent 15 n1 front 0109000100020000000d00000013b50000040900000000
cleared n1 1 tcp
armed n1 1 ended
event 18 deliver 15
got 15
took front 1 3
released 1
sent 16 front n1 010a0001000200000000
event 19 deliver 16
got 16
cleared n1 1 ended
event 20 deliver 10
got 10
sent 17 front c1 00509c40000013b50000040950104000a7830000
event 21 deliver 4
got 4
sent 18 n1 front 01020001000200000000
",
};

/// One request for a file while node 1 is closed: the connection moves to node 2, and no job waits at node 1.
pub const A_CLOSED_NODE: Row = Row {
    input: "\
lard 1
file /a 68656c6c6f
go
drain 1
open 1 1000 5000 65535 1460
get 1 /a
deliver 1
deliver 2
deliver 3
deliver 4
deliver 6
disk 1 1
deliver 7
deliver 8
deliver 9
",
    status: Status::Refused {
        line: 12,
        why: Why::Untimely(Refusal::NoJob { n: 1, j: 1, len: 0 }),
    },
    report: "\
report 1 nodes 2 low 25 high 65 age 20000 idle 25 over 130 miss 50 cache 1048576 stream 1073741824
file /a 5
event 1 drain 1
closed n1
event 2 open 1 1000 5000 65535 1460
opened 1 1000 5000 65535 1460
sent 1 c1 front 9c400050000003e8000000006002ffffe3ab0000020405b4
armed c1 1 tcp
event 3 get 1 /a
wrote 1 474554202f6120485454502f312e310d0a486f73743a206c6172640d0a0d0a
event 4 deliver 1
got 1
took front 1 1
sent 2 front c1 00509c4000001388000003e96012400090120000020405b4
armed front 1 tcp
event 5 deliver 2
got 2
sent 3 c1 front 9c400050000003e9000013895018ffff0dec0000474554202f6120485454502f312e310d0a486f73743a206c6172640d0a0d0a
event 6 deliver 3
got 3
admitted 1
assigned 1 1 first /a 2 2 -
gave front 1 1
sent 4 front n2 01010001000200000042000003e8000013880000001f0000000001ffff000003e90000138905b400000000001f474554202f6120485454502f312e310d0a486f73743a206c6172640d0a0d0a
cleared front 1 tcp
armed front 1 offer
event 7 deliver 4
got 4
took n2 1 2
queued n2 n2 1 1 /a
sent 5 n2 c1 00509c40000013890000040850104000a7b00000
sent 6 n2 front 01020001000200000000
event 8 deliver 6
got 6
cleared front 1 offer
",
};

/// A second request comes before the Offer does: its Forward changes nothing, and the client sends it again.
pub const FORWARD_BEFORE_ITS_OFFER: Row = Row {
    input: "\
lard 1
file /a 68656c6c6f
go
open 1 1000 5000 65535 1460
get 1 /a
deliver 1
deliver 2
deliver 3
get 1 /a
deliver 5
deliver 6
deliver 4
deliver 7
timer c1 1
deliver 9
deliver 10
",
    status: Status::Done,
    report: "\
report 1 nodes 2 low 25 high 65 age 20000 idle 25 over 130 miss 50 cache 1048576 stream 1073741824
file /a 5
event 1 open 1 1000 5000 65535 1460
opened 1 1000 5000 65535 1460
sent 1 c1 front 9c400050000003e8000000006002ffffe3ab0000020405b4
armed c1 1 tcp
event 2 get 1 /a
wrote 1 474554202f6120485454502f312e310d0a486f73743a206c6172640d0a0d0a
event 3 deliver 1
got 1
took front 1 1
sent 2 front c1 00509c4000001388000003e96012400090120000020405b4
armed front 1 tcp
event 4 deliver 2
got 2
sent 3 c1 front 9c400050000003e9000013895018ffff0dec0000474554202f6120485454502f312e310d0a486f73743a206c6172640d0a0d0a
event 5 deliver 3
got 3
admitted 1
assigned 1 1 first /a 1 1 -
gave front 1 1
sent 4 front n1 01010001000200000042000003e8000013880000001f0000000001ffff000003e90000138905b400000000001f474554202f6120485454502f312e310d0a486f73743a206c6172640d0a0d0a
cleared front 1 tcp
armed front 1 offer
event 6 get 1 /a
wrote 1 474554202f6120485454502f312e310d0a486f73743a206c6172640d0a0d0a
sent 5 c1 front 9c40005000000408000013895018ffff0dcd0000474554202f6120485454502f312e310d0a486f73743a206c6172640d0a0d0a
event 7 deliver 5
got 5
sent 6 front n1 010400010002000000339c40005000000408000013895018ffff0dcd0000474554202f6120485454502f312e310d0a486f73743a206c6172640d0a0d0a
event 8 deliver 6
got 6
event 9 deliver 4
got 4
took n1 1 2
queued n1 n1 1 1 /a
sent 7 n1 c1 00509c40000013890000040850104000a7b00000
sent 8 n1 front 01020001000200000000
event 10 deliver 7
got 7
event 11 timer c1 1
sent 9 c1 front 9c40005000000408000013895018ffff0dcd0000474554202f6120485454502f312e310d0a486f73743a206c6172640d0a0d0a
event 12 deliver 9
got 9
sent 10 front n1 010400010002000000339c40005000000408000013895018ffff0dcd0000474554202f6120485454502f312e310d0a486f73743a206c6172640d0a0d0a
event 13 deliver 10
got 10
sent 11 n1 c1 00509c40000013890000042750103fe1a7b00000
",
};

/// A file of no bytes, by GET and by HEAD, and HEAD of a file of five bytes: 38 bytes each.
pub const EMPTY_FILE_AND_HEAD: Told = Told {
    input: "\
lard 1
file /empty -
file /a 68656c6c6f
go
open 1 1000 5000 65535 1460
deliver 1
deliver 2
deliver 3
write 1 474554202f656d70747920485454502f312e310d0a486f73743a206c6172640d0a0d0a48454144202f656d70747920485454502f312e310d0a486f73743a206c6172640d0a0d0a48454144202f6120485454502f312e310d0a486f73743a206c6172640d0a0d0a
deliver 4
deliver 5
deliver 6
deliver 7
deliver 8
deliver 9
disk 1 1
deliver 10
deliver 11
deliver 12
disk 1 1
deliver 13
deliver 14
deliver 15
disk 1 1
deliver 16
deliver 17
deliver 18
shut 1
deliver 19
deliver 20
deliver 21
deliver 22
deliver 23
deliver 24
deliver 25
",
    steps: &[
        &["served n1 1 1 200 38 disk"],
        &[
            "accepted 1 485454502f312e3120323030204f4b0d0a436f6e74656e742d4c656e6774683a20300d0a0d0a",
        ],
        &["served n1 1 2 200 38 disk"],
        &[
            "accepted 1 485454502f312e3120323030204f4b0d0a436f6e74656e742d4c656e6774683a20300d0a0d0a",
        ],
        &["served n1 1 3 200 38 disk"],
        &[
            "accepted 1 485454502f312e3120323030204f4b0d0a436f6e74656e742d4c656e6774683a20350d0a0d0a",
        ],
    ],
};
