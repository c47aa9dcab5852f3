//! The worked rows: inputs with the status and the whole report that the rules give, worked out apart from the program.

use crate::later::{BATCH_SETTLES, CONTENT_IS_LOST, EIGHT_REQUESTS};
use crate::limits::{
    FIRST_RESPONSE_PAST_THE_LIMIT, FIVE_CLIENTS, LINE_SETTLES, RESPONSES_AT_THE_LIMIT,
};
use crate::moves::{
    A_CLOSED_NODE, A_MOVED_CONNECTION_ENDS, EMPTY_FILE_AND_HEAD, FORWARD_BEFORE_ITS_OFFER,
    ONE_CONNECTION_MOVES,
};
use crate::settles::{MOVED_CONNECTION_SETTLES, NUMBERS_BEGIN_AGAIN, SETTLED, SETTLED_LATER};
use lard_app::{FileFault, Refusal, Status, What, Why};

/// An input, how its run ends, and what it writes.
#[derive(Drop)]
pub struct Row {
    pub input: &'static str,
    pub status: Status,
    pub report: &'static str,
}

/// An input that ends well, and what stands in its report: lists of lines, in this order, each list line by line.
pub struct Told {
    pub input: &'static str,
    pub steps: &'static [&'static [&'static str]],
}

/// The heading alone.
pub const HEADING_ALONE: Row = Row {
    input: "\
lard 1
go
",
    status: Status::Done,
    report: "\
report 1 nodes 2 low 25 high 65 age 20000 idle 25 over 130 miss 50 cache 1048576 stream 1073741824
",
};

/// An empty input.
pub const NO_INPUT: Row = Row {
    input: "",
    status: Status::Refused {
        line: 1,
        why: Why::Syntax,
    },
    report: "",
};

/// One client and one request, answered 404.
pub const ONE_REQUEST: Row = Row {
    input: "\
lard 1
go
open 1 1000 5000 65535 1460
get 1 /x
deliver 1
deliver 2
deliver 3
deliver 4
deliver 5
",
    status: Status::Done,
    report: "\
report 1 nodes 2 low 25 high 65 age 20000 idle 25 over 130 miss 50 cache 1048576 stream 1073741824
event 1 open 1 1000 5000 65535 1460
opened 1 1000 5000 65535 1460
sent 1 c1 front 9c400050000003e8000000006002ffffe3ab0000020405b4
armed c1 1 tcp
event 2 get 1 /x
wrote 1 474554202f7820485454502f312e310d0a486f73743a206c6172640d0a0d0a
event 3 deliver 1
got 1
took front 1 1
sent 2 front c1 00509c4000001388000003e96012400090120000020405b4
armed front 1 tcp
event 4 deliver 2
got 2
sent 3 c1 front 9c400050000003e9000013895018ffff0dd50000474554202f7820485454502f312e310d0a486f73743a206c6172640d0a0d0a
event 5 deliver 3
got 3
served front 1 1 404 45 own
sent 4 front c1 00509c4000001389000004085018400089300000485454502f312e3120343034204e6f7420466f756e640d0a436f6e74656e742d4c656e6774683a20300d0a0d0a
event 6 deliver 4
got 4
accepted 1 485454502f312e3120343034204e6f7420466f756e640d0a436f6e74656e742d4c656e6774683a20300d0a0d0a
sent 5 c1 front 9c40005000000408000013b65010ffffe7830000
cleared c1 1 tcp
event 7 deliver 5
got 5
cleared front 1 tcp
",
};

/// Packet 0, which is never sent.
pub const NONE_SENT: Row = Row {
    input: "\
lard 1
go
open 1 1000 5000 65535 1460
get 1 /x
deliver 0
",
    status: Status::Refused {
        line: 5,
        why: Why::Untimely(Refusal::NotSent { k: 0, sent: 1 }),
    },
    report: "\
report 1 nodes 2 low 25 high 65 age 20000 idle 25 over 130 miss 50 cache 1048576 stream 1073741824
event 1 open 1 1000 5000 65535 1460
opened 1 1000 5000 65535 1460
sent 1 c1 front 9c400050000003e8000000006002ffffe3ab0000020405b4
armed c1 1 tcp
event 2 get 1 /x
wrote 1 474554202f7820485454502f312e310d0a486f73743a206c6172640d0a0d0a
",
};

/// A packet that was not sent.
pub const NOT_SENT: Row = Row {
    input: "\
lard 1
go
open 1 1000 5000 65535 1460
get 1 /x
deliver 2
",
    status: Status::Refused {
        line: 5,
        why: Why::Untimely(Refusal::NotSent { k: 2, sent: 1 }),
    },
    report: "\
report 1 nodes 2 low 25 high 65 age 20000 idle 25 over 130 miss 50 cache 1048576 stream 1073741824
event 1 open 1 1000 5000 65535 1460
opened 1 1000 5000 65535 1460
sent 1 c1 front 9c400050000003e8000000006002ffffe3ab0000020405b4
armed c1 1 tcp
event 2 get 1 /x
wrote 1 474554202f7820485454502f312e310d0a486f73743a206c6172640d0a0d0a
",
};

/// A request of a client that has not opened.
pub const NOT_OPENED: Row = Row {
    input: "\
lard 1
go
open 1 1000 5000 65535 1460
get 1 /x
get 2 /x
",
    status: Status::Refused {
        line: 5,
        why: Why::Untimely(Refusal::NoClient(2)),
    },
    report: "\
report 1 nodes 2 low 25 high 65 age 20000 idle 25 over 130 miss 50 cache 1048576 stream 1073741824
event 1 open 1 1000 5000 65535 1460
opened 1 1000 5000 65535 1460
sent 1 c1 front 9c400050000003e8000000006002ffffe3ab0000020405b4
armed c1 1 tcp
event 2 get 1 /x
wrote 1 474554202f7820485454502f312e310d0a486f73743a206c6172640d0a0d0a
",
};

/// A packet that was lost is delivered.
pub const LOST: Row = Row {
    input: "\
lard 1
go
open 1 1000 5000 65535 1460
get 1 /x
lose 1
deliver 1
",
    status: Status::Refused {
        line: 6,
        why: Why::Untimely(Refusal::WasLost(1)),
    },
    report: "\
report 1 nodes 2 low 25 high 65 age 20000 idle 25 over 130 miss 50 cache 1048576 stream 1073741824
event 1 open 1 1000 5000 65535 1460
opened 1 1000 5000 65535 1460
sent 1 c1 front 9c400050000003e8000000006002ffffe3ab0000020405b4
armed c1 1 tcp
event 2 get 1 /x
wrote 1 474554202f7820485454502f312e310d0a486f73743a206c6172640d0a0d0a
event 3 lose 1
lost 1
",
};

/// A client opens twice.
pub const OPENED_TWICE: Row = Row {
    input: "\
lard 1
go
open 1 1 1 1 1
open 1 1 1 1 1
",
    status: Status::Refused {
        line: 4,
        why: Why::Untimely(Refusal::Used(1)),
    },
    report: "\
report 1 nodes 2 low 25 high 65 age 20000 idle 25 over 130 miss 50 cache 1048576 stream 1073741824
event 1 open 1 1 1 1 1
opened 1 1 1 1 1
sent 1 c1 front 9c400050000000010000000060020001ed44000002040001
armed c1 1 tcp
",
};

/// Each of two nodes is to be closed, of which the second is the last.
pub const LAST_NODE: Row = Row {
    input: "\
lard 1
go
drain 1
drain 2
",
    status: Status::Refused {
        line: 4,
        why: Why::Untimely(Refusal::LastNode(2)),
    },
    report: "\
report 1 nodes 2 low 25 high 65 age 20000 idle 25 over 130 miss 50 cache 1048576 stream 1073741824
event 1 drain 1
closed n1
",
};

/// The SYN comes twice, and the SYN with ACK is lost and sent again by the timer.
pub const SYN_TWICE: Row = Row {
    input: "\
lard 1
go
open 1 1000 5000 65535 1460
deliver 1
deliver 1
lose 2
timer front 1
",
    status: Status::Done,
    report: "\
report 1 nodes 2 low 25 high 65 age 20000 idle 25 over 130 miss 50 cache 1048576 stream 1073741824
event 1 open 1 1000 5000 65535 1460
opened 1 1000 5000 65535 1460
sent 1 c1 front 9c400050000003e8000000006002ffffe3ab0000020405b4
armed c1 1 tcp
event 2 deliver 1
got 1
took front 1 1
sent 2 front c1 00509c4000001388000003e96012400090120000020405b4
armed front 1 tcp
event 3 deliver 1
got 1
sent 3 front c1 00509c4000001389000003e950104000a7cf0000
event 4 lose 2
lost 2
event 5 timer front 1
sent 4 front c1 00509c4000001388000003e96012400090120000020405b4
",
};

/// A request longer than the stream limit.
pub const WRITTEN_PAST_THE_LIMIT: Row = Row {
    input: "\
lard 1
stream 30
go
open 1 1000 5000 65535 1460
get 1 /x
",
    status: Status::Limit {
        line: 5,
        what: What::Stream,
    },
    report: "\
report 1 nodes 2 low 25 high 65 age 20000 idle 25 over 130 miss 50 cache 1048576 stream 30
event 1 open 1 1000 5000 65535 1460
opened 1 1000 5000 65535 1460
sent 1 c1 front 9c400050000003e8000000006002ffffe3ab0000020405b4
armed c1 1 tcp
",
};

/// The third response would pass the stream limit, and the connection is reset.
pub const RESET_AT_THE_LIMIT: Row = Row {
    input: "\
lard 1
stream 100
go
open 1 1000 5000 65535 1460
get 1 /x
deliver 1
deliver 2
deliver 3
deliver 4
get 1 /x
deliver 6
get 1 /x
deliver 8
",
    status: Status::Done,
    report: "\
report 1 nodes 2 low 25 high 65 age 20000 idle 25 over 130 miss 50 cache 1048576 stream 100
event 1 open 1 1000 5000 65535 1460
opened 1 1000 5000 65535 1460
sent 1 c1 front 9c400050000003e8000000006002ffffe3ab0000020405b4
armed c1 1 tcp
event 2 get 1 /x
wrote 1 474554202f7820485454502f312e310d0a486f73743a206c6172640d0a0d0a
event 3 deliver 1
got 1
took front 1 1
sent 2 front c1 00509c4000001388000003e96012400090120000020405b4
armed front 1 tcp
event 4 deliver 2
got 2
sent 3 c1 front 9c400050000003e9000013895018ffff0dd50000474554202f7820485454502f312e310d0a486f73743a206c6172640d0a0d0a
event 5 deliver 3
got 3
served front 1 1 404 45 own
sent 4 front c1 00509c4000001389000004085018400089300000485454502f312e3120343034204e6f7420466f756e640d0a436f6e74656e742d4c656e6774683a20300d0a0d0a
event 6 deliver 4
got 4
accepted 1 485454502f312e3120343034204e6f7420466f756e640d0a436f6e74656e742d4c656e6774683a20300d0a0d0a
sent 5 c1 front 9c40005000000408000013b65010ffffe7830000
cleared c1 1 tcp
event 7 get 1 /x
wrote 1 474554202f7820485454502f312e310d0a486f73743a206c6172640d0a0d0a
sent 6 c1 front 9c40005000000408000013b65018ffff0d890000474554202f7820485454502f312e310d0a486f73743a206c6172640d0a0d0a
armed c1 1 tcp
event 8 deliver 6
got 6
served front 1 2 404 45 own
sent 7 front c1 00509c40000013b6000004275018400088e40000485454502f312e3120343034204e6f7420466f756e640d0a436f6e74656e742d4c656e6774683a20300d0a0d0a
event 9 get 1 /x
wrote 1 474554202f7820485454502f312e310d0a486f73743a206c6172640d0a0d0a
sent 8 c1 front 9c40005000000427000013b65018ffff0d6a0000474554202f7820485454502f312e310d0a486f73743a206c6172640d0a0d0a
event 10 deliver 8
got 8
reset front 1 135
sent 9 front c1 00509c40000013e30000044650140000e7140000
cleared front 1 tcp
",
};

/// Then a challenge ACK for an old segment, and the reset comes.
pub const RESET_IS_DELIVERED: Row = Row {
    input: "\
lard 1
stream 100
go
open 1 1000 5000 65535 1460
get 1 /x
deliver 1
deliver 2
deliver 3
deliver 4
get 1 /x
deliver 6
get 1 /x
deliver 8
deliver 9
deliver 7
deliver 9
",
    status: Status::Done,
    report: "\
report 1 nodes 2 low 25 high 65 age 20000 idle 25 over 130 miss 50 cache 1048576 stream 100
event 1 open 1 1000 5000 65535 1460
opened 1 1000 5000 65535 1460
sent 1 c1 front 9c400050000003e8000000006002ffffe3ab0000020405b4
armed c1 1 tcp
event 2 get 1 /x
wrote 1 474554202f7820485454502f312e310d0a486f73743a206c6172640d0a0d0a
event 3 deliver 1
got 1
took front 1 1
sent 2 front c1 00509c4000001388000003e96012400090120000020405b4
armed front 1 tcp
event 4 deliver 2
got 2
sent 3 c1 front 9c400050000003e9000013895018ffff0dd50000474554202f7820485454502f312e310d0a486f73743a206c6172640d0a0d0a
event 5 deliver 3
got 3
served front 1 1 404 45 own
sent 4 front c1 00509c4000001389000004085018400089300000485454502f312e3120343034204e6f7420466f756e640d0a436f6e74656e742d4c656e6774683a20300d0a0d0a
event 6 deliver 4
got 4
accepted 1 485454502f312e3120343034204e6f7420466f756e640d0a436f6e74656e742d4c656e6774683a20300d0a0d0a
sent 5 c1 front 9c40005000000408000013b65010ffffe7830000
cleared c1 1 tcp
event 7 get 1 /x
wrote 1 474554202f7820485454502f312e310d0a486f73743a206c6172640d0a0d0a
sent 6 c1 front 9c40005000000408000013b65018ffff0d890000474554202f7820485454502f312e310d0a486f73743a206c6172640d0a0d0a
armed c1 1 tcp
event 8 deliver 6
got 6
served front 1 2 404 45 own
sent 7 front c1 00509c40000013b6000004275018400088e40000485454502f312e3120343034204e6f7420466f756e640d0a436f6e74656e742d4c656e6774683a20300d0a0d0a
event 9 get 1 /x
wrote 1 474554202f7820485454502f312e310d0a486f73743a206c6172640d0a0d0a
sent 8 c1 front 9c40005000000427000013b65018ffff0d6a0000474554202f7820485454502f312e310d0a486f73743a206c6172640d0a0d0a
event 10 deliver 8
got 8
reset front 1 135
sent 9 front c1 00509c40000013e30000044650140000e7140000
cleared front 1 tcp
event 11 deliver 9
got 9
sent 10 c1 front 9c40005000000446000013b65010ffffe7450000
event 12 deliver 7
got 7
accepted 1 485454502f312e3120343034204e6f7420466f756e640d0a436f6e74656e742d4c656e6774683a20300d0a0d0a
sent 11 c1 front 9c40005000000446000013e35010ffffe7180000
event 13 deliver 9
got 9
cleared c1 1 tcp
",
};

/// A request in three writes, whose packets come out of order.
pub const REQUEST_IN_PARTS: Row = Row {
    input: "\
lard 1
go
open 1 1000 5000 65535 1460
deliver 1
deliver 2
deliver 3
write 1 474554202f7820485454
write 1 502f312e310d0a486f73
write 1 743a206c6172640d0a0d0a
deliver 6
deliver 4
deliver 5
deliver 4
timer c1 1
deliver 11
",
    status: Status::Done,
    report: "\
report 1 nodes 2 low 25 high 65 age 20000 idle 25 over 130 miss 50 cache 1048576 stream 1073741824
event 1 open 1 1000 5000 65535 1460
opened 1 1000 5000 65535 1460
sent 1 c1 front 9c400050000003e8000000006002ffffe3ab0000020405b4
armed c1 1 tcp
event 2 deliver 1
got 1
took front 1 1
sent 2 front c1 00509c4000001388000003e96012400090120000020405b4
armed front 1 tcp
event 3 deliver 2
got 2
sent 3 c1 front 9c400050000003e9000013895010ffffe7cf0000
cleared c1 1 tcp
event 4 deliver 3
got 3
cleared front 1 tcp
event 5 write 1 474554202f7820485454
wrote 1 474554202f7820485454
sent 4 c1 front 9c400050000003e9000013895018ffffa8430000474554202f7820485454
armed c1 1 tcp
event 6 write 1 502f312e310d0a486f73
wrote 1 502f312e310d0a486f73
sent 5 c1 front 9c400050000003f3000013895018ffffbb8d0000502f312e310d0a486f73
event 7 write 1 743a206c6172640d0a0d0a
wrote 1 743a206c6172640d0a0d0a
sent 6 c1 front 9c400050000003fd000013895018ffff79750000743a206c6172640d0a0d0a
event 8 deliver 6
got 6
sent 7 front c1 00509c4000001389000003e950104000a7cf0000
event 9 deliver 4
got 4
sent 8 front c1 00509c4000001389000003f350103ff6a7cf0000
event 10 deliver 5
got 5
sent 9 front c1 00509c4000001389000003fd50103feca7cf0000
event 11 deliver 4
got 4
sent 10 front c1 00509c4000001389000003fd50103feca7cf0000
event 12 timer c1 1
sent 11 c1 front 9c400050000003e9000013895018ffff0dd50000474554202f7820485454502f312e310d0a486f73743a206c6172640d0a0d0a
event 13 deliver 11
got 11
served front 1 1 404 45 own
sent 12 front c1 00509c4000001389000004085018400089300000485454502f312e3120343034204e6f7420466f756e640d0a436f6e74656e742d4c656e6774683a20300d0a0d0a
armed front 1 tcp
",
};

/// A file is added twice.
pub const FILE_REPEATED: Row = Row {
    input: "\
lard 1
file /a -
file /a 00
",
    status: Status::Refused {
        line: 3,
        why: Why::File(FileFault::Repeated),
    },
    report: "",
};

/// Two packets that the client did not send, of which neither is a segment: one byte, and its request with a wrong last byte.
pub const NO_SEGMENTS_INJECTED: Row = Row {
    input: "\
lard 1
go
open 1 1000 5000 65535 1460
get 1 /x
deliver 1
deliver 2
deliver 3
deliver 4
deliver 5
inject 1 00
deliver 6
inject 1 9c400050000003e9000013895018ffff0dd50000474554202f7820485454502f312e310d0a486f73743a206c6172640d0a0d0b
deliver 7
",
    status: Status::Done,
    report: "\
report 1 nodes 2 low 25 high 65 age 20000 idle 25 over 130 miss 50 cache 1048576 stream 1073741824
event 1 open 1 1000 5000 65535 1460
opened 1 1000 5000 65535 1460
sent 1 c1 front 9c400050000003e8000000006002ffffe3ab0000020405b4
armed c1 1 tcp
event 2 get 1 /x
wrote 1 474554202f7820485454502f312e310d0a486f73743a206c6172640d0a0d0a
event 3 deliver 1
got 1
took front 1 1
sent 2 front c1 00509c4000001388000003e96012400090120000020405b4
armed front 1 tcp
event 4 deliver 2
got 2
sent 3 c1 front 9c400050000003e9000013895018ffff0dd50000474554202f7820485454502f312e310d0a486f73743a206c6172640d0a0d0a
event 5 deliver 3
got 3
served front 1 1 404 45 own
sent 4 front c1 00509c4000001389000004085018400089300000485454502f312e3120343034204e6f7420466f756e640d0a436f6e74656e742d4c656e6774683a20300d0a0d0a
event 6 deliver 4
got 4
accepted 1 485454502f312e3120343034204e6f7420466f756e640d0a436f6e74656e742d4c656e6774683a20300d0a0d0a
sent 5 c1 front 9c40005000000408000013b65010ffffe7830000
cleared c1 1 tcp
event 7 deliver 5
got 5
cleared front 1 tcp
event 8 inject 1 00
injected 1
sent 6 c1 front 00
event 9 deliver 6
got 6
event 10 inject 1 9c400050000003e9000013895018ffff0dd50000474554202f7820485454502f312e310d0a486f73743a206c6172640d0a0d0b
injected 1
sent 7 c1 front 9c400050000003e9000013895018ffff0dd50000474554202f7820485454502f312e310d0a486f73743a206c6172640d0a0d0b
event 11 deliver 7
got 7
",
};

/// Rows of one connection that stays at the front end, and of schedules that are refused.
pub const ALONE: [Row; 16] = [
    HEADING_ALONE,
    NO_INPUT,
    ONE_REQUEST,
    NONE_SENT,
    NOT_SENT,
    NOT_OPENED,
    LOST,
    OPENED_TWICE,
    LAST_NODE,
    SYN_TWICE,
    WRITTEN_PAST_THE_LIMIT,
    RESET_AT_THE_LIMIT,
    RESET_IS_DELIVERED,
    REQUEST_IN_PARTS,
    FILE_REPEATED,
    NO_SEGMENTS_INJECTED,
];

/// Rows of connections that move.
pub const MOVED: [Row; 5] = [
    ONE_CONNECTION_MOVES,
    A_MOVED_CONNECTION_ENDS,
    A_CLOSED_NODE,
    FORWARD_BEFORE_ITS_OFFER,
    FIRST_RESPONSE_PAST_THE_LIMIT,
];

/// Rows of several requests on a connection that moved.
pub const BATCHES: [Row; 2] = [EIGHT_REQUESTS, CONTENT_IS_LOST];

/// Rows that settle, with a connection or two.
pub const SETTLES: [Row; 3] = [SETTLED, SETTLED_LATER, NUMBERS_BEGIN_AGAIN];

/// Rows that settle behind a limit, a batch, a line or a move.
pub const LONG_SETTLES: [Row; 4] = [
    RESPONSES_AT_THE_LIMIT,
    BATCH_SETTLES,
    LINE_SETTLES,
    MOVED_CONNECTION_SETTLES,
];

/// All rows of which parts of a report are told.
pub const TOLD: [Told; 2] = [EMPTY_FILE_AND_HEAD, FIVE_CLIENTS];
