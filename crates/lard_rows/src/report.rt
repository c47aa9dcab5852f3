//! The report of the worked example, event by event: one client, one request, answered 404.

/// The heading.
pub const HEADING: &str = "\
report 1 nodes 2 low 25 high 65 age 20000 idle 25 over 130 miss 50 cache 1048576 stream 1073741824
";

/// `open`: the client's SYN goes out.
pub const OPENED: &str = "\
event 1 open 1 1000 5000 65535 1460
opened 1 1000 5000 65535 1460
sent 1 c1 front 9c400050000003e8000000006002ffffe3ab0000020405b4
armed c1 1 tcp
";

/// `get` while the SYN is not answered.
pub const WROTE: &str = "\
event 2 get 1 /x
wrote 1 474554202f7820485454502f312e310d0a486f73743a206c6172640d0a0d0a
";

/// `deliver 1`: the front end takes the connection and answers the SYN.
pub const SYN_CAME: &str = "\
event 3 deliver 1
got 1
took front 1 1
sent 2 front c1 00509c4000001388000003e96012400090120000020405b4
armed front 1 tcp
";

/// `deliver 2`: the client acknowledges, with its request.
pub const SYN_ACK_CAME: &str = "\
event 4 deliver 2
got 2
sent 3 c1 front 9c400050000003e9000013895018ffff0dd50000474554202f7820485454502f312e310d0a486f73743a206c6172640d0a0d0a
";

/// `deliver 3`: the front end answers the request.
pub const REQUEST_CAME: &str = "\
event 5 deliver 3
got 3
served front 1 1 404 45 own
sent 4 front c1 00509c4000001389000004085018400089300000485454502f312e3120343034204e6f7420466f756e640d0a436f6e74656e742d4c656e6774683a20300d0a0d0a
";

/// `deliver 4`: the client accepts the response.
pub const RESPONSE_CAME: &str = "\
event 6 deliver 4
got 4
accepted 1 485454502f312e3120343034204e6f7420466f756e640d0a436f6e74656e742d4c656e6774683a20300d0a0d0a
sent 5 c1 front 9c40005000000408000013b65010ffffe7830000
cleared c1 1 tcp
";

/// `deliver 5`: nothing is left to be acknowledged.
pub const LAST_ACK_CAME: &str = "\
event 7 deliver 5
got 5
cleared front 1 tcp
";

/// The whole report, in its parts.
pub const PARTS: [&str; 8] = [
    HEADING,
    OPENED,
    WROTE,
    SYN_CAME,
    SYN_ACK_CAME,
    REQUEST_CAME,
    RESPONSE_CAME,
    LAST_ACK_CAME,
];
