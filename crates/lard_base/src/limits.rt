//! The numbers that bound a cluster, each under one name. Clauses and definitions cite them too.

/// The most bytes of data in a segment, and the greatest maximum segment size (RFC 9293, 3.7.1, over Ethernet).
pub const MAX_SEGMENT_DATA: u16 = 1_460;

/// The most bytes of a packet that a client sends or gets: a segment's data, and its header with all its options.
pub const MAX_SEGMENT_BYTES: usize = 1_520;

/// The most bytes of a packet between the front end and a node, or between two nodes.
pub const MAX_MESSAGE_BYTES: usize = 1 << 21;

/// The receive window of the front end's and a node's endpoints, in bytes: how many wait to be read, at most.
pub const RECEIVE_WINDOW: u16 = 16_384;

/// The most fields of a request's head.
pub const MAX_FIELDS: usize = 64;

/// The most bytes of a path's spelling.
pub const MAX_PATH_BYTES: usize = 1_024;

/// The most bytes of one file.
pub const MAX_FILE_BYTES: usize = 1 << 20;

/// The most bytes of all files together.
pub const MAX_ALL_FILES_BYTES: usize = 1 << 26;

/// The most files.
pub const MAX_FILES: usize = 65_536;

/// The most bytes of a schedule.
pub const MAX_INPUT_BYTES: usize = 1 << 26;

/// The most bytes that one side of a connection sends: of a client's requests, and of the cluster's responses.
pub const MAX_STREAM_BYTES: u32 = 1 << 30;

/// The most packets of a run.
pub const MAX_PACKETS: u32 = 1_000_000;

/// The most bytes of packets of a run.
pub const MAX_PACKET_BYTES: u64 = 1 << 29;

/// The most records of a journal.
pub const MAX_RECORDS: u64 = 4_000_000;

/// The most bytes of responses that the clients of a run are given.
pub const MAX_RESPONSE_BYTES: u64 = 1 << 29;
