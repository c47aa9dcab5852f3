//! RFC 9293's cases, section by section. The client's first number is 1000 and the endpoint's 5000, if nothing else is
//! said; each segment that is expected was worked out by hand from the RFC.

mod arrivals;
mod departures;
mod moves;
mod words;
