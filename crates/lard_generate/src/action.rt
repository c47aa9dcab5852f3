//! What the clients do once they opened.

ghost use Rattle.std.specs.Prelude.{◌≡◌, ◌≤◌, ◌+◌, ◌++◌, map, IfOk, OnOk};
ghost use Rattle.lard_generate.specs.Clients.{drawn_actions, drawn_ask, action_event, fields, request_head, shut_at};
ghost use Rattle.lard_generate.specs.Draws.{behind, draw, each};

use crate::draws::{client, draw};
use crate::files::{FILES, path};
use lard_base::{Bytes, ConnId, Event, Events, Items, NoMemory};
use rand_pcg::Lcg64Xsh32;
use std::alloc::Global;

/// What a client does once it opened.
#[derive(Clone, Copy, Debug, PartialEq, Eq)]
pub enum Action {
    /// It writes a request for the file of this number.
    Ask { c: ConnId, file: u32 },
    /// It closes its side.
    Shut(ConnId),
}

/// What all clients do, of which there are so many, to 16,384, client by client. `NoMemory` where memory runs out.
pub fn actions(
    alloc: Global,
    draws: &mut Lcg64Xsh32,
    clients: u32,
) -> Result<Items<Action>, NoMemory>
    requires { clients ≤ ConnId.MAX }
    ensures { IfOk result (λ actions. each drawn_actions clients draws.old ≡ (actions, draws.new)) }
{
    let mut actions = Items::new(alloc);
    for k in 0..clients {
        let mut more = actions_of(alloc, draws, client(k + 1))?;
        actions.append(&mut more)?;
    }
    Ok(actions)
}

/// One client asks, and shuts or does not.
fn actions_of(alloc: Global, draws: &mut Lcg64Xsh32, c: ConnId) -> Result<Items<Action>, NoMemory>
    ensures { IfOk result (λ actions. drawn_actions c draws.old ≡ (actions, draws.new)) }
{
    let times = 1 + draw(draws, 10);
    let mut actions = asks(alloc, draws, c, times)?;
    push_shut(&mut actions, c, draw(draws, 4))?;
    Ok(actions)
}

/// A client asks so many times.
fn asks(
    alloc: Global,
    draws: &mut Lcg64Xsh32,
    c: ConnId,
    times: u32,
) -> Result<Items<Action>, NoMemory>
    ensures { IfOk result (λ asks. each (drawn_ask c) times draws.old ≡ (asks, draws.new)) }
{
    let mut asks = Items::new(alloc);
    for _j in 0..times {
        let file = draw(draws, FILES);
        asks.push(Action::Ask { c, file })?;
    }
    Ok(asks)
}

/// A client shuts unless the draw is 0.
fn push_shut(actions: &mut Items<Action>, c: ConnId, draw: u32) -> Result<(), NoMemory>
    ensures { OnOk result (actions.new ≡ actions.old ++ shut_at c draw) }
{
    if draw == 0 {
        return Ok(());
    }
    actions.push(Action::Shut(c))
}

/// The events of actions. `NoMemory` where memory runs out.
pub fn events(alloc: Global, actions: &[Action]) -> Result<Events, NoMemory>
    ensures { IfOk result (λ events. events ≡ map action_event actions.now) }
{
    let mut events = Events::new(alloc);
    for action in actions {
        events.push(event(alloc, *action)?)?;
    }
    Ok(events)
}

/// The event of an action.
fn event(alloc: Global, action: Action) -> Result<Event, NoMemory>
    ensures { IfOk result (λ event. event ≡ action_event action) }
{
    match action {
        Action::Ask { c, file } => {
            let bytes = head(alloc, file)?;
            Ok(Event::Write { c, bytes })
        }
        Action::Shut(c) => Ok(Event::Shut(c)),
    }
}

/// The head of a request for a file.
fn head(alloc: Global, file: u32) -> Result<Bytes, NoMemory>
    ensures { IfOk result (λ bytes. bytes ≡ request_head file) }
{
    let path = path(alloc, file)?;
    let mut head = Vec::from_slice(alloc, b"GET ")?;
    head.extend_from_slice(&path)?;
    head.extend_from_slice(fields())?;
    Ok(Bytes::from_vec(head))
}

/// What a browser's request has behind its path.
#[tactic(auto, unfolding(crate::specs::Clients::fields))]
pub fn fields() -> &'static [u8]
    ensures { result.now ≡ fields }
{
    b" HTTP/1.1\r\n\
    Host: lard.example\r\n\
    User-Agent: Mozilla/5.0 (X11; Linux x86_64; rv:128.0) Gecko/20100101 Firefox/128.0\r\n\
    Accept: text/html,application/xhtml+xml,application/xml;q=0.9,*/*;q=0.8\r\n\
    Accept-Language: en-US,en;q=0.5\r\n\
    Accept-Encoding: gzip, deflate, br\r\n\
    Connection: keep-alive\r\n\
    Upgrade-Insecure-Requests: 1\r\n\
    Sec-Fetch-Dest: document\r\n\
    Sec-Fetch-Mode: navigate\r\n\
    Sec-Fetch-Site: none\r\n\
    Sec-Fetch-User: ?1\r\n\
    Priority: u=0, i\r\n\
    Pragma: no-cache\r\n\
    Cache-Control: no-cache\r\n\
    DNT: 1\r\n\
    \r\n"
}
